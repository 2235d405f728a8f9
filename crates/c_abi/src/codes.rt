//! The check codes and the search for a burst.
ghost use Rattle.std.specs.Prelude.{◌≡◌};
ghost use Rattle.std.specs.Option.{option_map_or};
ghost use Rattle.sector.specs.declared.size.SizeCode.TheVariants.{Bytes512};
ghost use Rattle.check_code.specs.Code.{crc_code, ecc_code, check_of};
ghost use Rattle.burst.specs.Search.{first_burst};

use burst::find_burst;
use check_code::{CheckCode, Crc, Ecc, remainder};
use sector::SizeCode;

/// The CRC of some bytes.
#[unsafe(no_mangle)]
pub extern "C" fn disk_crc(bytes: &[u8]) -> u32
    ensures { result ≡ check_of crc_code bytes.now }
{
    remainder::<Crc>(Crc::START, bytes)
}

/// The ECC of some bytes.
#[unsafe(no_mangle)]
pub extern "C" fn disk_ecc(bytes: &[u8]) -> u32
    ensures { result ≡ check_of ecc_code bytes.now }
{
    remainder::<Ecc>(Ecc::START, bytes)
}

/// The first bit of the burst that a difference tells of in a sector of 512 bytes, or FFFFh where
/// none has it.
#[unsafe(no_mangle)]
pub extern "C" fn disk_burst(difference: u32) -> u16
    ensures { result ≡ option_map_or (λ b. b.first) (first_burst Bytes512 difference) 0xffff }
{
    match find_burst(difference, SizeCode::Bytes512) {
        Some(burst) => burst.first,
        None => 0xffff,
    }
}

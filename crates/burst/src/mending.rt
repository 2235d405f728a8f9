//! Mending a delivered ECC sector.
ghost use Rattle.std.specs.Prelude.{◌≡◌, ℕ, List, length};
ghost use Rattle.sector.specs.Sizes.{size_with};
ghost use Rattle.sector.specs.Bits.{inverted, set_of};
ghost use Rattle.burst.specs.Search.{first_burst};
ghost use Rattle.burst.specs.Mending.{correction, mended, mended_by, Differs, Restored};

use super::search::find_burst;
use check_code::{Ecc, difference};
use sector::{Burst, SizeCode, invert_burst};
use thiserror::Error;

/// Why a sector is not corrected; its bytes stay.
#[derive(Clone, Copy, PartialEq, Eq, Debug, Error)]
pub enum CorrectionError {
    #[error("no burst explains the difference")]
    Uncorrectable,
    #[error("no sector has this length")]
    UnknownSize,
}

/// Inverts those bits of a burst that lie in a sector's bytes.
pub fn mend(bytes: &mut [u8], burst: Burst)
    ensures { bytes.new ≡ inverted (set_of burst) bytes.old }
{
    invert_burst(bytes, 0, burst);
}

/// Corrects a delivered ECC sector of this size by its difference: inverts the first burst that has
/// this amount, and answers it, if one does. Where at most one burst is wrong, its bytes are then
/// as they were written.
pub fn correct_by(bytes: &mut [u8], size: SizeCode, difference: u32) -> Option<Burst>
    ensures answer { result ≡ first_burst size difference }
    ensures after { bytes.new ≡ mended_by result bytes.old }
    ensures restored { (check : List ℕ) → Differs size difference bytes.old check
        → Restored bytes.old check bytes.new }
{
    let burst = find_burst(difference, size)?;
    mend(bytes, burst);
    Some(burst)
}

/// Corrects a delivered ECC sector, and answers the burst that was wrong, if one was: where at most
/// one burst of it is wrong, its bytes are then as they were written.
pub fn correct(bytes: &mut [u8], check: [u8; 4]) -> Result<Option<Burst>, CorrectionError>
    ensures answer { result ≡ correction (size_with (length bytes.old)) bytes.old check }
    ensures after { bytes.new ≡ mended result bytes.old }
    ensures restored { Restored bytes.old check bytes.new }
{
    let size = SizeCode::from_length(bytes.len()).ok_or(CorrectionError::UnknownSize)?;
    let difference = difference::<Ecc>(bytes, check);
    if difference == 0 {
        return Ok(None);
    }
    let burst = correct_by(bytes, size, difference).ok_or(CorrectionError::Uncorrectable)?;
    Ok(Some(burst))
}

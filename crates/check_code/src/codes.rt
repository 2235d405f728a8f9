//! The two codes, each with its tables.
ghost use Rattle.std.specs.Prelude.{refl};
ghost use Rattle.check_code.specs.Code.{width as width_of, crc_code, ecc_code};
ghost use Rattle.check_code.specs.Sound.{crc_sound, ecc_sound};

use super::code::CheckCode;
use super::tables::{CRC_TABLES, ECC_TABLES};

/// The CRC: X^16 + X^12 + X^5 + 1, from FFFFh.
pub struct Crc;

/// The ECC: X^32 + X^28 + X^26 + X^19 + X^17 + X^10 + X^6 + X^2 + 1, from FFFFFFFFh.
pub struct Ecc;

impl CheckCode for Crc {
    ghost code = { crc_code };

    ghost WIDTH = { width_of crc_code };

    ghost START = { crc_code.start };

    ghost sound = { crc_sound };

    ghost width_is = { refl };

    ghost start_is = { refl };

    const WIDTH: u32 = 16;

    const START: u32 = 0x0000_ffff;

    fn shifted(byte: u8) -> u32 {
        CRC_TABLES[0][byte as usize]
    }

    fn shifted_by_four(register: u32) -> u32 {
        CRC_TABLES[3][(register >> 24) as usize]
            ^ CRC_TABLES[2][(register >> 16 & 0xff) as usize]
            ^ CRC_TABLES[1][(register >> 8 & 0xff) as usize]
            ^ CRC_TABLES[0][(register & 0xff) as usize]
    }

    fn shifted_by_eight(register: u32) -> u32 {
        CRC_TABLES[7][(register >> 24) as usize]
            ^ CRC_TABLES[6][(register >> 16 & 0xff) as usize]
            ^ CRC_TABLES[5][(register >> 8 & 0xff) as usize]
            ^ CRC_TABLES[4][(register & 0xff) as usize]
    }
}

impl CheckCode for Ecc {
    ghost code = { ecc_code };

    ghost WIDTH = { width_of ecc_code };

    ghost START = { ecc_code.start };

    ghost sound = { ecc_sound };

    ghost width_is = { refl };

    ghost start_is = { refl };

    const WIDTH: u32 = 32;

    const START: u32 = 0xffff_ffff;

    fn shifted(byte: u8) -> u32 {
        ECC_TABLES[0][byte as usize]
    }

    fn shifted_by_four(register: u32) -> u32 {
        ECC_TABLES[3][(register >> 24) as usize]
            ^ ECC_TABLES[2][(register >> 16 & 0xff) as usize]
            ^ ECC_TABLES[1][(register >> 8 & 0xff) as usize]
            ^ ECC_TABLES[0][(register & 0xff) as usize]
    }

    fn shifted_by_eight(register: u32) -> u32 {
        ECC_TABLES[7][(register >> 24) as usize]
            ^ ECC_TABLES[6][(register >> 16 & 0xff) as usize]
            ^ ECC_TABLES[5][(register >> 8 & 0xff) as usize]
            ^ ECC_TABLES[4][(register & 0xff) as usize]
    }
}

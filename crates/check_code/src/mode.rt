//! Which of the two codes is used.
ghost use Rattle.std.specs.Prelude.{◌≡◌};
ghost use Rattle.check_code.specs.Code.{check_bytes_of, difference_of};
ghost use Rattle.check_code.specs.Mode.{code_of};

use super::code::{check_bytes, difference};
use super::codes::{Crc, Ecc};

/// A check code, chosen as the program runs.
#[derive(Clone, Copy, PartialEq, Eq, Debug)]
pub enum CheckMode {
    Crc,
    Ecc,
}

impl CheckMode {
    /// The four check bytes of a sector's bytes under this code.
    pub fn bytes_for(self, bytes: &[u8]) -> [u8; 4]
        ensures { result ≡ check_bytes_of (code_of self) bytes.now }
    {
        match self {
            CheckMode::Crc => check_bytes::<Crc>(bytes),
            CheckMode::Ecc => check_bytes::<Ecc>(bytes),
        }
    }

    /// The difference of a delivered sector under this code.
    pub fn difference(self, bytes: &[u8], check: [u8; 4]) -> u32
        ensures { result ≡ difference_of (code_of self) bytes.now check }
    {
        match self {
            CheckMode::Crc => difference::<Crc>(bytes, check),
            CheckMode::Ecc => difference::<Ecc>(bytes, check),
        }
    }
}

//! The four sector sizes and the codes that name them.
ghost use Rattle.std.specs.Prelude.{◌≡◌};
ghost use Rattle.sector.specs.Sizes.{bytes_of, number_of, size_with, size_numbered};

/// A sector size; its number is its size code.
#[derive(Clone, Copy, PartialEq, Eq, Debug)]
pub enum SizeCode {
    Bytes256 = 0,
    Bytes512 = 1,
    Bytes1024 = 2,
    Bytes128 = 3,
}

impl From<SizeCode> for u8 {
    ghost from_gives = { λ size number. number ≡ number_of size };

    fn from(size: SizeCode) -> u8 {
        size as u8
    }
}

impl SizeCode {
    /// The size that a code names: of the code only bits 1 and 0 count.
    pub fn from_code(code: u8) -> SizeCode
        ensures { result ≡ size_numbered code }
    {
        match code % 4 {
            0 => SizeCode::Bytes256,
            1 => SizeCode::Bytes512,
            2 => SizeCode::Bytes1024,
            _ => SizeCode::Bytes128,
        }
    }

    /// The size of a sector of so many bytes, or `None` where no sector has this length.
    pub fn from_length(length: usize) -> Option<SizeCode>
        ensures { result ≡ size_with length }
    {
        match length {
            256 => Some(SizeCode::Bytes256),
            512 => Some(SizeCode::Bytes512),
            1024 => Some(SizeCode::Bytes1024),
            128 => Some(SizeCode::Bytes128),
            _ => None,
        }
    }

    /// How many bytes a sector of this size has.
    pub fn bytes(self) -> usize
        ensures { result ≡ bytes_of self }
    {
        match self {
            SizeCode::Bytes256 => 256,
            SizeCode::Bytes512 => 512,
            SizeCode::Bytes1024 => 1024,
            SizeCode::Bytes128 => 128,
        }
    }
}

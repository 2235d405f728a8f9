//! The buffer of an attempt.
ghost use Rattle.std.specs.Prelude.{◌≡◌, take};
ghost use Rattle.sector.specs.Sizes.{bytes_of};
ghost use Rattle.drive.specs.Calls.{blank_buffer};

use sector::SizeCode;

/// Room for the longest sector, and for its check bytes. A shorter sector uses the first bytes.
#[derive(Clone, Copy)]
pub struct SectorBuffer {
    pub bytes: [u8; 1024],
    pub check: [u8; 4],
}

impl SectorBuffer {
    /// A buffer of zeros.
    pub fn zeroed() -> SectorBuffer
        ensures { result ≡ blank_buffer }
    {
        SectorBuffer {
            bytes: [0; 1024],
            check: [0; 4],
        }
    }

    /// The bytes of a sector of this size, which stand first.
    pub fn sector(&self, size: SizeCode) -> &[u8]
        ensures { result.now ≡ take (bytes_of size) self.now.bytes }
    {
        &self.bytes[0..size.bytes()]
    }
}

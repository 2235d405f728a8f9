//! The bytes of records.
ghost use Rattle.std.specs.Prelude.{◌≡◌};
ghost use Rattle.records.specs.Bytes.{record_with};

/// The bytes of a record, which are those of its sector.
pub const RECORD: usize = 512;

/// The record with a part of a sheet at its front: no more than a record's bytes of it, and zeros
/// after it.
pub fn record_of(part: &[u8]) -> [u8; RECORD]
    ensures { result ≡ record_with part.now }
{
    let mut bytes = [0u8; RECORD];
    let length = RECORD.min(part.len());
    bytes[..length].copy_from_slice(&part[..length]);
    bytes
}

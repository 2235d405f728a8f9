//! What no drive of any make has more of.

/// The most cylinders of a drive.
pub const MOST_CYLINDERS: u16 = 1024;

/// The most heads of a drive.
pub const MOST_HEADS: u8 = 8;

/// The most sectors that a track has, whatever its room.
pub const MOST_SECTORS: usize = 64;

//! The measures of a drive.

/// How many cylinders and heads a drive has, and how many bytes of sectors each track has room for.
#[derive(Clone, Copy, PartialEq, Eq, Debug)]
pub struct Geometry {
    pub cylinders: u16,
    pub heads: u8,
    /// How many bytes of sectors a track has room for.
    pub capacity: u32,
}

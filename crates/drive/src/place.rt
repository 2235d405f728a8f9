//! Where an attempt is made.
use sector::SizeCode;

/// A cylinder, a head and a sector number.
#[derive(Clone, Copy, PartialEq, Eq, Debug)]
pub struct Place {
    pub cylinder: u16,
    pub head: u8,
    pub number: u8,
}

/// What an attempt names: a sector's number and size under a head, at the cylinder where the head
/// stands.
#[derive(Clone, Copy, PartialEq, Eq, Debug)]
pub struct SectorAddress {
    pub head: u8,
    pub number: u8,
    pub size: SizeCode,
}

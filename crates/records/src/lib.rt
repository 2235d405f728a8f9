//! Records of 512 bytes, each in a sector of that size: their bytes, and where each lies on a
//! drive.
//!
//! Promised here: how many records a drive of given measures holds, the place of each, and the
//! record that a part of a sheet makes.
#![tactic(auto)]

mod bytes;
mod places;

pub use bytes::{RECORD, record_of};
pub use places::{Grid, PlacesError};

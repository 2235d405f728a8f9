//! What a drive is and does, as one trait that every make of drive implements and is proved
//! against. A drive of either of two makes is a drive too.
//!
//! Promised here: what each call answers, what every buffer holds after it, and the drive's meaning
//! after it, its sector memory included, for every input.
#![tactic(auto, unfolding(crate::specs::Calls::step_answer, // what steps answer
crate::specs::Calls::stepped_in, crate::specs::Calls::stepped_out, // and leave
crate::specs::Calls::read_answer, crate::specs::Calls::handed_over, // reads
crate::specs::Calls::after_read, crate::specs::Calls::write_answer, // writes
crate::specs::Calls::after_write, crate::specs::Calls::format_answer, // formats
crate::specs::Calls::after_format))]

mod answers;
mod buffer;
mod drive;
mod empty;
mod geometry;
mod limits;
mod place;
mod stepping;
mod two_makes;

pub use answers::{FormatError, NotReady, ReadError, SectorId, WriteError};
pub use buffer::SectorBuffer;
pub use drive::Drive;
pub use empty::EmptyBay;
pub use geometry::Geometry;
pub use limits::{MOST_CYLINDERS, MOST_HEADS, MOST_SECTORS};
pub use place::{Place, SectorAddress};
pub use stepping::step_toward;

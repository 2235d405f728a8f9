//! The script read stays the sheet written: the theorem over whole histories of calls on a
//! controller, from its making on, over all drives.
//!
//! Promised here: what is read, plain, is what was last written, plain and under the same check
//! code, or the controller says that it could not be read; a read is clean exactly when it can be;
//! no call changes a sector but the one that it writes, or those of the track that it formats; and
//! BUSY goes off. Every make's drives are under it, and an example meets its premises.
#![tactic(auto)]

mod running;
mod theorem;

pub use running::{run, run_anew};
pub use theorem::{example_stands, makes_are_drives, round_trip_stands};

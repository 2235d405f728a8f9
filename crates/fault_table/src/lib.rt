//! Faults laid over a drive of any make: a fault table is a drive, whose places show what its
//! entries say.
//!
//! Promised here: which entries are refused, and why; what the drive under a table's entries
//! answers, leaves in the buffers and means after each call, which is the drive below with another
//! outlook.
#![tactic(auto)]

mod attempts;
mod entry;
mod refusal;
mod table;

pub use entry::{FaultEntry, FaultKind};
pub use refusal::AddRefusal;
pub use table::FaultTable;

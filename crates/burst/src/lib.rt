//! Bursts of wrong bits in an ECC sector: the search for the burst that a difference tells of, and
//! mending it.
//!
//! Promised here: the search answers the first burst whose amount is the difference, or none where
//! none has it; no two bursts of a sector have one amount; so a sector with at most one burst of
//! wrong bits comes back as it was written.
#![tactic(auto)]

mod mending;
mod search;
mod theorems;

pub use mending::{CorrectionError, correct, correct_by, mend};
pub use search::find_burst;
pub use theorems::bursts_apart;

//! Cue sheets: their lines, and a sheet's comparison with its script, line by line.
//!
//! Promised here: how many lines a text has; and the first line that differs, if one does.
#![tactic(auto)]

mod comparison;
mod lines;

pub use comparison::Comparison;
pub use lines::{count_lines, first_difference};

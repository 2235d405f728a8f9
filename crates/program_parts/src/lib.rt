//! Parts of the program: the Winchester that its arguments ask for, the sheet on standard input,
//! faults laid over the drive and told of, and the script's comparison with the sheet.
//!
//! Promised here: the measures where none are asked for, the meaning of the Winchester that is
//! fitted, the entries that a fault table has once faults are laid, and that a script that differs
//! from its sheet is an error. What is read and printed is tested by running the program.
#![tactic(auto)]

mod faults;
mod fitting;
mod measures;
mod sheet;
#[cfg(test)]
mod tests;

pub use faults::{Stretch, lay};
pub use fitting::winchester;
pub use measures::{asked_for, geometry_of};
pub use sheet::{print_comparison, read_sheet};

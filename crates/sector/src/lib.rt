//! What a sector is made of: one of four sizes, its bits, and the sets of bits that can be wrong in
//! it.
//!
//! Promised here: the size that each code names, and that inverting a burst inverts its bits in the
//! bytes passed and no other.
#![tactic(auto)]

mod size;
mod wrong_bits;

pub use size::SizeCode;
pub use wrong_bits::{Burst, invert_burst};

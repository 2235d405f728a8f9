//! The two check codes, CRC and ECC, behind one trait: the check bytes of a sector and the
//! difference of a delivered one.
//!
//! Promised here: both are the values that the shift register's definition gives, for every input;
//! inverting bits changes the difference by an amount that the bits and the length alone fix; a
//! burst always shows; the check is the remainder of a division of polynomials.
#![tactic(auto)]

mod code;
mod codes;
mod mode;
mod tables;
mod theorems;

pub use code::{CheckCode, check_bytes, difference, remainder};
pub use codes::{Crc, Ecc};
pub use mode::CheckMode;
pub use theorems::{laws_stand, theorems_stand};

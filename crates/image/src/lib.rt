//! Winchester and floppy images: drives over sector memory that they own and give back.
//!
//! Promised here: an image is refused for the first of its measures that is out of range, with its
//! memory untouched; else it is a drive, every call of which leaves the memory as the drive's
//! meaning says, byte for byte.
#![tactic(auto)]

mod image;
mod make;
mod memory;
mod record;
mod refusal;

pub use image::{FloppyImage, Image, WinchesterImage};
pub use make::{Floppy, Make, Winchester};
pub use memory::blank_memory;
pub use refusal::{Refusal, Refused, fitted};

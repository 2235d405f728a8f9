//! The controller: eight registers and two lines towards the host, and a drive of any make in each
//! bay behind them.
//!
//! Promised here: what every register read, register write, turn and master reset answers, and what
//! it leaves of registers, lines, buffer, phase and drives, whatever state it meets; and that
//! nothing but these calls makes a controller what it is.
#![tactic(auto)]

mod access;
mod accessing;
mod asking;
mod call;
mod controller;
mod turning;
mod viewing;

pub use access::{Lines, Refusal};
pub use call::{Answer, Call, make_call};
pub use controller::Controller;

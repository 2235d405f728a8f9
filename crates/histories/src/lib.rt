//! Histories: a list of calls on a controller, made one after another, and the turns until BUSY is
//! off.
//!
//! Promised here: a run leaves the controller where its history, continued by these calls, leads,
//! and hands back every answer; BUSY goes off within as many turns as the make of the drives
//! allows; what a turn asks of a drive is never turned away; the worked examples.
#![tactic(auto)]

mod drives;
mod examples;
mod finishing;
mod running;

pub use drives::drives_do_as_asked;
pub use examples::examples_stand;
pub use finishing::finish;
pub use running::make_calls;

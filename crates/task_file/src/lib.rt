//! The controller without its drives: the registers and what they say, the commands, the phase, the
//! lines, the buffer, and the last failure.
//!
//! Promised here: what each register and command byte means, which commands are aborted, what every
//! byte that moves does, and what comes of each attempt, as one definition for every state.
#![tactic(auto)]

mod attempts;
mod bay;
mod begin;
mod command;
mod failure;
mod moving;
mod pairs;
mod registers;
mod sdh;
mod state;
mod status;
mod view;

pub use attempts::zero_check;
pub use bay::{BAYS, Bay};
pub use command::{Command, NoSuchCommand, ReadMode, WriteMode};
pub use failure::{Failure, Fault, Layer, SectorError, SectorFailure};
pub use pairs::{format_ids, format_pair};
pub use registers::{NoSuchRegister, Register, Registers};
pub use sdh::{Sdh, Selection};
pub use state::{Job, Load, Phase, ReadJob, State, WriteJob};
pub use status::{BUSY, CORRECTED, DATA_REQUEST, ERROR, PROTECTED, READY};
pub use view::DriveView;

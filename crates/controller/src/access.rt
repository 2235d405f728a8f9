//! What an access answers.
ghost use Rattle.std.specs.Prelude.{◌≡◌};
ghost use Rattle.controller.specs.declared.access.Refusal.TheVariants.{NoRegister, NoCommand};
ghost use Rattle.controller.specs.Access.{refusal_number};

use std::fmt;
use task_file::{NoSuchCommand, NoSuchRegister};
use thiserror::Error;

/// Why an access is refused, by its number.
#[derive(Clone, Copy, PartialEq, Eq, Debug, Error)]
pub enum Refusal {
    #[error("there is no register of this number")]
    NoRegister = 1,
    /// BUSY is on, and the access is no read of the status.
    #[error("the controller is busy")]
    Busy = 2,
    /// DRQ is off, or bytes move the other way.
    #[error("no data are asked for")]
    NoDataRequest = 3,
    /// DRQ is on, and the access is a write to one of the registers 1 to 6.
    #[error("data are asked for")]
    DataRequest = 4,
    #[error("the byte is no command")]
    NoCommand = 5,
}

/// The two lines: data request and interrupt request.
#[derive(Clone, Copy, PartialEq, Eq, Debug)]
pub struct Lines {
    pub drq: bool,
    pub intrq: bool,
}

impl fmt::Display for Lines {
    fn fmt<W: fmt::Write>(&self, f: &mut fmt::Formatter<W>) -> fmt::Result {
        let word = |on: bool| if on { "on" } else { "off" };
        let request = word(self.drq);
        let interrupt = word(self.intrq);
        write!(f, "data request {request}, interrupt {interrupt}")
    }
}

impl From<Refusal> for u8 {
    ghost from_gives = { λ refusal number. number ≡ refusal_number refusal };

    // The number of a refusal.
    fn from(refusal: Refusal) -> u8 {
        refusal as u8
    }
}

impl From<NoSuchRegister> for Refusal {
    ghost from_gives = { λ _ refusal. refusal ≡ NoRegister };

    fn from(_error: NoSuchRegister) -> Refusal {
        Refusal::NoRegister
    }
}

impl From<NoSuchCommand> for Refusal {
    ghost from_gives = { λ _ refusal. refusal ≡ NoCommand };

    fn from(_error: NoSuchCommand) -> Refusal {
        Refusal::NoCommand
    }
}

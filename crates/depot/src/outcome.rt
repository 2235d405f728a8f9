//! What comes of a command.
use anyhow::anyhow;
use std::alloc::Global;
use std::fmt;
use task_file::Fault;

/// A failed command: the error register, and the fault behind it.
#[derive(Clone, Copy)]
pub struct Failure {
    pub error: u8,
    pub fault: Option<Fault>,
}

/// How a command that did not fail ended.
#[derive(Clone, Copy)]
pub enum Success {
    Clean,
    /// The sector had a burst of wrong bits, and was corrected.
    Corrected,
}

/// What came of a command.
#[derive(Clone, Copy)]
pub struct Outcome {
    /// The turns until BUSY was off.
    pub turns: u16,
    /// The turns that were no steps of the head.
    pub attempts: u16,
    /// Bytes are offered.
    pub offers: bool,
    pub ending: Result<Success, Failure>,
}

/// What came of several commands together: turns, attempts beyond the first of each, and sectors
/// that were corrected or failed.
#[derive(Clone, Copy, Default)]
pub struct Tally {
    pub turns: u32,
    pub retries: u32,
    pub corrected: u32,
    pub failed: u32,
}

impl fmt::Display for Failure {
    fn fmt<W: fmt::Write>(&self, f: &mut fmt::Formatter<W>) -> fmt::Result {
        let error = self.error;
        write!(f, "error {error:02x}h")?;
        let Some(fault) = self.fault else {
            return Ok(());
        };
        let Fault {
            layer,
            error: _,
            cylinder,
            head,
            number,
            attempts,
        } = fault;
        write!(
            f,
            ", layer {layer}, cylinder {cylinder}, head {head}, sector {number}, \
             attempts: {attempts}"
        )
    }
}

impl Outcome {
    /// The outcome of a command that has to succeed; a failure becomes an error that begins with
    /// these words.
    pub fn required(self, heap: Global, words: &str) -> anyhow::Result<Outcome> {
        match self.ending {
            Err(failure) => Err(anyhow!(format!(in heap; "{words}: {failure}")?)),
            Ok(_) => Ok(self),
        }
    }
}

impl Tally {
    /// Counts one command more.
    pub fn count(&mut self, outcome: Outcome) {
        let retries = u32::from(outcome.attempts.saturating_sub(1));
        self.turns = self.turns.saturating_add(u32::from(outcome.turns));
        self.retries = self.retries.saturating_add(retries);
        match outcome.ending {
            Ok(Success::Clean) => {}
            Ok(Success::Corrected) => self.corrected = self.corrected.saturating_add(1),
            Err(_) => self.failed = self.failed.saturating_add(1),
        }
    }
}

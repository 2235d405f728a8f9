//! The state of the controller without its drives.
ghost use Rattle.std.specs.Prelude.{◌≡◌};
ghost use Rattle.task_file.specs.State.{first_read, cleared, fresh, reset, ended, failed};

use super::command::{ReadMode, WriteMode};
use super::failure::Failure;
use super::registers::Registers;
use drive::SectorBuffer;

/// A read under way: the attempts made at its sector so far, and the difference of the one just
/// before, if that was nonzero.
#[derive(Clone, Copy)]
pub struct ReadJob {
    pub mode: ReadMode,
    /// From 0 to 8.
    pub attempts: u8,
    pub previous: Option<u32>,
}

impl ReadJob {
    // A read before its first attempt at a sector.
    pub(super) fn first(mode: ReadMode) -> ReadJob
        ensures { result ≡ first_read mode }
    {
        ReadJob {
            mode,
            attempts: 0,
            previous: None,
        }
    }
}

/// A write under way: the attempts made at its sector so far.
#[derive(Clone, Copy)]
pub struct WriteJob {
    pub mode: WriteMode,
    /// From 0 to 8.
    pub attempts: u8,
}

/// What the controller is busy with.
#[derive(Clone, Copy)]
pub enum Job {
    Test,
    /// The steps made so far.
    Restore(u16),
    Seek,
    Read(ReadJob),
    Write(WriteJob),
    Format,
}

/// What the bytes that the host gives are for.
#[derive(Clone, Copy)]
pub enum Load {
    Sector(WriteMode),
    Track,
}

/// The controller is at rest, busy, or moving bytes one way: then it counts those that have moved.
#[derive(Clone, Copy)]
pub enum Phase {
    Offering(ReadMode, u16),
    Rest,
    Taking(Load, u16),
    Busy(Job),
}

/// Registers, failure, flags, line, phase and buffer.
#[derive(Clone, Copy)]
pub struct State {
    pub registers: Registers,
    /// Why the last command failed, if it did: the error register and the Error bit follow from it.
    pub failure: Option<Failure>,
    /// A sector of the last command was corrected.
    pub corrected: bool,
    /// A Write or Format was aborted on a protected floppy.
    pub protection_note: bool,
    /// The interrupt line.
    pub intrq: bool,
    pub phase: Phase,
    pub buffer: SectorBuffer,
}

impl State {
    /// The state of a controller that is made now: it tests itself.
    pub fn new() -> State
        ensures { result ≡ fresh }
    {
        State {
            registers: Registers::default(),
            failure: None,
            corrected: false,
            protection_note: false,
            intrq: false,
            phase: Phase::Busy(Job::Test),
            buffer: SectorBuffer::zeroed(),
        }
    }

    // Failure, flags and line are cleared, and what was moving is dropped; registers and buffer
    // stay.
    pub(super) fn clear(&mut self)
        ensures { self.new ≡ cleared self.old }
    {
        self.failure = None;
        self.corrected = false;
        self.protection_note = false;
        self.intrq = false;
        self.phase = Phase::Rest;
    }

    /// Registers, failure, flags and line are cleared, and Test begins; only the buffer stays.
    pub fn reset(&mut self)
        ensures { self.new ≡ reset self.old }
    {
        self.clear();
        self.registers = Registers::default();
        self.phase = Phase::Busy(Job::Test);
    }

    /// The command ends.
    pub fn end(&mut self)
        ensures { self.new ≡ ended self.old }
    {
        self.phase = Phase::Rest;
        self.intrq = true;
    }

    /// The command ends with a failure.
    pub fn fail(&mut self, failure: Failure)
        ensures { self.new ≡ failed self.old failure }
    {
        self.failure = Some(failure);
        self.end();
    }
}

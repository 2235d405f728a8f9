//! What the controller sees of the selected drive, and the commands that are aborted for it.
ghost use Rattle.std.specs.Prelude.{◌≡◌, Some};
ghost use Rattle.task_file.specs.Aborting.{is_unusable, unfit_for_floppy, refuses_format, is_hindered, aborts, guards};

use super::command::Command;
use super::registers::Registers;
use super::sdh::Selection;
use check_code::CheckMode;
use drive::{Geometry, MOST_SECTORS};

/// The selected drive, as far as commands and the status depend on it.
#[derive(Clone, Copy)]
pub struct DriveView {
    /// Its bay, and the head on it.
    pub at: Selection,
    pub ready: bool,
    pub protected: bool,
    pub geometry: Geometry,
}

impl DriveView {
    // Whether it is not ready, or a protected Winchester.
    fn is_unusable(self) -> bool
        ensures { result ≡ is_unusable self }
    {
        !self.ready || self.protected && !self.at.bay.is_floppy()
    }

    // Whether it is a floppy, and ECC or L is asked for.
    fn is_unfit(self, command: Command, mode: CheckMode) -> bool
        ensures { result ≡ unfit_for_floppy command mode self }
    {
        self.at.bay.is_floppy() && (mode == CheckMode::Ecc || command.is_long())
    }

    // Whether the head, the count or the room on a track would make the drive refuse a format.
    fn refuses_format(self, registers: Registers) -> bool
        ensures { result ≡ refuses_format registers self }
    {
        let count = registers.sectors() as usize;
        let bytes = count * registers.size().bytes();
        self.at.head >= self.geometry.heads
            || count > MOST_SECTORS
            || bytes > self.geometry.capacity as usize
    }

    /// Whether the command is a Write or Format, and the drive a protected floppy.
    pub fn guards(self, command: Command) -> bool
        ensures { result ≡ guards command self }
    {
        command.writes() && self.at.bay.is_floppy() && self.protected
    }

    // Whether something stands against any command but Test.
    fn hinders(self, command: Command, registers: Registers) -> bool
        ensures { result ≡ is_hindered command registers self }
    {
        self.is_unusable()
            || self.is_unfit(command, registers.mode())
            || registers.cylinder() >= self.geometry.cylinders
            || self.guards(command)
    }

    /// Whether a command for this drive is aborted.
    #[tactic(auto, unfolding(crate::specs::Aborting::aborts))]
    pub fn aborts(self, command: Command, registers: Registers) -> bool
        ensures { result ≡ aborts command registers (Some self) }
    {
        match command {
            Command::Test => false,
            Command::Format => self.hinders(command, registers) || self.refuses_format(registers),
            _ => self.hinders(command, registers),
        }
    }
}

/// Whether a command is aborted: where no drive is selected, each but Test is.
#[tactic(auto, unfolding(crate::specs::Aborting::aborts))]
pub fn aborts(view: Option<DriveView>, command: Command, registers: Registers) -> bool
    ensures { result ≡ aborts command registers view }
{
    match view {
        Some(drive) => drive.aborts(command, registers),
        None => !matches!(command, Command::Test),
    }
}

//! The beginning of a command.
ghost use Rattle.std.specs.Prelude.{◌≡◌};
ghost use Rattle.task_file.specs.Beginning.{first_phase, registers_for, begun};

use super::command::Command;
use super::failure::Failure;
use super::registers::Registers;
use super::state::{Job, Load, Phase, ReadJob, State};
use super::view::{DriveView, aborts};

// The phase that a command begins with, where it is not aborted.
fn first_phase(command: Command) -> Phase
    ensures { result ≡ first_phase command }
{
    match command {
        Command::Test => Phase::Busy(Job::Test),
        Command::Restore => Phase::Busy(Job::Restore(0)),
        Command::Seek => Phase::Busy(Job::Seek),
        Command::Read(mode) => Phase::Busy(Job::Read(ReadJob::first(mode))),
        Command::Write(mode) => Phase::Taking(Load::Sector(mode), 0),
        Command::Format => Phase::Taking(Load::Track, 0),
    }
}

// The registers once a command is accepted: Restore clears both of the cylinder.
fn registers_for(command: Command, registers: Registers) -> Registers
    ensures { result ≡ registers_for command registers }
{
    match command {
        Command::Restore => Registers {
            cylinder_low: 0,
            cylinder_high: 0,
            ..registers
        },
        _ => registers,
    }
}

impl State {
    /// An accepted command: flags, failure and line are cleared, what was moving is dropped, and it
    /// begins or is aborted.
    #[tactic(auto, unfolding(crate::specs::Beginning::begun))]
    pub fn begin(&mut self, command: Command, view: Option<DriveView>)
        ensures { self.new ≡ begun self.old command view }
    {
        self.clear();
        self.registers = registers_for(command, self.registers);
        if aborts(view, command, self.registers) {
            self.protection_note = view.is_some_and(|drive| drive.guards(command));
            self.fail(Failure::Aborted);
        } else {
            self.phase = first_phase(command);
        }
    }
}

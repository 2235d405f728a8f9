//! Turns, and the master reset.
ghost use Rattle.std.specs.Prelude.{◌≡◌};
ghost use Rattle.controller.specs.Turns.{turned, restore_turn, read_act, write_act, format_act, worked};
ghost use Rattle.controller.specs.Model.{after_turn, after_reset};
ghost use Rattle.controller.specs.Controller.{drives_in, model_of};

use super::controller::Controller;
use drive::{Drive, MOST_SECTORS, step_toward};
use task_file::{Failure, Job, Phase, ReadJob, Selection, State, WriteJob, format_ids, zero_check};

// The most steps that Restore makes.
const RESTORE_STEPS: u16 = 1024;

// One step out, unless the head stands at cylinder 0 or has made too many.
fn restore<D: Drive>(state: &mut State, drive: &mut D, steps: u16)
    ensures { turned state.new (D.meaning drive.new)
        ≡ restore_turn state.old steps (D.meaning drive.old) }
{
    if drive.cylinder() == 0 {
        state.end();
    } else if steps < RESTORE_STEPS {
        let _ = drive.step_out();
        state.phase = Phase::Busy(Job::Restore(steps + 1));
    } else {
        state.fail(Failure::TrackZero);
    }
}

// A read attempt.
fn read_sector<D: Drive>(state: &mut State, drive: &mut D, job: ReadJob, at: Selection)
    ensures { turned state.new (D.meaning drive.new)
        ≡ read_act state.old job at (D.meaning drive.old) }
{
    let answer = drive.read(state.registers.address(at), &mut state.buffer);
    state.judge_read(answer, job, at);
}

// A write attempt.
fn write_sector<D: Drive>(state: &mut State, drive: &mut D, job: WriteJob, at: Selection)
    ensures { turned state.new (D.meaning drive.new)
        ≡ write_act state.old job at (D.meaning drive.old) }
{
    let answer = drive.write(state.registers.address(at), &state.buffer);
    state.judge_write(answer, job, at);
}

// A format.
fn format_track<D: Drive>(state: &mut State, drive: &mut D, at: Selection)
    ensures { turned state.new (D.meaning drive.new)
        ≡ format_act state.old at (D.meaning drive.old) }
{
    let count = (state.registers.sectors() as usize).min(MOST_SECTORS);
    let size = state.registers.size();
    let check = zero_check(state.registers.mode(), size);
    let ids = format_ids(&state.buffer.bytes);
    let answer = drive.format(at.head, &ids[..count], size, check);
    state.judge_format(answer);
}

// One turn of a job on the selected drive: one step, or one attempt, or one format.
#[tactic(auto, unfolding(crate::specs::Turns::worked))]
fn work<D: Drive>(state: &mut State, drive: &mut D, job: Job, at: Selection)
    ensures { turned state.new (D.meaning drive.new)
        ≡ worked job state.old at (D.meaning drive.old) }
{
    let cylinder = state.registers.cylinder();
    match job {
        Job::Test => state.end(),
        Job::Restore(steps) => restore(state, drive, steps),
        _ if drive.cylinder() != cylinder => step_toward(drive, cylinder),
        Job::Seek => state.end(),
        Job::Read(read) => read_sector(state, drive, read, at),
        Job::Write(write) => write_sector(state, drive, write, at),
        Job::Format => format_track(state, drive, at),
    }
}

impl<D: Drive> Controller<D> {
    /// One turn: one step, one attempt or one format of the command under way, or its end. At rest
    /// and while bytes move it does nothing.
    pub fn turn(&mut self)
        ensures { model_of D.meaning self.new ≡ after_turn (model_of D.meaning self.old) }
    {
        let Controller { state, drives } = self;
        match (state.phase, state.registers.selection()) {
            (Phase::Busy(job), Some(at)) => work(state, &mut drives[at.bay.index()], job, at),
            (Phase::Busy(Job::Test), None) => state.end(),
            (Phase::Busy(_), None) => state.fail(Failure::Aborted),
            (Phase::Rest | Phase::Offering(_, _) | Phase::Taking(_, _), _) => {}
        }
    }

    /// A master reset: registers, lines and flags are cleared, and Test begins.
    pub fn master_reset(&mut self)
        ensures after { model_of D.meaning self.new ≡ after_reset (model_of D.meaning self.old) }
        ensures drives { drives_in self.new ≡ drives_in self.old }
    {
        self.state.reset();
    }
}

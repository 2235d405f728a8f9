//! What comes of an attempt at a sector, and of a format.
ghost use Rattle.std.specs.Prelude.{◌≡◌};
ghost use Rattle.std.specs.Option.{option_map_or};
ghost use Rattle.sector.specs.Sizes.{bytes_of};
ghost use Rattle.burst.specs.Search.{first_burst};
ghost use Rattle.task_file.specs.Sdh.{size_at, mode_at};
ghost use Rattle.task_file.specs.Attempts.{attempts_with, sector_failure, offering, sector_taken, retried, outcome_of, verdict_of, read_failed, mended_buffer, corrected_by, read_by, read_judged, sector_written, write_judged, zero_check, format_judged};

use super::command::{ReadMode, WriteMode};
use super::failure::{Failure, SectorError, SectorFailure};
use super::registers::Registers;
use super::sdh::Selection;
use super::state::{Job, Load, Phase, ReadJob, State, WriteJob};
use burst::correct_by;
use check_code::CheckMode;
use drive::{FormatError, ReadError, SectorBuffer, WriteError};
use sector::{Burst, SizeCode};

// How often a sector is tried.
const TRIES: u8 = 9;

/// What is done about a read attempt.
#[derive(Clone, Copy)]
pub enum Verdict {
    Take,
    Correct(u32),
    /// Another attempt, with the difference that it is compared with.
    Retry(Option<u32>),
    Fail(SectorError),
    Abort,
}

// The attempts made, with one more; they are never more than nine.
fn attempts_with(attempts: u8) -> u8
    ensures { result ≡ attempts_with attempts }
{
    attempts.min(TRIES - 1) + 1
}

// Another attempt, or after the ninth the failure.
fn retried(attempts: u8, previous: Option<u32>, error: SectorError) -> Verdict
    ensures { result ≡ retried attempts previous error }
{
    if attempts < TRIES - 1 {
        Verdict::Retry(previous)
    } else {
        Verdict::Fail(error)
    }
}

// Judges what an attempt showed, by the attempts made before it and the difference of the one just
// before. What was delivered shows a difference, unless it is not judged.
fn verdict_on(
    mode: CheckMode,
    attempts: u8,
    previous: Option<u32>,
    outcome: Result<Option<u32>, ReadError>,
) -> Verdict
    ensures { result ≡ verdict_of mode attempts previous outcome }
{
    match outcome {
        Err(ReadError::NotReady) => Verdict::Abort,
        Err(ReadError::NoId) => retried(attempts, None, SectorError::IdNotFound),
        Err(ReadError::BadBlock) => Verdict::Fail(SectorError::BadBlock),
        Err(ReadError::NoDataMark) => retried(attempts, None, SectorError::NoDataMark),
        Ok(None | Some(0)) => Verdict::Take,
        Ok(Some(difference)) if mode == CheckMode::Ecc && previous == Some(difference) => {
            Verdict::Correct(difference)
        }
        Ok(Some(difference)) => retried(attempts, Some(difference), SectorError::Data),
    }
}

// A failure at the sector that the registers name.
fn failure_at(registers: Registers, at: Selection, attempts: u8, error: SectorError) -> Failure
    ensures { result ≡ sector_failure registers at attempts error }
{
    Failure::Sector(SectorFailure {
        error,
        place: registers.place(at),
        attempts: attempts_with(attempts),
    })
}

// What an attempt showed, by its answer and what it left in the buffer: where L is 1 it is not
// judged.
fn outcome_of(
    answer: Result<(), ReadError>,
    long: bool,
    mode: CheckMode,
    size: SizeCode,
    buffer: &SectorBuffer,
) -> Result<Option<u32>, ReadError>
    ensures { result ≡ outcome_of answer long mode size buffer.now }
{
    answer?;
    if long {
        return Ok(None);
    }
    Ok(Some(mode.difference(buffer.sector(size), buffer.check)))
}

// Corrects the sector's bytes by their difference, and answers the burst that has it, if one does.
fn correct_buffer(buffer: &mut SectorBuffer, size: SizeCode, difference: u32) -> Option<Burst>
    ensures answer { result ≡ first_burst size difference }
    ensures after { buffer.new
        ≡ option_map_or (λ b. mended_buffer (bytes_of size) b buffer.old) result buffer.old }
{
    correct_by(&mut buffer.bytes[..size.bytes()], size, difference)
}

impl State {
    // Offers the buffer; the interrupt comes with the last sector's data request unless D is 1.
    fn offer(&mut self, mode: ReadMode, last: bool)
        ensures { self.new ≡ offering self.old mode last }
    {
        if last && !mode.dma {
            self.intrq = true;
        }
        self.phase = Phase::Offering(mode, 0);
    }

    // Takes the sector in the buffer.
    fn take_sector(&mut self, mode: ReadMode)
        ensures { self.new ≡ sector_taken self.old mode }
    {
        if mode.multiple {
            self.registers.advance();
            let last = self.registers.count == 0;
            self.offer(mode, last);
        } else {
            self.offer(mode, true);
        }
    }

    // A read that failed.
    fn fail_read(&mut self, mode: ReadMode, failure: Failure)
        ensures { self.new ≡ read_failed self.old mode failure }
    {
        if mode.multiple {
            self.fail(failure);
        } else {
            self.failure = Some(failure);
            self.buffer = SectorBuffer::zeroed();
            self.offer(mode, true);
        }
    }

    // Corrects the sector in the buffer by its difference, or fails where no burst has it.
    fn correct(&mut self, difference: u32, mode: ReadMode, failure: Failure)
        ensures { self.new ≡ corrected_by
            (first_burst (size_at self.old.registers.sdh) difference) self.old mode failure }
    {
        let size = self.registers.size();
        match correct_buffer(&mut self.buffer, size, difference) {
            Some(_) => {
                self.corrected = true;
                self.take_sector(mode);
            }
            None => self.fail_read(mode, failure),
        }
    }

    // Does what a verdict says, at the selected drive.
    fn follow(&mut self, verdict: Verdict, job: ReadJob, at: Selection)
        ensures { self.new ≡ read_by verdict self.old job at }
    {
        let registers = self.registers;
        match verdict {
            Verdict::Take => self.take_sector(job.mode),
            Verdict::Correct(difference) => {
                let failure = failure_at(registers, at, job.attempts, SectorError::Data);
                self.correct(difference, job.mode, failure);
            }
            Verdict::Retry(previous) => {
                self.phase = Phase::Busy(Job::Read(ReadJob {
                    attempts: attempts_with(job.attempts),
                    previous,
                    ..job
                }));
            }
            Verdict::Fail(error) => {
                self.fail_read(job.mode, failure_at(registers, at, job.attempts, error));
            }
            Verdict::Abort => self.fail(Failure::Aborted),
        }
    }

    /// Judges a read attempt by its answer and what it delivered into the buffer.
    #[tactic(auto, unfolding(crate::specs::Attempts::read_judged))]
    pub fn judge_read(&mut self, answer: Result<(), ReadError>, job: ReadJob, at: Selection)
        ensures { self.new ≡ read_judged answer self.old job at }
    {
        let mode = self.registers.mode();
        let size = self.registers.size();
        let outcome = outcome_of(answer, job.mode.long, mode, size, &self.buffer);
        let verdict = verdict_on(mode, job.attempts, job.previous, outcome);
        self.follow(verdict, job, at);
    }

    // The sector is written: the next one is asked for, or the write ends.
    fn finish_sector(&mut self, mode: WriteMode)
        ensures { self.new ≡ sector_written self.old mode }
    {
        if mode.multiple {
            self.registers.advance();
            if self.registers.count != 0 {
                self.phase = Phase::Taking(Load::Sector(mode), 0);
                return;
            }
        }
        self.end();
    }

    /// Judges a write attempt by its answer.
    pub fn judge_write(&mut self, answer: Result<(), WriteError>, job: WriteJob, at: Selection)
        ensures { self.new ≡ write_judged answer self.old job at }
    {
        let registers = self.registers;
        match answer {
            Ok(()) => self.finish_sector(job.mode),
            Err(WriteError::NotReady | WriteError::Protected) => self.fail(Failure::Aborted),
            Err(WriteError::NoId) if job.attempts < TRIES - 1 => {
                self.phase = Phase::Busy(Job::Write(WriteJob {
                    attempts: attempts_with(job.attempts),
                    ..job
                }));
            }
            Err(WriteError::NoId) => {
                self.fail(failure_at(registers, at, job.attempts, SectorError::IdNotFound));
            }
            Err(WriteError::BadBlock) => {
                self.fail(failure_at(registers, at, job.attempts, SectorError::BadBlock));
            }
        }
    }

    /// Judges a format by its answer.
    pub fn judge_format(&mut self, answer: Result<(), FormatError>)
        ensures { self.new ≡ format_judged answer self.old }
    {
        match answer {
            Ok(()) => {
                self.registers.count = 0;
                self.end();
            }
            Err(_) => self.fail(Failure::Aborted),
        }
    }
}

/// The check bytes of a sector of zeros.
pub fn zero_check(mode: CheckMode, size: SizeCode) -> [u8; 4]
    ensures { result ≡ zero_check mode size }
{
    mode.bytes_for(SectorBuffer::zeroed().sector(size))
}

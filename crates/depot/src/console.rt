//! The console: the host of a controller, which it reaches by the eight registers alone.
use super::outcome::{Failure, Outcome, Success};
use super::registers::{Order, Status, read, sdh, write};
use anyhow::anyhow;
use controller::{Answer, Call, Controller, Lines, make_call};
use drive::{Drive, Place, SectorId};
use histories::finish;
use records::{Grid, RECORD};
use round_trip::run;
use std::alloc::Global;
use task_file::{Register, format_pair};

/// A console with its controller. It knows where records lie on the Winchester, and remembers the
/// cylinder that it sent the head to.
#[derive(Drop)]
pub struct Console<D: Drive> {
    controller: Controller<D>,
    heap: Global,
    grid: Grid,
    cylinder: u16,
}

/// What came of reading a record, and the bytes that were drawn.
#[derive(Drop)]
pub struct Record {
    pub outcome: Outcome,
    pub bytes: Vec<u8>,
}

// The bytes of a format: a pair for each of so many good sectors, numbered from 0, then zeros.
fn format_bytes(sectors: u8) -> [u8; RECORD] {
    let mut bytes = [0u8; RECORD];
    for (number, pair) in (0..sectors).zip(bytes.chunks_exact_mut(2)) {
        pair.copy_from_slice(&format_pair(SectorId { number, bad: false }));
    }
    bytes
}

impl<D: Drive> Console<D> {
    /// A console before a controller that was just made.
    pub fn new(controller: Controller<D>, heap: Global, grid: Grid) -> Console<D> {
        Console {
            controller,
            heap,
            grid,
            cylinder: 0,
        }
    }

    /// Where records lie on the Winchester.
    pub fn grid(&self) -> Grid {
        self.grid
    }

    // Makes calls, and hands back their answers; one that is refused is an error, told by its
    // number and in words.
    fn run(&mut self, calls: &[Call]) -> anyhow::Result<Vec<Answer>> {
        let answers = run(&mut self.controller, self.heap, calls)?;
        for answer in answers.iter() {
            if let Err(why) = answer {
                let number = u8::from(*why);
                return Err(anyhow!(format!(in self.heap; "access refused: {number}, {why}")?));
            }
        }
        Ok(answers)
    }

    // Reads a register.
    fn read(&mut self, register: Register) -> anyhow::Result<u8> {
        match make_call(&mut self.controller, read(register)) {
            Ok(Some(byte)) => Ok(byte),
            _ => Err(anyhow!("a register could not be read")),
        }
    }

    // Names a sector, and gives a command for it.
    fn command(&mut self, place: Place, order: Order) -> anyhow::Result<()> {
        let [high, low] = place.cylinder.to_be_bytes();
        let calls = [
            write(Register::Number, place.number),
            write(Register::CylinderLow, low),
            write(Register::CylinderHigh, high),
            write(Register::Sdh, sdh(place.head)),
            write(Register::Status, u8::from(order)),
        ];
        self.run(&calls)?;
        Ok(())
    }

    // Gives bytes through the data register.
    fn give(&mut self, bytes: &[u8]) -> anyhow::Result<()> {
        let mut calls = Vec::with_capacity(self.heap, bytes.len())?;
        for byte in bytes {
            calls.push(write(Register::Data, *byte))?;
        }
        self.run(&calls)?;
        Ok(())
    }

    // Draws bytes through the data register.
    fn draw(&mut self, count: usize) -> anyhow::Result<Vec<u8>> {
        let calls = vec![in self.heap; read(Register::Data); count]?;
        let answers = self.run(&calls)?;
        let mut bytes = Vec::with_capacity(self.heap, answers.len())?;
        for answer in answers.iter() {
            if let Ok(Some(byte)) = answer {
                bytes.push(*byte)?;
            }
        }
        Ok(bytes)
    }

    // How the last command ended, by its status and the error register.
    fn ending(&mut self, status: Status) -> anyhow::Result<Result<Success, Failure>> {
        if status.is_error() {
            return Ok(Err(Failure {
                error: self.read(Register::Error)?,
                fault: self.controller.last_fault(),
            }));
        }
        if status.is_corrected() {
            return Ok(Ok(Success::Corrected));
        }
        Ok(Ok(Success::Clean))
    }

    // Turns the controller until BUSY is off, and reads the status, which takes the interrupt back.
    // The head stands at this cylinder then.
    fn wait(&mut self, cylinder: u16) -> anyhow::Result<Outcome> {
        let turns = finish(&mut self.controller);
        let steps = self.cylinder.abs_diff(cylinder);
        self.cylinder = cylinder;
        let status = Status(self.read(Register::Status)?);
        Ok(Outcome {
            turns,
            attempts: turns.saturating_sub(steps),
            offers: status.is_request(),
            ending: self.ending(status)?,
        })
    }

    /// Waits for the test that every controller begins with.
    pub fn test(&mut self) -> anyhow::Result<Outcome> {
        self.wait(0)
    }

    /// Moves the head to cylinder 0. It may be given while bytes are still offered, and drops them.
    pub fn restore(&mut self) -> anyhow::Result<Outcome> {
        self.run(&[write(Register::Status, u8::from(Order::Restore))])?;
        self.wait(0)
    }

    /// Formats the track of a place with so many good sectors, numbered from 0.
    pub fn format_track(&mut self, place: Place, sectors: u8) -> anyhow::Result<Outcome> {
        self.run(&[write(Register::Count, sectors)])?;
        self.command(place, Order::Format)?;
        self.give(&format_bytes(sectors))?;
        self.wait(place.cylinder)
    }

    /// Writes a record.
    pub fn write_record(&mut self, place: Place, bytes: &[u8; RECORD]) -> anyhow::Result<Outcome> {
        self.command(place, Order::Write)?;
        self.give(bytes)?;
        self.wait(place.cylinder)
    }

    /// Reads a record. Where its command was aborted no byte is offered, and none is drawn.
    pub fn read_record(&mut self, place: Place) -> anyhow::Result<Record> {
        self.command(place, Order::Read)?;
        let outcome = self.wait(place.cylinder)?;
        let count = if outcome.offers { RECORD } else { 0 };
        let bytes = self.draw(count)?;
        Ok(Record { outcome, bytes })
    }

    /// Begins to read a record, draws so many of its bytes, and leaves the others and the
    /// interrupt; tells the lines.
    pub fn leave_read(&mut self, place: Place, count: usize) -> anyhow::Result<Lines> {
        self.command(place, Order::Read)?;
        finish(&mut self.controller);
        self.cylinder = place.cylinder;
        self.draw(count)?;
        Ok(self.controller.lines())
    }
}

//! What the tests of the controller share: boards, and scripts whose steps are taken on them.
use super::bytes::*;
use check_code::{Crc, check_bytes};
use controller::{Answer, Call, Controller, Lines, make_call};
use drive::{Drive, EmptyBay, Geometry, Place};
use either::Either;
use fault_table::{FaultEntry, FaultKind, FaultTable};
use histories::finish;
use image::{FloppyImage, WinchesterImage, blank_memory, fitted};
use sector::Burst;
use std::alloc::Global;
use std::fmt;
use std::process::Abort;
use std::test::Fail;
use task_file::Fault;

/// A fault by its numbers: layer, error, cylinder, head, sector number and count of attempts.
pub type FaultNumbers = (u8, u8, u16, u8, u8, u8);

/// One step of a script: what the host does, and what it must see. Registers, refusals and commands
/// stand by number, as the host has them.
#[derive(Clone, Copy)]
pub enum Step {
    /// The register of this number gives this byte.
    Read(u8, u8),
    /// The register of this number takes this byte.
    Write(u8, u8),
    /// A read of the register of this number is refused, by the refusal of this number.
    NoRead(u8, u8),
    /// A write of this byte to the register of this number is refused, by the refusal of this
    /// number.
    NoWrite(u8, u8, u8),
    /// Registers 2 to 6 give these bytes.
    Registers([u8; 5]),
    /// The data register gives this byte, so many times.
    Draw(u8, u16),
    /// The data register takes this byte, so many times.
    Give(u8, u16),
    /// This command is given, and BUSY goes off after so many turns.
    Run(u8, u16),
    /// One turn.
    Turn,
    /// BUSY goes off after so many turns.
    Turns(u16),
    /// A master reset.
    Reset,
    /// A master reset, and its Test on a ready drive.
    ResetAndTest,
    /// Each access that is refused in a phase, where a write has this byte, is refused, and leaves
    /// the lines as they were.
    Refused(u8, Refusals),
    /// DRQ and INTRQ are on or off.
    Lines(bool, bool),
    /// The status is this byte, and DRQ its DATA_REQUEST; INTRQ is on or off before it is read, and
    /// off after that.
    Status(u8, bool),
    /// The last fault, if there is one, has these numbers.
    Fault(Option<FaultNumbers>),
    /// After a master reset, each command of a row of COMMANDS that is given with this SDH, count
    /// and cylinder leaves the status of that row: BUSY where it runs, one with DATA_REQUEST where
    /// it takes bytes, and one with FAILED where it is aborted.
    Statuses(u8, u8, u16, [u8; 8]),
}

/// By which refusal reads and writes of the data register, of registers 1 to 6 and of register 7
/// are refused, or 0 where they are not; those of BEYOND always are.
pub type Refusals = ([u8; 3], [u8; 3]);

/// Test, Restore, Seek, Read, Write, Format, and Read and Write with L = 1.
pub const COMMANDS: [&[u8]; 8] = [
    &[TEST],
    &[RESTORE, RESTORE_LAST],
    &[SEEK, SEEK_LAST],
    &[READ, READ + MULTIPLE, READ + DMA, READ + DMA + MULTIPLE],
    &[WRITE, WRITE + MULTIPLE],
    &[FORMAT],
    &[
        READ + LONG,
        READ + MULTIPLE + LONG,
        READ + DMA + LONG,
        READ + DMA + MULTIPLE + LONG,
    ],
    &[WRITE + LONG, WRITE + MULTIPLE + LONG],
];

/// What an aborted command leaves as the last fault.
pub const ABORTION: FaultNumbers = (CONTROLLER, ABORTED, 0, 0, 0, 0);

/// A script: its name, whether the drives are protected, and its steps.
pub type Script<'a> = (&'a str, bool, &'a [Step]);

/// An image, or the bay without a drive that is left where it is refused.
pub type Fitted<I> = Either<I, EmptyBay>;

/// What a bay has: a Winchester image under faults, or a floppy image.
pub type Unit = Either<FaultTable<Fitted<WinchesterImage>>, Fitted<FloppyImage>>;

/// A controller over a Winchester and a floppy.
pub type Board = Controller<Unit>;

/// Where a track record has its check bytes, and its sectors' bytes.
pub const CHECKS: usize = 130;

pub const SECTORS: usize = 386;

// Sector memory for an image of these measures, whose first track has sectors 255, 0, 1, 2, 3, 4, 5
// and 6 of 128 zeros; 2 is marked bad.
fn memory(rt: &impl Abort, heap: Global, geometry: Geometry) -> Result<Vec<u8>, Fail> {
    let mut memory = blank_memory(heap, geometry)?;
    assert!(rt; memory.len() >= SECTORS);
    memory[0..2].copy_from_slice(&[8, 3]);
    memory[2..18].copy_from_slice(&[255, 0, 0, 0, 1, 0, 2, 0x80, 3, 0, 4, 0, 5, 0, 6, 0]);
    let zeros = check_bytes::<Crc>(&[0; 128]);
    for check in memory[CHECKS..CHECKS + 32].chunks_mut(4) {
        check.copy_from_slice(&zeros);
    }
    Ok(memory)
}

// The faults of the Winchester: cylinder, head, sector number, kind, the first of five wrong bits,
// and attempts. Those at cylinder 1 are for tracks under ECC.
const FLAWS: [(u16, u8, u8, FaultKind, u16, u16); 18] = [
    (0, 0, 3, FaultKind::NoId, 0, 8),
    (0, 0, 4, FaultKind::WrongBits, 40, 9),
    (0, 0, 5, FaultKind::NoDataMark, 0, 9),
    (0, 0, 6, FaultKind::WrongBits, 40, 8),
    (1, 0, 255, FaultKind::WrongBits, 40, 2),
    (1, 1, 1, FaultKind::WrongBits, 1022, 2),
    (1, 1, 2, FaultKind::WrongBits, 0, 1),
    (1, 1, 2, FaultKind::WrongBits, 8, 1),
    (1, 1, 2, FaultKind::WrongBits, 0, 1),
    (1, 1, 2, FaultKind::WrongBits, 8, 1),
    (1, 1, 2, FaultKind::WrongBits, 0, 1),
    (1, 1, 2, FaultKind::WrongBits, 8, 1),
    (1, 1, 2, FaultKind::WrongBits, 0, 1),
    (1, 1, 2, FaultKind::WrongBits, 8, 1),
    (1, 1, 2, FaultKind::WrongBits, 0, 1),
    (1, 1, 3, FaultKind::WrongBits, 0, 1),
    (1, 1, 3, FaultKind::NoId, 0, 1),
    (1, 1, 3, FaultKind::WrongBits, 0, 2),
];

/// The measures of the Winchester.
pub const WINCHESTER: Geometry = Geometry {
    cylinders: 3,
    heads: 2,
    capacity: 32768,
};

/// The measures of the floppy.
pub const FLOPPY: Geometry = Geometry {
    cylinders: 2,
    heads: 1,
    capacity: 1024,
};

/// A board that is made now: a Winchester under the faults of FLAWS, and a floppy.
pub fn board(rt: &impl Abort, heap: Global, protected: bool) -> Result<Board, Fail> {
    let large = memory(rt, heap, WINCHESTER)?;
    let small = memory(rt, heap, FLOPPY)?;
    let winchester = fitted(WinchesterImage::new(WINCHESTER, protected, large));
    let floppy = fitted(FloppyImage::new(FLOPPY, protected, small));
    let flaws = FLAWS.map(|(cylinder, head, number, kind, first, attempts)| FaultEntry {
        place: Place {
            cylinder,
            head,
            number,
        },
        kind,
        burst: Burst { first, pattern: 31 },
        attempts,
    });
    let mut table = FaultTable::over(winchester);
    assert_eq!(rt; table.add_all(&flaws), FLAWS.len());
    Ok(Controller::new([Either::Left(table), Either::Right(floppy)]))
}

/// A controller that is made now, without drives.
pub fn empty_board(heap: Global) -> Controller<EmptyBay> {
    let empty = || EmptyBay::new(Vec::new(heap));
    Controller::new([empty(), empty()])
}

// Where a test stands: its script, and the number of the step that is taken.
#[derive(Clone, Copy, Default)]
struct Spot<'a> {
    script: &'a str,
    step: usize,
}

impl fmt::Display for Spot<'_> {
    fn fmt<W: fmt::Write>(&self, f: &mut fmt::Formatter<W>) -> fmt::Result {
        write!(f, "{}, step {}", self.script, self.step)
    }
}

/// A board on which scripts are played, the handle that ends a test that fails, and where the test
/// stands.
#[derive(Drop)]
pub struct Bench<'a, R: Abort, D: Drive> {
    rt: &'a R,
    board: Controller<D>,
    at: Spot<'a>,
}

impl<'a, R: Abort, D: Drive> Bench<'a, R, D> {
    /// A bench with this board on it.
    pub fn new(rt: &'a R, board: Controller<D>) -> Bench<'a, R, D> {
        let at = Spot::default();
        Bench { rt, board, at }
    }

    /// The board, as it is now.
    pub fn into_board(self) -> Controller<D> {
        self.board
    }

    /// Takes the steps of a script, one after another.
    pub fn play(&mut self, script: &'a str, steps: &[Step]) {
        for (step, taken) in steps.iter().enumerate() {
            self.at = Spot { script, step };
            self.take(*taken);
        }
    }

    // Makes a call, and has this answer.
    fn call(&mut self, call: Call, answer: Answer) {
        assert_eq!(self.rt; make_call(&mut self.board, call), answer, "{}", self.at);
    }

    // Makes a call so many times, and has this answer each time.
    fn call_often(&mut self, call: Call, answer: Answer, times: u16) {
        for _ in 0..times {
            self.call(call, answer);
        }
    }

    // Makes a call that is refused, by the refusal of this number.
    fn refused(&mut self, call: Call, why: u8) {
        let answer = make_call(&mut self.board, call).map_err(u8::from);
        assert_eq!(self.rt; answer, Err(why), "{}", self.at);
    }

    // Makes each of these accesses that is refused; a write has this byte.
    fn refusals(&mut self, byte: u8, (reads, writes): Refusals) {
        let lines = self.board.lines();
        for number in DATA..=BEYOND {
            let why = |[data, kept, last]: [u8; 3]| match number {
                DATA => data,
                STATUS => last,
                BEYOND => NO_REGISTER,
                _ => kept,
            };
            if why(reads) != 0 {
                self.refused(Call::Read(number), why(reads));
            }
            if why(writes) != 0 {
                self.refused(Call::Write(number, byte), why(writes));
            }
        }
        assert_eq!(self.rt; self.board.lines(), lines, "{}", self.at);
    }

    // Reads registers 2 to 6.
    fn read_registers(&mut self, bytes: [u8; 5]) {
        for (number, byte) in (COUNT..=SDH).zip(bytes) {
            self.call(Call::Read(number), Ok(Some(byte)));
        }
    }

    // Turns until BUSY is off.
    fn turns(&mut self, count: u16) {
        assert_eq!(self.rt; finish(&mut self.board), count, "{}", self.at);
    }

    // Looks at the lines.
    fn lines(&self, drq: bool, intrq: bool) {
        assert_eq!(self.rt; self.board.lines(), Lines { drq, intrq }, "{}", self.at);
    }

    // Looks at the lines, and reads the status.
    fn read_status(&mut self, byte: u8, intrq: bool) {
        let drq = byte & DATA_REQUEST != 0;
        self.lines(drq, intrq);
        self.call(Call::Read(STATUS), Ok(Some(byte)));
        self.lines(drq, false);
    }

    // Resets the board, and sees Test through.
    fn reset_and_test(&mut self) {
        self.call(Call::Reset, Ok(None));
        self.read_status(BUSY, false);
        self.turns(1);
        self.read_status(READY, true);
    }

    // Looks at the last fault.
    fn last_fault(&self, fault: Option<FaultNumbers>) {
        let numbers = |of: Fault| {
            (
                of.layer,
                of.error,
                of.cylinder,
                of.head,
                of.number,
                of.attempts,
            )
        };
        assert_eq!(self.rt; self.board.last_fault().map(numbers), fault, "{}", self.at);
    }

    // Gives a command.
    fn give(&mut self, command: u8) {
        self.call(Call::Write(COMMAND, command), Ok(None));
    }

    // Resets the board, and gives a command with these registers.
    fn give_anew(&mut self, registers: [u8; 5], command: u8) {
        self.board.master_reset();
        self.board.turn();
        for (number, byte) in (COUNT..=SDH).zip(registers) {
            self.call(Call::Write(number, byte), Ok(None));
        }
        self.give(command);
    }

    // What shows after a command that left these registers and this status.
    fn has_left(&mut self, registers: [u8; 5], status: u8) {
        let aborted = status & FAILED != 0;
        self.last_fault(aborted.then_some(ABORTION));
        if status != BUSY {
            let error = if aborted { ABORTED } else { 0 };
            self.call(Call::Read(ERROR), Ok(Some(error)));
            self.read_registers(registers);
        }
        self.read_status(status, aborted);
    }

    // Gives a command with this SDH, count and cylinder, which leaves this status; Restore alone
    // changes registers.
    fn leave_status(&mut self, command: u8, sdh: u8, count: u8, cylinder: u16, status: u8) {
        let [high, low] = cylinder.to_be_bytes();
        self.give_anew([count, 9, low, high, sdh], command);
        let left = match command {
            RESTORE..=RESTORE_LAST => [count, 9, 0, 0, sdh],
            _ => [count, 9, low, high, sdh],
        };
        self.has_left(left, status);
    }

    // Gives each of COMMANDS with this SDH, count and cylinder.
    fn leave_statuses(&mut self, sdh: u8, count: u8, cylinder: u16, statuses: [u8; 8]) {
        for (commands, status) in COMMANDS.into_iter().zip(statuses) {
            for command in commands {
                self.leave_status(*command, sdh, count, cylinder, status);
            }
        }
    }

    // Takes one step.
    fn take(&mut self, step: Step) {
        match step {
            Step::Read(number, byte) => self.call(Call::Read(number), Ok(Some(byte))),
            Step::Write(number, byte) => self.call(Call::Write(number, byte), Ok(None)),
            Step::NoRead(number, why) => self.refused(Call::Read(number), why),
            Step::NoWrite(number, byte, why) => self.refused(Call::Write(number, byte), why),
            Step::Registers(bytes) => self.read_registers(bytes),
            Step::Draw(byte, times) => self.call_often(Call::Read(DATA), Ok(Some(byte)), times),
            Step::Give(byte, times) => self.call_often(Call::Write(DATA, byte), Ok(None), times),
            Step::Run(command, count) => {
                self.give(command);
                self.turns(count);
            }
            Step::Turn => self.call(Call::Turn, Ok(None)),
            Step::Turns(count) => self.turns(count),
            Step::Reset => self.call(Call::Reset, Ok(None)),
            Step::ResetAndTest => self.reset_and_test(),
            Step::Refused(byte, refusals) => self.refusals(byte, refusals),
            Step::Lines(drq, intrq) => self.lines(drq, intrq),
            Step::Status(byte, intrq) => self.read_status(byte, intrq),
            Step::Fault(fault) => self.last_fault(fault),
            Step::Statuses(sdh, count, cylinder, statuses) => {
                self.leave_statuses(sdh, count, cylinder, statuses);
            }
        }
    }
}

/// Plays each script on a board of its own, with the faults of FLAWS.
pub fn play_each(rt: &impl Abort, heap: Global, scripts: &[Script]) -> Result<(), Fail> {
    for (name, protected, steps) in scripts {
        Bench::new(rt, board(rt, heap, *protected)?).play(name, steps);
    }
    Ok(())
}

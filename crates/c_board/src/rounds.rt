//! A host's rounds at a controller, which are timed: sectors read and written through the
//! registers, and refused accesses.
#![tactic(auto, using(crate::proofs::Heard::steps))]

ghost use Rattle.std.specs.Prelude.{◌≡◌, [], ◌∷◌};
ghost use Rattle.controller.specs.Controller.{model_of};
ghost use Rattle.controller.specs.Model.{read_answered, after_register_read, write_answered, after_register_write};
ghost use Rattle.controller.specs.Runs.{write_as};
ghost use Rattle.c_board.specs.Rounds.{number_in, Hears, sector_read, sector_written, refused, round_of, rounds_of};

use controller::{Call, Controller, Refusal};
use drive::Drive;
use task_file::Register::{Count, Data, Number, Status};
use task_file::{Command, ReadMode, WriteMode};

// The two commands of the host, the bytes of a sector, and a register and a command that there is
// not.
const READ: Command = Command::Read(ReadMode {
    dma: false,
    multiple: false,
    long: false,
});

const WRITE: Command = Command::Write(WriteMode {
    multiple: false,
    long: false,
});

const SECTOR: u32 = 512;

const NO_REGISTER: u8 = 8;

const NO_COMMAND: u8 = 0xff;

/// So many rounds, as C gives them.
#[repr(C)]
#[derive(Clone, Copy)]
pub struct PlainRounds {
    /// 0 reads a sector, 1 writes one, and any other makes five accesses that are refused.
    pub kind: u8,
    /// The turns that a read takes.
    pub turns: u8,
    pub count: u32,
}

// A register read as a bus makes it, by a call of its own.
#[inline(never)]
fn access_read<D: Drive>(controller: &mut Controller<D>, number: u8) -> Result<u8, Refusal>
    ensures answer { result ≡ read_answered (model_of D.meaning controller.old) number }
    ensures after { model_of D.meaning controller.new
        ≡ after_register_read (model_of D.meaning controller.old) number }
{
    controller.read_register(number)
}

// A register write, likewise: 0 where it is done, or the number of the refusal.
#[inline(never)]
fn access_write<D: Drive>(controller: &mut Controller<D>, number: u8, byte: u8) -> u8
    ensures answer { result ≡ number_in
        (write_as (write_answered (model_of D.meaning controller.old) number byte)) }
    ensures after { model_of D.meaning controller.new
        ≡ after_register_write (model_of D.meaning controller.old) number byte }
{
    match controller.write_register(number, byte) {
        Ok(()) => 0,
        Err(why) => u8::from(why),
    }
}

// Makes a call, and adds the number of its answer to the sum.
#[inline(always)]
fn hear<D: Drive>(controller: &mut Controller<D>, call: Call, sum: u32) -> u32
    ensures { Hears (model_of D.meaning controller.old) sum (call ∷ [])
        (model_of D.meaning controller.new) result }
{
    let number = match call {
        Call::Write(number, byte) => access_write(controller, number, byte),
        Call::Read(number) => access_read(controller, number).unwrap_or_else(u8::from),
        Call::Turn => {
            controller.turn();
            0
        }
        Call::Reset => {
            controller.master_reset();
            0
        }
    };
    sum.wrapping_mul(31).wrapping_add(u32::from(number))
}

// Reads a sector by its number, with so many turns.
fn read_sector<D: Drive>(controller: &mut Controller<D>, turns: u8, number: u8, start: u32) -> u32
    ensures { Hears (model_of D.meaning controller.old) start (sector_read turns number)
        (model_of D.meaning controller.new) result }
{
    let named = hear(controller, Call::Write(u8::from(Number), number), start);
    let mut sum = hear(
        controller,
        Call::Write(u8::from(Status), u8::from(READ)),
        named,
    );
    for _turn in 0..turns {
        sum = hear(controller, Call::Turn, sum);
    }
    sum = hear(controller, Call::Read(u8::from(Status)), sum);
    for _at in 0..SECTOR {
        sum = hear(controller, Call::Read(u8::from(Data)), sum);
    }
    sum
}

// Writes a sector by its number, with one turn: by a call of its own, so that how fast its loop is
// hangs on no other code's length.
#[tactic(auto, using(crate::proofs::Heard::steps), unfolding(crate::specs::Rounds::byte_given))]
#[inline(never)]
fn write_sector<D: Drive>(controller: &mut Controller<D>, number: u8, start: u32) -> u32
    ensures { Hears (model_of D.meaning controller.old) start (sector_written number)
        (model_of D.meaning controller.new) result }
{
    let named = hear(controller, Call::Write(u8::from(Number), number), start);
    let mut sum = hear(
        controller,
        Call::Write(u8::from(Status), u8::from(WRITE)),
        named,
    );
    for at in 0..SECTOR {
        let byte = ((at % 256) as u8).wrapping_add(number);
        sum = hear(controller, Call::Write(u8::from(Data), byte), sum);
    }
    sum = hear(controller, Call::Turn, sum);
    hear(controller, Call::Read(u8::from(Status)), sum)
}

// Five accesses that are refused while BUSY is on or bytes are offered.
fn refuse<D: Drive>(controller: &mut Controller<D>, start: u32) -> u32
    ensures { Hears (model_of D.meaning controller.old) start refused
        (model_of D.meaning controller.new) result }
{
    let mut sum = hear(controller, Call::Read(NO_REGISTER), start);
    sum = hear(controller, Call::Write(NO_REGISTER, 1), sum);
    sum = hear(controller, Call::Write(u8::from(Data), 1), sum);
    sum = hear(controller, Call::Write(u8::from(Count), 1), sum);
    hear(controller, Call::Write(u8::from(Status), NO_COMMAND), sum)
}

/// Makes the rounds, and sums up all answers.
#[tactic(auto, using(crate::proofs::Heard::steps), unfolding(crate::specs::Rounds::rounds_of))]
pub fn rounds<D: Drive>(controller: &mut Controller<D>, asked: PlainRounds) -> u32
    ensures { Hears (model_of D.meaning controller.old) 0 (rounds_of asked)
        (model_of D.meaning controller.new) result }
{
    let mut sum = 0;
    for at in 0..asked.count {
        let number = (at % 8) as u8;
        sum = match asked.kind {
            0 => read_sector(controller, asked.turns, number, sum),
            1 => write_sector(controller, number, sum),
            _ => refuse(controller, sum),
        };
    }
    sum
}

//! Accesses to the registers: which are refused, by which refusal, and that a refused one changes
//! nothing.
use super::bench::{ABORTION, Bench, COMMANDS, Refusals, Step, empty_board, play_each};
use super::bytes::*;
use std::test::Fail;

// By which refusal accesses are refused in each phase, or 0 where they are not.
const RESTING: Refusals = ([NO_REQUEST, 0, 0], [NO_REQUEST, 0, NO_COMMAND]);

const WORKING: Refusals = ([IS_BUSY, IS_BUSY, 0], [IS_BUSY; 3]);

const OFFERING: Refusals = ([0; 3], [NO_REQUEST, OPEN_REQUEST, NO_COMMAND]);

const TAKING: Refusals = ([NO_REQUEST, 0, 0], [0, OPEN_REQUEST, NO_COMMAND]);

// Each command in each of its phases, and what is refused there.
const PHASES: &[Step] = &[
    // the Test of a controller that is made now, and another
    Step::Refused(UNKNOWN, WORKING),
    Step::Turns(1),
    Step::Refused(UNKNOWN, RESTING),
    Step::Status(READY, true),
    Step::Write(COMMAND, TEST),
    Step::Refused(UNKNOWN, WORKING),
    Step::Turns(1),
    Step::Refused(UNKNOWN, RESTING),
    Step::Status(READY, true),
    // Seek, and one that is aborted
    Step::Write(CYLINDER_LOW, 2),
    Step::Write(SDH, CRC_128),
    Step::Write(COMMAND, SEEK),
    Step::Refused(UNKNOWN, WORKING),
    Step::Turn,
    Step::Refused(UNKNOWN, WORKING),
    Step::Turns(2),
    Step::Refused(UNKNOWN, RESTING),
    Step::Status(READY, true),
    Step::Registers([0, 0, 2, 0, CRC_128]),
    Step::Write(CYLINDER_LOW, 3),
    Step::Run(SEEK, 0),
    Step::Refused(UNKNOWN, RESTING),
    Step::Read(ERROR, ABORTED),
    Step::Registers([0, 0, 3, 0, CRC_128]),
    Step::Status(READY + FAILED, true),
    // Restore
    Step::Write(COMMAND, RESTORE),
    Step::Refused(UNKNOWN, WORKING),
    Step::Turn,
    Step::Refused(UNKNOWN, WORKING),
    Step::Turns(2),
    Step::Refused(UNKNOWN, RESTING),
    Step::Status(READY, true),
    Step::Registers([0, 0, 0, 0, CRC_128]),
    // Write
    Step::Write(NUMBER, 1),
    Step::Write(COMMAND, WRITE),
    Step::Refused(UNKNOWN, TAKING),
    Step::Give(0x5a, 127),
    Step::Refused(UNKNOWN, TAKING),
    Step::Status(READY + DATA_REQUEST, false),
    Step::Give(0x5a, 1),
    Step::Refused(UNKNOWN, WORKING),
    Step::Turns(1),
    Step::Refused(UNKNOWN, RESTING),
    Step::Status(READY, true),
    // a multiple and long Write
    Step::Write(COUNT, 2),
    Step::Write(NUMBER, 255),
    Step::Write(COMMAND, WRITE + MULTIPLE + LONG),
    Step::Refused(UNKNOWN, TAKING),
    Step::Give(0x5b, 132),
    Step::Refused(UNKNOWN, WORKING),
    Step::Turns(1),
    Step::Refused(UNKNOWN, TAKING),
    Step::Registers([1, 0, 0, 0, CRC_128]),
    Step::Give(0x5c, 132),
    Step::Refused(UNKNOWN, WORKING),
    Step::Turns(1),
    Step::Refused(UNKNOWN, RESTING),
    Step::Registers([0, 1, 0, 0, CRC_128]),
    Step::Status(READY, true),
    // Read
    Step::Write(COMMAND, READ),
    Step::Refused(UNKNOWN, WORKING),
    Step::Turns(1),
    Step::Refused(UNKNOWN, OFFERING),
    Step::Draw(0x5a, 127),
    Step::Refused(UNKNOWN, OFFERING),
    Step::Status(READY + DATA_REQUEST, true),
    Step::Draw(0x5a, 1),
    Step::Refused(UNKNOWN, RESTING),
    Step::Status(READY, false),
    // a multiple and long Read by DMA
    Step::Write(COUNT, 2),
    Step::Write(NUMBER, 255),
    Step::Write(COMMAND, READ + DMA + MULTIPLE + LONG),
    Step::Refused(UNKNOWN, WORKING),
    Step::Turns(1),
    Step::Refused(UNKNOWN, OFFERING),
    Step::Draw(0x5b, 132),
    Step::Refused(UNKNOWN, WORKING),
    Step::Turns(1),
    Step::Refused(UNKNOWN, OFFERING),
    Step::Draw(0x5c, 132),
    Step::Refused(UNKNOWN, RESTING),
    Step::Registers([0, 1, 0, 0, CRC_128]),
    Step::Status(READY, true),
    // a Read that fails
    Step::Write(NUMBER, 7),
    Step::Write(COMMAND, READ),
    Step::Refused(UNKNOWN, WORKING),
    Step::Turns(9),
    Step::Refused(UNKNOWN, OFFERING),
    Step::Draw(0, 128),
    Step::Refused(UNKNOWN, RESTING),
    Step::Fault(Some((DRIVE, NO_ID, 0, 0, 7, TRIES))),
    Step::Status(READY + FAILED, true),
    // Format
    Step::Write(COUNT, 1),
    Step::Write(COMMAND, FORMAT),
    Step::Refused(UNKNOWN, TAKING),
    Step::Give(0, 127),
    Step::Refused(UNKNOWN, TAKING),
    Step::Give(0, 1),
    Step::Refused(UNKNOWN, WORKING),
    Step::Turns(1),
    Step::Refused(UNKNOWN, RESTING),
    Step::Registers([0, 7, 0, 0, CRC_128]),
    Step::Status(READY, true),
];

// The five refusals in each phase, and that they change nothing.
const ACCESSES: &[Step] = &[
    Step::Turns(1),
    Step::Status(READY, true),
    // at rest all registers but the data register are read and written; a byte written to the error
    // register is dropped
    Step::Write(COUNT, 1),
    Step::Write(NUMBER, 255),
    Step::Write(CYLINDER_LOW, 0),
    Step::Write(CYLINDER_HIGH, 4),
    Step::Write(SDH, CRC_128),
    Step::Write(ERROR, 0xaa),
    Step::Refused(0, RESTING),
    Step::NoRead(u8::MAX, NO_REGISTER),
    Step::NoWrite(BEYOND, RESTORE, NO_REGISTER),
    Step::NoWrite(u8::MAX, RESTORE, NO_REGISTER),
    Step::NoWrite(DATA, RESTORE, NO_REQUEST),
    Step::Read(ERROR, 0),
    Step::Registers([1, 255, 0, 4, CRC_128]),
    Step::Status(READY, false),
    Step::Fault(None),
    // while BUSY is on only the status is read
    Step::Write(COMMAND, TEST),
    Step::Refused(RESTORE, WORKING),
    Step::NoRead(u8::MAX, NO_REGISTER),
    Step::NoWrite(COMMAND, UNKNOWN, IS_BUSY),
    Step::NoWrite(u8::MAX, RESTORE, NO_REGISTER),
    Step::Status(BUSY, false),
    Step::Turns(1),
    // only a read of the status turns INTRQ off
    Step::Lines(false, true),
    Step::Read(ERROR, 0),
    Step::Registers([1, 255, 0, 4, CRC_128]),
    Step::NoRead(DATA, NO_REQUEST),
    Step::NoRead(BEYOND, NO_REGISTER),
    Step::NoWrite(COMMAND, UNKNOWN, NO_COMMAND),
    Step::Write(COUNT, 1),
    Step::Turn,
    Step::Status(READY, true),
    // while bytes are taken, the data register is written and not read, and registers 1 to 6 are
    // read and not written
    Step::Write(COMMAND, WRITE),
    Step::Give(0x5a, 1),
    Step::Refused(9, TAKING),
    Step::NoWrite(COMMAND, WRITE + 1, NO_COMMAND),
    Step::NoWrite(COMMAND, WRITE + DMA, NO_COMMAND),
    Step::Turn,
    Step::Read(ERROR, 0),
    Step::Registers([1, 255, 0, 4, CRC_128]),
    Step::Status(READY + DATA_REQUEST, false),
    Step::Give(0x5a, 127),
    Step::NoWrite(DATA, 0x5a, IS_BUSY),
    Step::Turns(1),
    Step::NoWrite(DATA, 0x5a, NO_REQUEST),
    Step::Status(READY, true),
    // while bytes are offered, the data register is read and not written, and registers 1 to 6 are
    // read and not written
    Step::Run(READ, 1),
    Step::Draw(0x5a, 1),
    Step::Refused(9, OFFERING),
    Step::NoRead(u8::MAX, NO_REGISTER),
    Step::NoWrite(COMMAND, READ + 1, NO_COMMAND),
    Step::NoWrite(COMMAND, TEST + 1, NO_COMMAND),
    Step::NoWrite(u8::MAX, 9, NO_REGISTER),
    Step::Turn,
    Step::Read(ERROR, 0),
    Step::Registers([1, 255, 0, 4, CRC_128]),
    Step::Status(READY + DATA_REQUEST, true),
    Step::Draw(0x5a, 127),
    Step::NoRead(DATA, NO_REQUEST),
    Step::Status(READY, false),
];

// Plays PHASES and ACCESSES.
#[test]
fn accesses(rt: HostRuntime) -> Result<(), Fail> {
    play_each(
        &rt,
        rt.alloc(),
        &[("phases", false, PHASES), ("accesses", false, ACCESSES)],
    )
}

// Whether a byte is one that gives a command.
fn is_command(byte: u8) -> bool {
    matches!(byte, RESTORE..=RESTORE_LAST | SEEK..=SEEK_LAST)
        || COMMANDS.iter().any(|commands| commands.contains(&byte))
}

// Every byte written as a command to a controller without drives: while BUSY is on each is refused;
// after that Test runs, other commands are aborted, and the rest refused.
#[test]
fn command_bytes(rt: HostRuntime) {
    let mut bench = Bench::new(&rt, empty_board(rt.alloc()));
    for byte in 0..=255u8 {
        let (given, fault, turns) = if byte == TEST {
            (Step::Write(COMMAND, byte), None, 1)
        } else if is_command(byte) {
            (Step::Write(COMMAND, byte), Some(ABORTION), 0)
        } else {
            (Step::NoWrite(COMMAND, byte, NO_COMMAND), None, 0)
        };
        bench.play(
            "command bytes",
            &[
                Step::Reset,
                Step::NoWrite(COMMAND, byte, IS_BUSY),
                Step::Turns(1),
                given,
                Step::Fault(fault),
                Step::Turns(turns),
            ],
        );
    }
}

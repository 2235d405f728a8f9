//! Commands as they are given: those that run and those that are aborted, seeks and restores,
//! protection, master resets.
use super::bench::{ABORTION, Bench, Step, board, empty_board, play_each};
use super::bytes::*;
use std::test::Fail;

// What comes of Test, Restore, Seek, Read, Write, Format, and Read and Write with L = 1: where one
// runs BUSY, where it takes bytes TAKES, and where it is aborted one of the others.
type Statuses = [u8; 8];

const TAKES: u8 = READY + DATA_REQUEST;

const FAILS: u8 = READY + FAILED;

const LOCKED: u8 = READY + PROTECTED + FAILED;

// All of them run.
const ALL: Statuses = [BUSY, BUSY, BUSY, BUSY, TAKES, TAKES, BUSY, TAKES];

// All but Format run.
const NO_FORMAT: Statuses = [BUSY, BUSY, BUSY, BUSY, TAKES, FAILS, BUSY, TAKES];

// The floppy's, of which none has L = 1.
const FLOPPY: Statuses = [BUSY, BUSY, BUSY, BUSY, TAKES, TAKES, FAILS, FAILS];

// The floppy's but Format.
const FLOPPY_NO_FORMAT: Statuses = [BUSY, BUSY, BUSY, BUSY, TAKES, FAILS, FAILS, FAILS];

// Where there is no such cylinder: Restore, which clears it first, runs.
const NO_CYLINDER: Statuses = [BUSY, BUSY, FAILS, FAILS, FAILS, FAILS, FAILS, FAILS];

// Only Test runs on a floppy under ECC.
const NO_ECC: Statuses = [BUSY, FAILS, FAILS, FAILS, FAILS, FAILS, FAILS, FAILS];

// Only Test runs where no ready drive is selected.
const NOT_READY: Statuses = [BUSY, FAILED, FAILED, FAILED, FAILED, FAILED, FAILED, FAILED];

// Only Test runs on a protected Winchester.
const LOCKED_ALL: Statuses = [BUSY, LOCKED, LOCKED, LOCKED, LOCKED, LOCKED, LOCKED, LOCKED];

// The protected floppy's, and where there is no such cylinder, and under ECC.
const LOCKED_FLOPPY: Statuses = [BUSY, BUSY, BUSY, BUSY, LOCKED, LOCKED, FAILS, LOCKED];

const LOCKED_NO_CYLINDER: Statuses = [BUSY, BUSY, FAILS, FAILS, LOCKED, LOCKED, FAILS, LOCKED];

const LOCKED_NO_ECC: Statuses = [BUSY, FAILS, FAILS, FAILS, LOCKED, LOCKED, FAILS, LOCKED];

// On a board whose drives are not protected.
const PLAIN: &[Step] = &[
    // the last cylinder, and the next; bits 7 to 2 of the high byte do not count
    Step::Statuses(CRC_128, 1, 2, ALL),
    Step::Statuses(CRC_128, 1, 3, NO_CYLINDER),
    Step::Statuses(CRC_128, 1, 0xfc02, ALL),
    Step::Statuses(CRC_128, 1, 0x0100, NO_CYLINDER),
    Step::Statuses(FLOPPY_CRC_128, 1, 1, FLOPPY),
    Step::Statuses(FLOPPY_CRC_128, 1, 2, NO_CYLINDER),
    // no drive is selected
    Step::Statuses(WINCHESTER_2, 1, 0, NOT_READY),
    Step::Statuses(WINCHESTER_3, 1, 0, NOT_READY),
    Step::Statuses(FLOPPY_2, 1, 0, NOT_READY),
    Step::Statuses(FLOPPY_3, 1, 0, NOT_READY),
    // ECC
    Step::Statuses(ECC_128, 1, 0, ALL),
    Step::Statuses(FLOPPY_ECC_128, 1, 0, NO_ECC),
    // the last head, and the next
    Step::Statuses(CRC_128 + 1, 1, 0, ALL),
    Step::Statuses(CRC_128 + 2, 1, 0, NO_FORMAT),
    Step::Statuses(FLOPPY_CRC_128, 1, 0, FLOPPY),
    Step::Statuses(FLOPPY_CRC_128 + 1, 1, 0, FLOPPY_NO_FORMAT),
    // 64 sectors, 65 and 256
    Step::Statuses(CRC_128, 64, 0, ALL),
    Step::Statuses(CRC_128, 65, 0, NO_FORMAT),
    Step::Statuses(CRC_128, 0, 0, NO_FORMAT),
    // a full track, and one sector more
    Step::Statuses(CRC_1024, 32, 0, ALL),
    Step::Statuses(CRC_1024, 33, 0, NO_FORMAT),
    Step::Statuses(FLOPPY_CRC_128, 8, 0, FLOPPY),
    Step::Statuses(FLOPPY_CRC_128, 9, 0, FLOPPY_NO_FORMAT),
];

// On a board whose drives are protected: bit 5 shows the Winchester, and notes a Write or Format on
// the floppy.
const GUARDED: &[Step] = &[
    Step::Statuses(CRC_128, 1, 0, LOCKED_ALL),
    Step::Statuses(FLOPPY_CRC_128, 1, 0, LOCKED_FLOPPY),
    Step::Statuses(FLOPPY_CRC_128, 1, 2, LOCKED_NO_CYLINDER),
    Step::Statuses(FLOPPY_ECC_128, 1, 0, LOCKED_NO_ECC),
    Step::Statuses(WINCHESTER_2, 1, 0, NOT_READY),
];

// On a board without drives.
const EMPTY: &[Step] = &[
    Step::Statuses(CRC_128, 1, 0, NOT_READY),
    Step::Statuses(FLOPPY_CRC_128, 1, 0, NOT_READY),
    Step::Statuses(WINCHESTER_2, 1, 0, NOT_READY),
];

// Every cause of abortion, for every command.
#[test]
fn abortions(rt: HostRuntime) -> Result<(), Fail> {
    Bench::new(&rt, empty_board(rt.alloc())).play("empty", EMPTY);
    play_each(
        &rt,
        rt.alloc(),
        &[("plain", false, PLAIN), ("guarded", true, GUARDED)],
    )
}

// A seek takes a turn for each step and one more. A restore does too, and clears the cylinder. Each
// drive has its own head.
const SEEKS: &[Step] = &[
    Step::Turns(1),
    Step::Status(READY, true),
    // to C - 1, to the same again, and to C, to which it is aborted
    Step::Write(SDH, CRC_128),
    Step::Write(CYLINDER_LOW, 2),
    Step::Write(COMMAND, SEEK),
    Step::Status(BUSY, false),
    Step::Turns(3),
    Step::Status(READY, true),
    Step::Registers([0, 0, 2, 0, CRC_128]),
    Step::Run(SEEK_LAST, 1),
    Step::Write(CYLINDER_LOW, 3),
    Step::Run(SEEK, 0),
    Step::Read(ERROR, ABORTED),
    Step::Write(ERROR, 0),
    Step::Read(ERROR, ABORTED),
    Step::Status(READY + FAILED, true),
    Step::Fault(Some(ABORTION)),
    // the same on the floppy
    Step::Write(SDH, FLOPPY_CRC_128),
    Step::Write(CYLINDER_LOW, 1),
    Step::Write(COMMAND, SEEK),
    Step::Fault(None),
    Step::Turns(2),
    Step::Read(ERROR, 0),
    Step::Status(READY, true),
    Step::Write(CYLINDER_LOW, 2),
    Step::Run(SEEK, 0),
    Step::Read(ERROR, ABORTED),
    Step::Status(READY + FAILED, true),
    Step::Fault(Some(ABORTION)),
    // back again
    Step::Write(SDH, CRC_128),
    Step::Write(CYLINDER_HIGH, 3),
    Step::Write(COMMAND, RESTORE_LAST),
    Step::Status(BUSY, false),
    Step::Turns(3),
    Step::Status(READY, true),
    Step::Registers([0, 0, 0, 0, CRC_128]),
    Step::Run(RESTORE, 1),
    Step::Write(SDH, FLOPPY_CRC_128),
    Step::Run(RESTORE, 2),
];

// What the status says of protected drives, and for how long it notes an aborted Write or Format.
// The floppy is read.
const NOTES: &[Step] = &[
    Step::Turns(1),
    Step::Status(READY + PROTECTED, true),
    Step::Write(NUMBER, 1),
    Step::Write(SDH, CRC_128),
    Step::Status(READY + PROTECTED, false),
    Step::Write(SDH, FLOPPY_CRC_128),
    Step::Status(READY, false),
    Step::Run(READ, 1),
    Step::Status(READY + DATA_REQUEST, true),
    Step::Draw(0, 128),
    Step::Status(READY, false),
    // the note stays while other drives are selected and bytes refused, until a command is accepted
    Step::Run(WRITE, 0),
    Step::Status(READY + PROTECTED + FAILED, true),
    Step::Fault(Some(ABORTION)),
    Step::NoWrite(COMMAND, WRITE + 1, NO_COMMAND),
    Step::Write(SDH, WINCHESTER_2),
    Step::Status(PROTECTED + FAILED, false),
    Step::Write(SDH, FLOPPY_CRC_128),
    Step::Status(READY + PROTECTED + FAILED, false),
    Step::Run(TEST, 1),
    Step::Status(READY, true),
    // Format, and a multiple Write
    Step::Write(COUNT, 1),
    Step::Run(FORMAT, 0),
    Step::Status(READY + PROTECTED + FAILED, true),
    Step::Run(WRITE + MULTIPLE, 0),
    Step::Status(READY + PROTECTED + FAILED, true),
    Step::Run(SEEK, 1),
    Step::Status(READY, true),
    // a master reset clears it
    Step::Run(FORMAT, 0),
    Step::Reset,
    Step::Turns(1),
    Step::Write(SDH, FLOPPY_CRC_128),
    Step::Status(READY, true),
];

// Master resets. The heads and the sectors stay as they are.
const RESETS: &[Step] = &[
    Step::Turns(1),
    Step::Status(READY, true),
    // after an abortion
    Step::Write(SDH, CRC_128),
    Step::Write(CYLINDER_LOW, 3),
    Step::Run(SEEK, 0),
    Step::Lines(false, true),
    Step::Reset,
    Step::Fault(None),
    Step::Status(BUSY, false),
    Step::NoRead(COUNT, IS_BUSY),
    Step::Turns(1),
    Step::Status(READY, true),
    Step::Read(ERROR, 0),
    Step::Registers([0, 0, 0, 0, 0]),
    // amid a seek
    Step::Write(CYLINDER_LOW, 2),
    Step::Write(COMMAND, SEEK),
    Step::Turn,
    Step::Status(BUSY, false),
    Step::ResetAndTest,
    Step::Run(RESTORE, 2),
    // amid a multiple write
    Step::Write(COUNT, 3),
    Step::Write(NUMBER, 255),
    Step::Write(CYLINDER_HIGH, 0x80),
    Step::Write(SDH, CRC_128),
    Step::Write(COMMAND, WRITE + MULTIPLE),
    Step::Give(0x77, 100),
    Step::Lines(true, false),
    Step::ResetAndTest,
    Step::Registers([0, 0, 0, 0, 0]),
    Step::NoWrite(DATA, 0x77, NO_REQUEST),
    // amid a read
    Step::Write(NUMBER, 255),
    Step::Write(SDH, CRC_128),
    Step::Run(READ, 1),
    Step::Draw(0, 100),
    Step::Lines(true, true),
    Step::ResetAndTest,
    Step::Registers([0, 0, 0, 0, 0]),
    Step::NoRead(DATA, NO_REQUEST),
    // amid a read that failed
    Step::Write(NUMBER, 7),
    Step::Write(SDH, CRC_128),
    Step::Run(READ, 9),
    Step::Fault(Some((DRIVE, NO_ID, 0, 0, 7, TRIES))),
    Step::Lines(true, true),
    Step::Reset,
    Step::Fault(None),
    Step::Status(BUSY, false),
    Step::Turns(1),
    Step::Status(READY, true),
    Step::Registers([0, 0, 0, 0, 0]),
    Step::Read(ERROR, 0),
];

// Master resets while BUSY is on, and amid the bytes of a Format.
const BUSY_RESETS: &[Step] = &[
    // amid the Test of a controller that is made now, and that of a reset
    Step::Reset,
    Step::ResetAndTest,
    Step::Write(COMMAND, TEST),
    Step::Reset,
    Step::Turns(1),
    Step::Status(READY, true),
    // amid a restore, whose head has come to cylinder 1
    Step::Write(CYLINDER_LOW, 2),
    Step::Run(SEEK, 3),
    Step::Write(COMMAND, RESTORE),
    Step::Turn,
    Step::ResetAndTest,
    Step::Run(RESTORE, 2),
    // amid the attempts of a read
    Step::Write(NUMBER, 7),
    Step::Write(SDH, CRC_128),
    Step::Write(COMMAND, READ),
    Step::Turn,
    Step::Turn,
    Step::ResetAndTest,
    Step::NoRead(DATA, NO_REQUEST),
    Step::Fault(None),
    // between the sectors of a multiple read
    Step::Write(COUNT, 2),
    Step::Write(NUMBER, 255),
    Step::Write(SDH, CRC_128),
    Step::Run(READ + MULTIPLE, 1),
    Step::Draw(0, 128),
    Step::ResetAndTest,
    Step::Registers([0, 0, 0, 0, 0]),
    Step::NoRead(DATA, NO_REQUEST),
    // before the attempt of a write, which is not made
    Step::Write(NUMBER, 255),
    Step::Write(SDH, CRC_128),
    Step::Write(COMMAND, WRITE),
    Step::Give(0x77, 128),
    Step::ResetAndTest,
    Step::Write(NUMBER, 255),
    Step::Write(SDH, CRC_128),
    Step::Run(READ, 1),
    Step::Draw(0, 128),
    // amid the bytes of a format, and before the track is formatted
    Step::Write(COUNT, 1),
    Step::Write(COMMAND, FORMAT),
    Step::Give(0, 100),
    Step::ResetAndTest,
    Step::NoWrite(DATA, 0, NO_REQUEST),
    Step::Write(COUNT, 1),
    Step::Write(SDH, CRC_128),
    Step::Write(COMMAND, FORMAT),
    Step::Give(0, 128),
    Step::ResetAndTest,
    Step::Write(NUMBER, 255),
    Step::Write(SDH, CRC_128),
    Step::Run(READ, 1),
    Step::Draw(0, 128),
    // after a correction
    Step::Write(COUNT, 1),
    Step::Write(CYLINDER_LOW, 1),
    Step::Write(SDH, ECC_128),
    Step::Write(COMMAND, FORMAT),
    Step::Give(0, 1),
    Step::Give(255, 1),
    Step::Give(0, 126),
    Step::Turns(2),
    Step::Run(READ, 2),
    Step::Lines(true, true),
    Step::Reset,
    Step::Turns(1),
    Step::Status(READY, true),
    Step::Fault(None),
    Step::Registers([0, 0, 0, 0, 0]),
];

// Seeks, notes and resets, each on a board of its own.
#[test]
fn seeks_notes_and_resets(rt: HostRuntime) -> Result<(), Fail> {
    play_each(
        &rt,
        rt.alloc(),
        &[
            ("seeks", false, SEEKS),
            ("notes", true, NOTES),
            ("resets", false, RESETS),
            ("resets while busy", false, BUSY_RESETS),
        ],
    )
}

// Restore and Seek with each of the low four bits that they may have, on either drive: all of them
// do the same. One of them is the bit of a long Read, which a floppy would refuse.
#[test]
fn low_bits(rt: HostRuntime) -> Result<(), Fail> {
    let mut bench = Bench::new(&rt, board(&rt, rt.alloc(), false)?);
    for low in 0..16u8 {
        let steps = [
            Step::Turns(if low == 0 { 1 } else { 0 }),
            Step::Write(SDH, CRC_128),
            Step::Write(CYLINDER_LOW, 2),
            Step::Run(SEEK + low, 3),
            Step::Registers([0, 0, 2, 0, CRC_128]),
            Step::Status(READY, true),
            Step::Run(RESTORE + low, 3),
            Step::Registers([0, 0, 0, 0, CRC_128]),
            Step::Status(READY, true),
            Step::Write(SDH, FLOPPY_CRC_128),
            Step::Write(CYLINDER_LOW, 1),
            Step::Run(SEEK + low, 2),
            Step::Registers([0, 0, 1, 0, FLOPPY_CRC_128]),
            Step::Status(READY, true),
            Step::Run(RESTORE + low, 2),
            Step::Registers([0, 0, 0, 0, FLOPPY_CRC_128]),
            Step::Status(READY, true),
        ];
        bench.play("low bits", &steps);
    }
    Ok(())
}

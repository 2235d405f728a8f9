//! The sector memory that comes back of a controller's drives.
use super::bench::{Bench, CHECKS, Fitted, SECTORS, Step, Unit, WINCHESTER, board};
use super::bytes::*;
use either::Either;
use image::{Image, Make};
use std::process::Abort;
use std::test::Fail;

// Writes sector 255 of both drives, and formats track 0 of cylinder 1 of the Winchester.
const KEPT: &[Step] = &[
    Step::Turns(1),
    Step::Write(NUMBER, 255),
    Step::Write(SDH, CRC_128),
    Step::Write(COMMAND, WRITE),
    Step::Give(0xa5, 128),
    Step::Turns(1),
    Step::Write(SDH, FLOPPY_CRC_128),
    Step::Write(COMMAND, WRITE),
    Step::Give(0x3c, 128),
    Step::Turns(1),
    Step::Write(COUNT, 1),
    Step::Write(CYLINDER_LOW, 1),
    Step::Write(SDH, CRC_128),
    Step::Write(COMMAND, FORMAT),
    Step::Give(0x80, 1),
    Step::Give(9, 127),
    Step::Turns(2),
    Step::Status(READY, true),
];

// The memory of an image, or of one that was refused.
fn fitted_memory<M: Make>(drive: Fitted<Image<M>>) -> Vec<u8> {
    match drive {
        Either::Left(image) => image.into_memory(),
        Either::Right(empty) => empty.into_memory(),
    }
}

// The memory of what a bay has.
fn memory_of(unit: Unit) -> Vec<u8> {
    match unit {
        Either::Left(table) => fitted_memory(table.into_drive()),
        Either::Right(floppy) => fitted_memory(floppy),
    }
}

// Where the third track record of the Winchester begins.
const THIRD: usize = 2 * (SECTORS + WINCHESTER.capacity as usize);

// What the sector memories have once KEPT is played: a byte's place, and the byte. A track record
// begins with a count, a size code and pairs of number and mark; check bytes and the sectors' bytes
// follow.
const WINCHESTER_MEMORY: &[(usize, u8)] = &[
    (0, 8),
    (1, 3),
    (2, 255),
    (3, 0),
    (CHECKS, 0xb8),
    (CHECKS + 1, 0xe2),
    (CHECKS + 2, 0),
    (CHECKS + 3, 0),
    (SECTORS, 0xa5),
    (SECTORS + 127, 0xa5),
    (SECTORS + 128, 0),
    // the track of cylinder 1 and head 0
    (THIRD, 1),
    (THIRD + 1, 3),
    (THIRD + 2, 9),
    (THIRD + 3, 0x80),
    (THIRD + SECTORS, 0),
];

const FLOPPY_MEMORY: &[(usize, u8)] = &[
    (CHECKS, 0x38),
    (CHECKS + 1, 0xf1),
    (CHECKS + 2, 0),
    (SECTORS, 0x3c),
    (SECTORS + 127, 0x3c),
    (SECTORS + 128, 0),
];

// A memory has these bytes.
fn has(rt: &impl Abort, memory: &[u8], bytes: &[(usize, u8)]) {
    for (at, byte) in bytes {
        assert_eq!(rt; memory.get(*at).copied(), Some(*byte), "byte {at}");
    }
}

// The memory that comes back of drives that were written and formatted.
#[test]
fn memory_afterwards(rt: HostRuntime) -> Result<(), Fail> {
    let mut bench = Bench::new(&rt, board(&rt, rt.alloc(), false)?);
    bench.play("kept", KEPT);
    let [winchester, floppy] = bench.into_board().into_drives();
    has(&rt, &memory_of(winchester), WINCHESTER_MEMORY);
    has(&rt, &memory_of(floppy), FLOPPY_MEMORY);
    Ok(())
}

//! What attempts show under entries.
use drive::{
    Drive, EmptyBay, Geometry, Place, ReadError, SectorAddress, SectorBuffer, SectorId, WriteError,
};
use fault_table::{FaultEntry, FaultKind, FaultTable};
use image::WinchesterImage;
use sector::{Burst, SizeCode};
use std::alloc::Global;
use std::process::Abort;
use std::test::Fail;

// An entry at cylinder 0 and head 0, whose burst is in the first byte: a pattern of 1 makes a 0
// there a 1, and one of 5 a 5.
const fn entry(number: u8, kind: FaultKind, pattern: u8, attempts: u16) -> FaultEntry {
    FaultEntry {
        place: Place {
            cylinder: 0,
            head: 0,
            number,
        },
        kind,
        burst: Burst {
            first: if pattern == 5 { 5 } else { 7 },
            pattern,
        },
        attempts,
    }
}

const GEOMETRY: Geometry = Geometry {
    cylinders: 2,
    heads: 1,
    capacity: 256,
};

const fn good(number: u8) -> SectorId {
    SectorId { number, bad: false }
}

// Two cylinders of one head, with sectors 1 and 2, of 128 zeros, at cylinder 0.
fn formatted(heap: Global, protected: bool) -> Result<WinchesterImage, Fail> {
    let memory = vec![in heap; 0u8; 1284]?;
    let mut image = WinchesterImage::new(GEOMETRY, false, memory)?;
    let _ = image.format(0, &[good(1), good(2)], SizeCode::Bytes128, [0; 4]);
    if !protected {
        return Ok(image);
    }
    Ok(WinchesterImage::new(GEOMETRY, true, image.into_memory())?)
}

// A sector of 128 bytes under head 0.
const fn at(number: u8) -> SectorAddress {
    SectorAddress {
        head: 0,
        number,
        size: SizeCode::Bytes128,
    }
}

// What a read attempt shows, as a letter: i for no ID, m for no data mark, and the first byte of a
// delivery as a digit.
fn read<D: Drive>(drive: &mut D, number: u8) -> u8 {
    let mut buffer = SectorBuffer::zeroed();
    match drive.read(at(number), &mut buffer) {
        Ok(()) => b'0'.wrapping_add(buffer.bytes[0]),
        Err(ReadError::NotReady) => b'-',
        Err(ReadError::NoId) => b'i',
        Err(ReadError::BadBlock) => b'b',
        Err(ReadError::NoDataMark) => b'm',
    }
}

// What a write attempt with zeros shows: w where it wrote.
fn write<D: Drive>(drive: &mut D, number: u8) -> u8 {
    match drive.write(at(number), &SectorBuffer::zeroed()) {
        Ok(()) => b'w',
        Err(WriteError::NotReady) => b'-',
        Err(WriteError::Protected) => b'p',
        Err(WriteError::NoId) => b'i',
        Err(WriteError::BadBlock) => b'b',
    }
}

// A run of read attempts shows these letters.
fn reads<D: Drive>(rt: &impl Abort, drive: &mut D, number: u8, shown: &[u8]) {
    for expected in shown {
        assert_eq!(rt; read(drive, number), *expected);
    }
}

fn writes<D: Drive>(rt: &impl Abort, drive: &mut D, number: u8, shown: &[u8]) {
    for expected in shown {
        assert_eq!(rt; write(drive, number), *expected);
    }
}

// Entries of a place apply one after another, and those of other places aside.
#[test]
fn one_after_another(rt: HostRuntime) -> Result<(), Fail> {
    let mut table = FaultTable::over(formatted(rt.alloc(), false)?);
    reads(&rt, &mut table, 1, b"0");
    table.add_all(&[
        entry(1, FaultKind::WrongBits, 1, 2),
        entry(2, FaultKind::NoDataMark, 1, 1),
        entry(1, FaultKind::NoId, 1, 2),
        entry(1, FaultKind::NoDataMark, 1, 1),
        FaultEntry {
            place: Place {
                cylinder: 1,
                head: 0,
                number: 1,
            },
            ..entry(1, FaultKind::NoId, 1, 1)
        },
        entry(1, FaultKind::WrongBits, 5, 1),
    ]);
    reads(&rt, &mut table, 1, b"11i");
    reads(&rt, &mut table, 2, b"m00");
    reads(&rt, &mut table, 1, b"im500");
    table.add(entry(1, FaultKind::NoId, 1, 1))?;
    reads(&rt, &mut table, 1, b"i0");
    Ok(())
}

// On a write only no ID is met; the other kinds are used up. A sector that is not there uses one up
// too.
#[test]
fn writes_use_up(rt: HostRuntime) -> Result<(), Fail> {
    let mut table = FaultTable::over(formatted(rt.alloc(), false)?);
    table.add_all(&[
        entry(1, FaultKind::NoId, 1, 1),
        entry(1, FaultKind::NoDataMark, 1, 1),
        entry(1, FaultKind::WrongBits, 1, 2),
        entry(3, FaultKind::NoDataMark, 1, 1),
    ]);
    writes(&rt, &mut table, 1, b"iww");
    reads(&rt, &mut table, 1, b"10");
    reads(&rt, &mut table, 3, b"ii");
    Ok(())
}

// A refused attempt uses up nothing.
#[test]
fn refused_attempts(rt: HostRuntime) -> Result<(), Fail> {
    let mut table = FaultTable::over(formatted(rt.alloc(), true)?);
    table.add(entry(1, FaultKind::NoId, 1, 1))?;
    writes(&rt, &mut table, 1, b"pp");
    reads(&rt, &mut table, 1, b"i0");
    let mut empty = FaultTable::over(EmptyBay::new(Vec::new(rt.alloc())));
    empty.add(entry(1, FaultKind::NoId, 1, 1))?;
    reads(&rt, &mut empty, 1, b"-");
    writes(&rt, &mut empty, 1, b"-");
    Ok(())
}

// No ID hides the table below; the other kinds use up its entries, whatever those show.
#[test]
fn two_tables(rt: HostRuntime) -> Result<(), Fail> {
    let mut below = FaultTable::over(formatted(rt.alloc(), false)?);
    below.add_all(&[
        entry(1, FaultKind::NoDataMark, 1, 1),
        entry(1, FaultKind::WrongBits, 1, 2),
        entry(1, FaultKind::NoId, 1, 1),
        entry(1, FaultKind::WrongBits, 1, 1),
    ]);
    let mut table = FaultTable::over(below);
    table.add_all(&[
        entry(1, FaultKind::NoId, 1, 2),
        entry(1, FaultKind::WrongBits, 5, 2),
        entry(1, FaultKind::NoDataMark, 1, 2),
    ]);
    reads(&rt, &mut table, 1, b"iim4mi10");
    let mut below = table.into_drive();
    below.add(entry(1, FaultKind::NoId, 1, 1))?;
    reads(&rt, &mut below, 1, b"i0");
    Ok(())
}

// A burst over the seam to the check bytes, and a buffer that no data mark leaves alone.
#[test]
fn buffers(rt: HostRuntime) -> Result<(), Fail> {
    let mut table = FaultTable::over(formatted(rt.alloc(), false)?);
    table.add_all(&[
        entry(1, FaultKind::NoDataMark, 1, 1),
        FaultEntry {
            burst: Burst {
                first: 1022,
                pattern: 0b1101,
            },
            ..entry(1, FaultKind::WrongBits, 1, 1)
        },
    ]);
    let mut buffer = SectorBuffer {
        bytes: [9; 1024],
        check: [9; 4],
    };
    let _ = table.read(at(1), &mut buffer);
    assert_eq!(rt; buffer.bytes[0], 9);
    assert_eq!(rt; buffer.check[0], 9);
    let _ = table.read(at(1), &mut buffer);
    assert_eq!(rt; buffer.bytes[126], 0);
    assert_eq!(rt; buffer.bytes[127], 0b10);
    assert_eq!(rt; buffer.bytes[128], 9);
    assert_eq!(rt; buffer.check, [0b1100_0000, 0, 0, 0]);
    Ok(())
}

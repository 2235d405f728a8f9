//! Entries at both edges of each range, and the thirty-third.
use drive::{Drive, EmptyBay, Place};
use fault_table::{FaultEntry, FaultKind, FaultTable};
use sector::Burst;

const fn entry(cylinder: u16, head: u8, first: u16, pattern: u8, attempts: u16) -> FaultEntry {
    FaultEntry {
        place: Place {
            cylinder,
            head,
            number: 255,
        },
        kind: FaultKind::NoId,
        burst: Burst { first, pattern },
        attempts,
    }
}

// Adds an entry, and tells the refusal by its number.
fn add<D: Drive>(table: &mut FaultTable<D>, entry: FaultEntry) -> Result<(), u8> {
    table.add(entry).map_err(u8::from)
}

// Entries that a table takes, and entries next to them that it refuses: whatever the kind, the
// burst is asked too.
#[test]
fn ranges(rt: HostRuntime) {
    let taken = [
        entry(0, 0, 0, 1, 1),
        entry(1023, 7, 8223, 31, 65535),
        entry(0, 7, 0, 29, 1),
    ];
    let refused = [
        entry(1024, 0, 0, 1, 1),
        entry(0, 8, 0, 1, 1),
        entry(0, 0, 8224, 1, 1),
        entry(0, 0, 0, 0, 1),
        entry(0, 0, 0, 2, 1),
        entry(0, 0, 0, 32, 1),
        entry(0, 0, 0, 33, 1),
        entry(0, 0, 0, 1, 0),
    ];
    let mut table = FaultTable::over(EmptyBay::new(Vec::new(rt.alloc())));
    for kind in [FaultKind::NoId, FaultKind::NoDataMark, FaultKind::WrongBits] {
        for entry in taken {
            assert_eq!(rt; add(&mut table, FaultEntry { kind, ..entry }), Ok(()));
        }
        for entry in refused {
            assert_eq!(rt; add(&mut table, FaultEntry { kind, ..entry }), Err(11));
        }
    }
}

// A refused entry takes no room, and those behind it are taken; a full table is asked first.
#[test]
fn thirty_two(rt: HostRuntime) {
    let mut table = FaultTable::over(EmptyBay::new(Vec::new(rt.alloc())));
    let taken = entry(0, 0, 0, 1, 1);
    let refused = entry(0, 0, 0, 1, 0);
    assert_eq!(rt; table.add_all(&[taken; 31]), 31);
    assert_eq!(rt; add(&mut table, refused), Err(11));
    assert_eq!(rt; table.add_all(&[refused, taken, taken]), 1);
    assert_eq!(rt; add(&mut table, taken), Err(10));
    assert_eq!(rt; add(&mut table, refused), Err(10));
}

#[test]
fn numbers(rt: HostRuntime) {
    assert_eq!(rt; u8::from(FaultKind::NoId), 1);
    assert_eq!(rt; u8::from(FaultKind::NoDataMark), 2);
    assert_eq!(rt; u8::from(FaultKind::WrongBits), 3);
}

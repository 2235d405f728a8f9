//! The parts in use: measures from words, a Winchester of them, the places of records, faults laid
//! over it, and a comparison.
use super::{Stretch, geometry_of, lay, print_comparison, winchester};
use drive::Geometry;
use fault_table::{FaultKind, FaultTable};
use image::blank_memory;
use records::Grid;
use std::test::Fail;

const SMALL: Geometry = Geometry {
    cylinders: 2,
    heads: 1,
    capacity: 1024,
};

#[test]
fn measures_from_words(rt: HostRuntime) {
    assert!(rt; geometry_of(&["2", "1", "1024"]).is_ok_and(|geometry| geometry == SMALL));
    assert!(rt; geometry_of(&["2", "1"]).is_err());
    assert!(rt; geometry_of(&["2", "256", "1024"]).is_err());
}

// Measures at their ends and past them. The last three would take much memory, and are refused
// without it.
#[test]
fn measures_refused(rt: HostRuntime) {
    for (cylinders, heads, capacity, granted) in [
        (1024, 1, 128, true),
        (0, 1, 128, false),
        (1, 8, 128, true),
        (1, 0, 128, false),
        (1, 1, 129, false),
        (1025, 255, 65_536, false),
        (1024, 9, 65_536, false),
        (1024, 8, 65_537, false),
    ] {
        let geometry = Geometry {
            cylinders,
            heads,
            capacity,
        };
        assert_eq!(rt; winchester(&rt, geometry).is_ok(), granted);
    }
}

#[test]
fn memory_and_places(rt: HostRuntime) -> Result<(), Fail> {
    // Two track records of 386 bytes and 1,024.
    let memory = blank_memory(rt.alloc(), SMALL)?;
    assert_eq!(rt; memory.len(), 2820);
    let grid = Grid::from(SMALL);
    assert!(rt;
        grid.places(rt.alloc(), 4)
            .is_ok_and(|places| places.len() == 4)
    );
    assert!(rt; grid.places(rt.alloc(), 5).is_err());
    Ok(())
}

#[test]
fn faults_over_a_winchester(rt: HostRuntime) {
    let row = [Stretch {
        kind: FaultKind::NoId,
        attempts: 1,
    }];
    let Ok(drive) = winchester(&rt, SMALL) else {
        assert!(rt; false, "the Winchester is refused");
        return;
    };
    let Ok(places) = Grid::from(SMALL).places(rt.alloc(), 4) else {
        assert!(rt; false, "the records have no places");
        return;
    };
    let mut table = FaultTable::over(drive);
    assert!(rt; lay(&rt, &mut table, &places, [&row, &row, &row, &row]).is_ok());
}

#[test]
fn sheets_compared(rt: HostRuntime) {
    assert!(rt; print_comparison(&rt, b"one\ntwo\n", b"one\ntwo\n").is_ok());
    assert!(rt; print_comparison(&rt, b"one\ntwo\n", b"one\ntoo\n").is_err());
    assert!(rt; print_comparison(&rt, b"one\ntwo", b"one\n").is_err());
}

//! The bays: their numbers, and the drives in them.
use super::bench::{FLOPPY, WINCHESTER, board};
use drive::{Drive, Geometry};
use std::test::Fail;
use task_file::{BAYS, Bay};

// Each bay, the board's number of it, and the measures of its drive.
const DRIVES: [(Bay, u8, Geometry); BAYS] = [
    (Bay::Winchester1, 1, WINCHESTER),
    (Bay::Floppy1, 4, FLOPPY),
];

// The drives come back in the order of their bays.
#[test]
fn bays(rt: HostRuntime) -> Result<(), Fail> {
    let drives = board(&rt, rt.alloc(), false)?.into_drives();
    for (bay, number, geometry) in DRIVES {
        assert_eq!(rt; u8::from(bay), number);
        assert_eq!(rt; drives[bay.index()].geometry(), geometry, "bay {number}");
    }
    Ok(())
}

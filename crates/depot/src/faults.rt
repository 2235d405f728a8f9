//! The faults that are laid over the drive before it is fitted.
use fault_table::FaultKind;
use program_parts::Stretch;

/// What the attempts at a record meet, row by row, the write first: it uses its attempts up too,
/// but only no ID makes it try again.
pub const FAULTS: [&[Stretch]; 4] = [
    &[],
    // The write takes one; the read meets the same burst twice, and corrects it.
    &[Stretch {
        kind: FaultKind::WrongBits,
        attempts: 3,
    }],
    // The write meets no ID twice, and takes the third, which only a read would mind; the read
    // meets no ID twice.
    &[
        Stretch {
            kind: FaultKind::NoId,
            attempts: 2,
        },
        Stretch {
            kind: FaultKind::NoDataMark,
            attempts: 1,
        },
        Stretch {
            kind: FaultKind::NoId,
            attempts: 2,
        },
    ],
    // The write takes one; the read comes at its ninth attempt, the last that it has.
    &[Stretch {
        kind: FaultKind::NoDataMark,
        attempts: 9,
    }],
];

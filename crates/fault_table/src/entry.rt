//! The entries of a fault table.
ghost use Rattle.std.specs.Prelude.{◌≡◌, find};
ghost use Rattle.std.specs.List.{position_from};
ghost use Rattle.fault_table.specs.Entries.{kind_number, in_range, applies_at, spent};

use arrayvec::ArrayVec;
use drive::{MOST_CYLINDERS, MOST_HEADS, Place};
use sector::Burst;
use std::fmt;

/// What an attempt meets: no ID, no data mark, or the burst's bits wrong.
#[derive(Clone, Copy, PartialEq, Eq, Debug)]
pub enum FaultKind {
    NoId = 1,
    NoDataMark = 2,
    WrongBits = 3,
}

impl From<FaultKind> for u8 {
    ghost from_gives = { λ kind number. number ≡ kind_number kind };

    fn from(kind: FaultKind) -> u8 {
        kind as u8
    }
}

/// A fault at a place, for a number of attempts. A table takes cylinders below 1,024, heads below
/// 8, first bits below 8,224, odd patterns below 32 and attempts from 1 on, whatever the kind.
#[derive(Clone, Copy, PartialEq, Eq, Debug)]
pub struct FaultEntry {
    pub place: Place,
    pub kind: FaultKind,
    pub burst: Burst,
    pub attempts: u16,
}

// What stands where a table has no entry yet: it covers no attempt.
impl Default for FaultEntry {
    ghost is_default = { λ entry. entry.attempts ≡ 0 };

    fn default() -> FaultEntry {
        FaultEntry {
            place: Place {
                cylinder: 0,
                head: 0,
                number: 0,
            },
            kind: FaultKind::NoId,
            burst: Burst {
                first: 0,
                pattern: 0,
            },
            attempts: 0,
        }
    }
}

impl fmt::Display for FaultEntry {
    fn fmt<W: fmt::Write>(&self, f: &mut fmt::Formatter<W>) -> fmt::Result {
        match self.kind {
            FaultKind::NoId => f.write_str("no ID")?,
            FaultKind::NoDataMark => f.write_str("no data mark")?,
            FaultKind::WrongBits => write!(f, "{}", self.burst)?,
        }
        let attempts = self.attempts;
        write!(f, ", attempts: {attempts}")
    }
}

impl FaultEntry {
    /// Whether a table takes the entry.
    pub fn is_in_range(self) -> bool
        ensures { result ≡ in_range self }
    {
        self.place.cylinder < MOST_CYLINDERS
            && self.place.head < MOST_HEADS
            && self.burst.first < 8224
            && self.burst.pattern % 2 == 1
            && self.burst.pattern < 32
            && self.attempts >= 1
    }
}

// Room for the entries of a table.
pub(crate) type Entries = ArrayVec<FaultEntry, 32>;

// Where the entry stands that an attempt at a place meets, if there is one.
fn first_met(entries: &[FaultEntry], place: Place) -> Option<usize>
    ensures { result ≡ position_from (applies_at place) 0 entries.now }
{
    entries
        .iter()
        .position(|entry| entry.place == place && entry.attempts > 0)
}

// The entry that an attempt at a place meets, if any, as it is before the attempt; it then has one
// attempt less.
#[tactic(auto, using(crate::proofs::Searched::looked, std::proofs::lemmas::Grind::common_steps))]
pub(crate) fn spend(entries: &mut Entries, place: Place) -> Option<FaultEntry>
    ensures value { result ≡ find (applies_at place) entries.old.items }
    ensures after { entries.new.items ≡ spent place entries.old.items }
{
    let first = first_met(entries, place)?;
    let met = entries[first];
    entries[first].attempts -= 1;
    Some(met)
}

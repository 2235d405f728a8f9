//! The theorem, what it stands on, and an example of it, as contracts of functions.
ghost use Rattle.drive.specs.Bounds.{ADrive};
ghost use Rattle.round_trip.specs.Examples.{PremisesMet, SheetReadBack};
ghost use Rattle.round_trip.specs.Laws.{ScriptIsSheet};

use drive::Drive;

/// The laws hold of every history, over all drives.
#[tactic(auto, using(crate::proofs::Laws::round_trip))]
pub fn round_trip_stands()
    ensures { ScriptIsSheet }
{}

/// Every drive of every make is such a drive as the theorem speaks of.
pub fn makes_are_drives<D: Drive>()
    ensures { (d : D) → ADrive (D.meaning d) }
{}

/// There are drives and calls that meet the premises of the laws, and what is read there is what
/// was written.
#[tactic(auto, using(crate::proofs::Examples::premises_met, // what is supposed
crate::proofs::Examples::sheet_read_back))]
pub fn example_stands()
    ensures premises { PremisesMet }
    ensures read_back { SheetReadBack }
{}

//! What every history leads to, as the contract of a function.
ghost use Rattle.histories.specs.Working.{AlwaysInOrder, NeverTurnedAway};

/// Every history leads to a controller whose command under way can be done. So no drive answers an
/// attempt of a controller that it is not ready or is protected, and none refuses a format.
#[tactic(auto, using(crate::proofs::Orders::always_in_order, // the invariant
crate::proofs::Asked::never_turned_away))]
pub fn drives_do_as_asked()
    ensures order { AlwaysInOrder }
    ensures answers { NeverTurnedAway }
{}

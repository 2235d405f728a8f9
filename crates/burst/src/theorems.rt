//! The theorem on bursts, as the contract of a function.
ghost use Rattle.burst.specs.Apart.{BurstsApart, NoBurstVanishes};

/// In an ECC sector of any size no burst has the amount 0, and two different bursts have different
/// amounts.
pub fn bursts_apart()
    ensures apart { BurstsApart }
    ensures none_vanishes { NoBurstVanishes }
{}

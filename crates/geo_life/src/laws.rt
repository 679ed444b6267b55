//! Laws for callers.
ghost use Rattle.geo_life.specs.LifeLaws.{PlacesAreFew, CountsAreStored, HandlesAreSpared};

/// There are at most as many providers without an error, and at most as many notes of a rise or a fall, as there are
/// providers: so room for three times as many events as there are providers is enough for what any of the calls posts.
#[tactic(auto, using(crate::proofs::Places::places_are_few))]
pub fn places_are_few<C>()
    ensures { PlacesAreFew C }
{}

/// Where all counts are kept, they are stored by any grants that agree with what each consumer is granted.
#[tactic(auto, using(crate::proofs::Places::counts_are_stored))]
pub fn counts_are_stored<C>()
    ensures { CountsAreStored C }
{}

/// A sound and steady world, and so each firm one, has what the calls ask for that look at no handle: no taste made
/// DEV, and no handle's consumer is marked.
#[tactic(auto, using(crate::proofs::Spared::handles_are_spared))]
pub fn handles_are_spared()
    ensures { HandlesAreSpared }
{}

//! Laws of concats that grow by a component behind the others.
ghost use Rattle.geo_class.specs.concat.Growth.{NewSpots, PlacesStay, SpotsStay};

/// Each old offset keeps its place, in lists of sizes and in configurations.
#[tactic(auto, using(crate::proofs::ConcatGrowthLemmas::spots_stay, crate::proofs::ConcatGrowthLemmas::places_stay))]
pub fn places_stay()
    ensures spots { SpotsStay }
    ensures places { PlacesStay }
{}

/// Each new offset lies in the new component, counted from its start.
#[tactic(auto, using(crate::proofs::ConcatGrowthLemmas::new_spots))]
pub fn new_places_are_in_the_new_component()
    ensures { NewSpots }
{}

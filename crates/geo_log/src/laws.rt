//! What the places of a log keep while it grows.
ghost use Rattle.geo_log.specs.PlaceLaws.{BytesStay, DeliveredHasPlace, DeliveredIsResult};

/// The bytes of a place stay while the log grows.
#[tactic(auto, using(crate::proofs::PlaceLemmas::places_stay))]
pub fn places_stay()
    ensures { BytesStay }
{}

/// What an entry delivers stands at its place, and no other entry stands there.
#[tactic(auto, using(crate::proofs::PlaceLemmas::delivered_has_place))]
pub fn delivered_has_place()
    ensures { DeliveredHasPlace }
{}

/// A bio that names the place of a Deliver has as its result what was delivered.
#[tactic(auto, using(crate::proofs::PlaceLemmas::delivered_is_result))]
pub fn delivered_is_result()
    ensures { DeliveredIsResult }
{}

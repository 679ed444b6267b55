//! Laws of a provider that grows: each old offset lies where it lay.
ghost use Rattle.geo_laws_growth.specs.GrowthLaws.{AppendsHold, FlatStays, GrownConcat, GrownIsFound, GrowthIsNotSeen};

/// A concat with one more component has its old places, and the new ones behind them.
#[tactic(auto, using(crate::proofs::GrownPlaces::grown_concat))]
pub fn concats_grow()
    ensures { GrownConcat }
{}

/// After an append the geom, its provider and the new consumer are found as made, and all else as it was.
#[tactic(auto, using(crate::proofs::Grown::grown_is_found))]
pub fn grown_is_found()
    ensures { GrownIsFound }
{}

/// After an append ranks and counts are those of the graph with the new consumer alone.
#[tactic(auto, using(crate::proofs::Grown::growth_is_not_seen))]
pub fn growth_is_not_seen()
    ensures { GrowthIsNotSeen }
{}

/// An append that isn't refused keeps what a sound mesh has of ranks and counts.
#[tactic(auto, using(crate::proofs::Appended::appends_hold))]
pub fn appends_hold()
    ensures { AppendsHold }
{}

/// Each offset lies in the end where it lay: where each part stands as far as the way down goes, and so across an
/// append.
#[tactic(auto, using(crate::proofs::FlatGrown::flat_stays))]
pub fn flat_stays()
    ensures { FlatStays }
{}

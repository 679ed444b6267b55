//! Laws of places: a provider that takes a place of a standing concat or stripe keeps a firm mesh firm, one that is
//! sound, steady and fitting (geom(4)).
ghost use Rattle.geo_laws_making.specs.PlaceLaws.{TakesStayFirm};

/// A firm mesh stays firm where a provider takes a place of a standing assembly.
#[tactic(auto, using(crate::proofs::PlaceTaken::takes_stay))]
pub fn takes_stay_firm()
    ensures { TakesStayFirm }
{}

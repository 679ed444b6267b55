//! Laws of assemblies: a provider that takes a place of a concat or a stripe by its record keeps a firm mesh firm,
//! one that is sound, steady and fitting (geom(4)).
ghost use Rattle.geo_laws_making.specs.AssemblyLaws.{ConcatPlacesStayFirm, FinishesStayFirm, StripePlacesStayFirm};

/// A firm mesh stays firm where an assembly whose places are all filled gets its provider.
#[tactic(auto, using(crate::proofs::Finished::finishes_stay))]
pub fn finishes_stay_firm()
    ensures { FinishesStayFirm }
{}

/// A firm mesh stays firm where a provider takes a place of a concat.
#[tactic(auto, using(crate::proofs::PlacedInside::concat_places_stay))]
pub fn concat_places_stay_firm()
    ensures { ConcatPlacesStayFirm }
{}

/// A firm mesh stays firm where a provider takes a place of a stripe.
#[tactic(auto, using(crate::proofs::PlacedInside::stripe_places_stay))]
pub fn stripe_places_stay_firm()
    ensures { StripePlacesStayFirm }
{}

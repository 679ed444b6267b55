//! Laws of making: a new geom over some providers, with providers that are offered for taste, keeps a firm mesh
//! firm, one that is sound, steady and fitting (g_new_geomf, g_new_providerf).
ghost use Rattle.geo_laws_making.specs.MakingLaws.{MakesKeepFirm};

/// A firm mesh stays firm with a new geom that can be made over some providers, with providers that are offered.
#[tactic(auto, using(crate::proofs::Made::makes_keep))]
pub fn makes_keep_firm()
    ensures { MakesKeepFirm }
{}

//! Laws of a graph that has come to less: parts are gone, more is in error or withers, and marks are others. A firm
//! world, one that is sound, steady and fitting, stays firm with it (g_event(9), g_wither_geom(9)).
ghost use Rattle.geo_laws_life.specs.LessLaws.{LessIsFirm};

/// A firm world stays firm with a graph that has come to less, where providers of geoms that wither carry errors, no
/// consumer of DEV is marked, and the events are of providers that live.
#[tactic(auto, using(crate::proofs::LessFitting::less_is_firm))]
pub fn less_is_firm()
    ensures { LessIsFirm }
{}

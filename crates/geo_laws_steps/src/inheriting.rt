//! Laws of graphs that come from another by a step: each part is new or stood there (geom(4)).
ghost use Rattle.geo_laws_steps.specs.HeirLaws.{StepsInherit};

/// Each command but an append, an event, a step of a taste, a reap and a wash leave each geom, provider and
/// consumer what it was, but for flags, and for the configuration of a geom without providers; else it is gone or new.
#[tactic(auto, using(crate::proofs::Steps::steps_inherit))]
pub fn steps_inherit()
    ensures { StepsInherit }
{}

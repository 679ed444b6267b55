//! Laws of a graph that has come to more: one geom is new or has changed, and has more consumers and providers. A
//! firm world, one that is sound, steady and fitting, stays firm with it (geom(4)).
ghost use Rattle.geo_laws_making.specs.MoreLaws.{MoreIsFirm};

/// A firm world stays firm with a graph that has come to more.
#[tactic(auto, using(crate::proofs::MoreFirm::more_is_firm))]
pub fn more_is_firm()
    ensures { MoreIsFirm }
{}

//! Laws of the measure of a mesh: an Event, a Wash and a Judge that makes nothing lower it (g_event(9),
//! g_wither_geom(9), geom(4)).
ghost use Rattle.geo_laws_rest.specs.LossLaws.{EventsLower, IdleJudgesLower, WashesLower};

/// An Event lowers the measure: an offer, a spoil, an orphan or a growth.
#[tactic(auto, using(crate::proofs::EachStep::events_lower))]
pub fn events_lower()
    ensures { EventsLower }
{}

/// A Wash lowers the measure, but of a consumer while a taste is under way or to come.
#[tactic(auto, using(crate::proofs::EachStep::washes_lower))]
pub fn washes_lower()
    ensures { WashesLower }
{}

/// A Judge that makes nothing lowers the measure: the taste ends, a class is asked or done with, or a sector is read or
/// known as next.
#[tactic(auto, using(crate::proofs::EachStep::idle_judges_lower))]
pub fn idle_judges_lower()
    ensures { IdleJudgesLower }
{}

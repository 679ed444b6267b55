//! Laws of the measure of a mesh: each step of a request, a Go and a Reap lower it (g_bio(9)).
ghost use Rattle.geo_laws_rest.specs.MeasureLaws.{DeliversLower, GoesLower, ReapsLower, StartsLower, TakesLower, UpsLower};

/// A Take lowers the measure together with any Deliver that fits, and that Deliver lowers it alone.
#[tactic(auto, using(crate::proofs::EachStep::takes_lower, crate::proofs::EachStep::delivers_lower))]
pub fn takes_lower()
    ensures takes { TakesLower }
    ensures delivers { DeliversLower }
{}

/// A Start lowers the measure, whether the bio is bounced, sent to its disk or split.
#[tactic(auto, using(crate::proofs::EachStep::starts_lower))]
pub fn starts_lower()
    ensures { StartsLower }
{}

/// An Up lowers the measure, of a root and of a child.
#[tactic(auto, using(crate::proofs::EachStep::ups_lower))]
pub fn ups_lower()
    ensures { UpsLower }
{}

/// A Go lowers the measure, whatever its command answers, and so does a Reap.
#[tactic(auto, using(crate::proofs::EachStep::goes_lower, crate::proofs::EachStep::reaps_lower))]
pub fn goes_lower()
    ensures goes { GoesLower }
    ensures reaps { ReapsLower }
{}

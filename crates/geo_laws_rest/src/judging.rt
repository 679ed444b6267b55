//! Laws of the measure of a mesh: what a class makes in a taste costs less than what it could make, so each Judge
//! lowers the measure (geom(4)).
ghost use Rattle.geo_laws_rest.specs.CostLaws.{JudgesLower};

/// Each Judge lowers the measure: also one by which a class makes a geom, whose providers are offered for taste.
#[tactic(auto, using(crate::proofs::EachStep::judges_lower))]
pub fn judges_lower()
    ensures { JudgesLower }
{}

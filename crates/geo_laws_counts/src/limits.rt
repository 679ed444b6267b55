//! Laws of more and less demand, of exclusiveness and of the limit.
ghost use Rattle.geo_laws_counts.specs.LimitLaws.{CountsFallWithConsumers, CountsRiseWithGrants, ExclusiveMeans, LessStaysExclusive, LessStaysLimited, LimitMeans, SmallerStaysExclusive, SmallerStaysLimited, WantsFallWithConsumers, WantsRiseWithGrants};

/// No count and no want falls where grants rise, and none rises where consumers are left out.
#[tactic(auto, using(crate::proofs::Sums::counts_follow_demand))]
pub fn counts_follow_demand<C>()
    ensures counts { CountsRiseWithGrants C }
    ensures wants { WantsRiseWithGrants C }
    ensures fewer { CountsFallWithConsumers C }
    ensures fewer_wants { WantsFallWithConsumers C }
{}

/// What the tests of exclusiveness and of the limit say.
#[tactic(auto, using(crate::proofs::LimitFacts::limit_means))]
pub fn limits_mean<C>()
    ensures exclusive { ExclusiveMeans C }
    ensures limit { LimitMeans C }
{}

/// With less demand neither exclusiveness nor the limit begins to fail.
#[tactic(auto, using(crate::proofs::LimitFacts::less_is_allowed))]
pub fn less_is_allowed<C>()
    ensures fewer_exclusive { LessStaysExclusive C }
    ensures fewer_limited { LessStaysLimited C }
    ensures smaller_exclusive { SmallerStaysExclusive C }
    ensures smaller_limited { SmallerStaysLimited C }
{}

//! Laws of ranks (geom(4)), for any configuration of a class.
ghost use Rattle.geo_laws_graph.specs.RankLaws.{ClimbingIsRanked, DepthHolds, EdgesMakeLoops, EdgesRaiseRanks, FewerEdgesLowerRanks, LevelsAreEnough, OnlyProvidersAreReached, RankIsOneMore, RankIsTheOnly, ReachingIsAWay, SameEdgesKeepRanks, WaysAreShort};

/// A graph has ranks where some number of each geom falls along each edge; then its rank is the one function that is
/// one more than the highest below, however many levels more are counted.
pub fn ranks_are_determined<C>()
    ensures climbing { ClimbingIsRanked C }
    ensures one_more { RankIsOneMore C }
    ensures only { RankIsTheOnly C }
    ensures levels { LevelsAreEnough C }
{}

/// A geom reaches another where there is a way down to it, which ranks make short; what offers nothing isn't reached.
#[tactic(auto, using(crate::proofs::EdgeRanks::ways_lead_down))]
pub fn ways_lead_down<C>()
    ensures reaching { ReachingIsAWay C }
    ensures short { WaysAreShort C }
    ensures only_providers { OnlyProvidersAreReached C }
{}

/// The edges alone make the ranks.
pub fn edges_make_ranks<C>()
    ensures same { SameEdgesKeepRanks C }
    ensures fewer { FewerEdgesLowerRanks C }
    ensures raise { EdgesRaiseRanks C }
    ensures loops { EdgesMakeLoops C }
{}

/// Only DEV and TASTE may be deeper than the limit.
#[tactic(auto, using(crate::proofs::Depth::depth))]
pub fn depth_holds()
    ensures { DepthHolds }
{}

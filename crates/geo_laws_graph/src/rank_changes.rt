//! What each change of one thing does to ranks, for any configuration of a class.
ghost use Rattle.geo_laws_graph.specs.RankChangeLaws.{AddingKeepsRanks, AttachRaisesRanks, AttachesAreRanked, ConfigsKeepRanks, DetachLowersRanks, LoopsAreRefused, LoopsAreWaysBack, MadeGeomsAreRanked, OpeningRaisesRanks, OpensKeepOtherRanks, PlainChangesKeepRanks, RemovalLowersRanks, RemovingKeepsRanks, SoundRanksStay};

/// What changes no edge keeps the graph without loops and each rank.
#[tactic(auto, using(crate::proofs::RankChanges::ranks_stay))]
pub fn ranks_stay<C>()
    ensures plain { PlainChangesKeepRanks C }
    ensures adding { AddingKeepsRanks C }
    ensures removing { RemovingKeepsRanks C }
{}

/// Configurations have no part in ranks.
#[tactic(auto, using(crate::proofs::RankChanges::configs_keep_ranks))]
pub fn configs_keep_ranks<C, D>()
    ensures { ConfigsKeepRanks C D }
{}

/// What one edge more or less does to the ranks.
pub fn ranks_rise<C>()
    ensures attach { AttachRaisesRanks C }
    ensures opening { OpeningRaisesRanks C }
    ensures detach { DetachLowersRanks C }
    ensures removal { RemovalLowersRanks C }
{}

/// What a new consumer does to the ranks where its geom has no providers, as DEV, TASTE and each new geom.
pub fn other_ranks_stay<C>()
    ensures { OpensKeepOtherRanks C }
{}

/// The rank of a geom that a command makes.
pub fn made_geoms_are_ranked()
    ensures { MadeGeomsAreRanked }
{}

/// An attach is refused as a loop exactly where a geom would reach itself; one that isn't refused keeps the graph
/// without loops and within the depth.
pub fn attaches_are_ranked<C>()
    ensures refused { LoopsAreRefused C }
    ensures way_back { LoopsAreWaysBack C }
    ensures accepted { AttachesAreRanked C }
{}

/// The changes of one thing that keep the ranks of a sound world.
#[tactic(auto, using(crate::proofs::Holding::sound_ranks_stay))]
pub fn sound_ranks_stay()
    ensures { SoundRanksStay }
{}

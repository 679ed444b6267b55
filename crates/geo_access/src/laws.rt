//! Laws for callers: meshes that meet the conditions of the calls.
ghost use Rattle.geo_access.specs.GoneLaws.{RefusedConsumersGo};
ghost use Rattle.geo_access.specs.JoinLaws.{NewConsumersMayJoin};
ghost use Rattle.geo_access.specs.ShutLaws.{ShutMeshesAreCounted, MeshesStayShut};

/// A consumer just made may join, of whatever geom, where all counts are kept; and afterwards no consumer stands in the
/// way of `grant` and `release`.
#[tactic(auto, using(crate::proofs::NewJoiner::new_consumers_may_join))]
pub fn new_consumers_may_join<C>()
    ensures { NewConsumersMayJoin C }
{}

/// In a mesh in which nothing is open all counts are kept, and no note is set.
#[tactic(auto, using(crate::proofs::Shut::shut_meshes_are_counted))]
pub fn shut_meshes_are_counted<C>()
    ensures { ShutMeshesAreCounted C }
{}

/// Nothing is open in the first mesh, nor where a geom of a class other than DEV and TASTE, a provider or a consumer is
/// made, nor where a consumer is attached.
#[tactic(auto, using(crate::proofs::Shut::meshes_stay_shut))]
pub fn meshes_stay_shut<C>()
    ensures { MeshesStayShut C }
{}

/// A consumer just made that is taken away again, since it was refused, leaves nothing but a number that is used up,
/// whether it was attached in between or not; and all counts are kept.
#[tactic(auto, using(crate::proofs::Gone::refused_consumers_go))]
pub fn refused_consumers_go<C>()
    ensures { RefusedConsumersGo C }
{}

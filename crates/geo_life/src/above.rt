//! Walks over the consumers at a provider that aren't DEV's, in order of numbers: handles cost them nothing.
ghost use Rattle.std.specs.Prelude.{◌≡◌, [], MatchOption};
ghost use Rattle.geo_mesh.specs.Graph.{IsSoundGraph};
ghost use Rattle.geo_laws_graph.specs.LookupLaws.{left_from};
ghost use Rattle.geo_access.specs.Views.{IsNextConsumer, want_at};
ghost use Rattle.geo_life.specs.Life.{consumers_above};

use geo_base::{ConsId, ProvId};
use geo_mesh::{ConsRec, Topo};

/// The first consumer above the provider from a number on.
pub fn consumer_above<C>(topo: &Topo<C>, prov: ProvId, from: u64) -> Option<(ConsId, ConsRec)>
    ensures next { MatchOption result (left_from (λ y. y.number) from (consumers_above topo.now.topology prov) ≡ [])
        (λ m. IsNextConsumer topo.now.topology (consumers_above topo.now.topology prov) from m.0 m.1) }
    ensures sound { IsSoundGraph topo.now.topology }
    ensures want { MatchOption result (Unit {0}) (λ m. want_at topo.now m.0 ≡ m.1.want) }
{
    let id = topo.above(prov, from)?;
    let cons = topo.consumer(id)?;
    Some((id, *cons))
}

/// What each look-up tells of the mesh.
pub fn look<C>(topo: &Topo<C>)
    ensures sound { IsSoundGraph topo.now.topology }
{
    let _geom = topo.next_geom(0);
}

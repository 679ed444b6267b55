//! Providers that are orphaned, and those above that hear of it (g_orphan_provider(9)).
ghost use Rattle.std.specs.Prelude.{◌≡◌, ℕ, ◌+◌, ◌<◌, ◌≤◌, ◌^◌, [], ◌∷◌, IsSome, MatchOption};
ghost use Rattle.geo_model.specs.Topology.{geom_at};
ghost use Rattle.geo_model.specs.Events.{is_of_dev, dying_consumers, orphan_consumer, orphan};
ghost use Rattle.geo_mesh.specs.Cells.{consumer_seen};
ghost use Rattle.geo_laws_graph.specs.LookupLaws.{left_from};
ghost use Rattle.geo_life.specs.Life.{queued, sound_providers, RestStays, CountsStay};

use crate::above::consumer_above;
use crate::withers::wither_unless_withering;
use geo_access::consumer_at;
use geo_base::{ConsId, Kind, ProvId};
use geo_event::EventQueue;
use geo_mesh::{ConsRec, Topo};

/// What an Orphan event does to the mesh: the geom of each consumer at the provider that isn't of DEV withers, unless
/// it does so already. Handles are told by `next_dying`, and it doesn't look at them. It takes at most as many places
/// of the queue as there are providers without an error, one for each that gets one.
pub fn orphan<C>(topo: &mut Topo<C>, queue: &mut EventQueue, prov: ProvId)
    requires room { sound_providers topo.old.topology ≤ queue.old.spare }
    ensures orphaned { queued topo.new queue.new ≡ orphan (queued topo.old queue.old) prov }
    ensures rest { RestStays topo.old queue.old topo.new queue.new }
    ensures owed { queue.new.spare + sound_providers topo.old.topology
        ≡ queue.old.spare + sound_providers topo.new.topology }
    ensures kept { CountsStay topo.old topo.new }
{
    let mut from = 0;
    while let Some((id, cons)) = consumer_above(topo, prov, from) {
        orphan_consumer(topo, queue, &cons);
        from = id.number() + 1;
    }
}

/// Of the consumers of DEV at a provider, whose handles become dead once it is orphaned, the first from a number on.
pub fn next_dying<C>(topo: &Topo<C>, prov: ProvId, from: u64) -> Option<ConsId>
    ensures next { MatchOption result (left_from (λ n. n) from (dying_consumers topo.now.topology prov) ≡ [])
        (λ c. left_from (λ n. n) from (dying_consumers topo.now.topology prov)
        ≡ c ∷ left_from (λ n. n) (c + 1) (dying_consumers topo.now.topology prov)) }
    ensures known { MatchOption result (Unit {0}) (λ c. c < topo.now.topology.next_consumer) }
    ensures past { MatchOption result (Unit {0}) (λ c. from ≤ c) }
    ensures fits { topo.now.topology.next_consumer < 2 ^ 64 }
{
    let mut rest = from;
    while let Some((id, cons)) = consumer_at(topo, prov, rest) {
        if is_of_dev(topo, &cons) {
            return Some(id);
        }
        rest = id.number() + 1;
    }
    None
}

// The geom of the consumer withers, unless it is one of DEV.
fn orphan_consumer<C>(topo: &mut Topo<C>, queue: &mut EventQueue, cons: &ConsRec)
    requires geom { IsSome (geom_at topo.old.topology cons.now.geom) }
    requires room { sound_providers topo.old.topology ≤ queue.old.spare }
    ensures orphaned { (n : ℕ) → queued topo.new queue.new
        ≡ orphan_consumer (queued topo.old queue.old) (consumer_seen n cons.now) }
    ensures rest { RestStays topo.old queue.old topo.new queue.new }
    ensures owed { queue.new.spare + sound_providers topo.old.topology
        ≡ queue.old.spare + sound_providers topo.new.topology }
    ensures next { topo.new.topology.next_consumer ≡ topo.old.topology.next_consumer }
{
    if !is_of_dev(topo, cons) {
        wither_unless_withering(topo, queue, cons.geom);
    }
}

// Whether the consumer is one of DEV.
fn is_of_dev<C>(topo: &Topo<C>, cons: &ConsRec) -> bool
    ensures { (n : ℕ) → result ≡ is_of_dev topo.now.topology (consumer_seen n cons.now) }
{
    topo.geom(cons.geom)
        .is_some_and(|geom| geom.kind == Kind::Dev)
}

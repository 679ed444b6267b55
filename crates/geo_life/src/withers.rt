//! Geoms that wither, and providers that are orphaned (g_wither_geom(9), g_orphan_provider(9)).
ghost use Rattle.std.specs.Prelude.{◌≡◌, ◌+◌, ◌≤◌, IsSome, IsSomeAnd, false, if◌then◌else◌};
ghost use Rattle.geo_model.specs.Topology.{geom_at, provider_at};
ghost use Rattle.geo_model.specs.Events.{orphan_provider, wither, wither_unless_withering};
ghost use Rattle.geo_mesh.specs.Graph.{IsSoundGraph};
ghost use Rattle.geo_life.specs.Life.{queued, sound_providers, RestStays, CountsStay};

use geo_access::provider_of;
use geo_base::{GeomId, ProvId};
use geo_event::EventQueue;
use geo_mesh::Topo;
use geo_model::Event;

/// The geom withers, and each of its providers without an error is orphaned: it gets an error, and an Orphan event is
/// posted for its consumers (g_wither_geom(9)). It takes at most as many places of the queue as there are providers
/// without an error, one for each that gets one.
pub fn wither<C>(topo: &mut Topo<C>, queue: &mut EventQueue, geom: GeomId)
    requires lives { IsSome (geom_at topo.old.topology geom) }
    requires room { sound_providers topo.old.topology ≤ queue.old.spare }
    ensures withered { queued topo.new queue.new ≡ wither (queued topo.old queue.old) geom }
    ensures rest { RestStays topo.old queue.old topo.new queue.new }
    ensures owed { queue.new.spare + sound_providers topo.old.topology
        ≡ queue.old.spare + sound_providers topo.new.topology }
    ensures kept { CountsStay topo.old topo.new }
{
    topo.set_withering(geom);
    let mut from = 0;
    while let Some((id, prov)) = provider_of(topo, geom, from) {
        orphan_unless_errored(topo, queue, id, prov.errored);
        from = id.number() + 1;
    }
}

/// The same, unless the geom withers already.
pub fn wither_unless_withering<C>(topo: &mut Topo<C>, queue: &mut EventQueue, geom: GeomId)
    requires lives { IsSome (geom_at topo.old.topology geom) }
    requires room { sound_providers topo.old.topology ≤ queue.old.spare }
    ensures withered { queued topo.new queue.new ≡ wither_unless_withering (queued topo.old queue.old) geom }
    ensures rest { RestStays topo.old queue.old topo.new queue.new }
    ensures owed { queue.new.spare + sound_providers topo.old.topology
        ≡ queue.old.spare + sound_providers topo.new.topology }
    ensures kept { CountsStay topo.old topo.new }
{
    if !topo.is_withering(geom) {
        wither(topo, queue, geom);
    }
}

// The provider is orphaned, unless it carries an error.
fn orphan_unless_errored<C>(topo: &mut Topo<C>, queue: &mut EventQueue, prov: ProvId, errored: bool)
    requires lives { IsSomeAnd (provider_at topo.old.topology prov) (λ x. x.errored ≡ errored) }
    requires sound { IsSoundGraph topo.old.topology }
    requires room { sound_providers topo.old.topology ≤ queue.old.spare }
    ensures orphaned { queued topo.new queue.new
        ≡ (if errored then queued topo.old queue.old else orphan_provider (queued topo.old queue.old) prov) }
    ensures rest { RestStays topo.old queue.old topo.new queue.new }
    ensures owed { queue.new.spare + sound_providers topo.old.topology
        ≡ queue.old.spare + sound_providers topo.new.topology }
{
    if !errored {
        orphan_provider(topo, queue, prov);
    }
}

// The provider, which carries no error yet, gets one, and its consumers are to hear of it.
fn orphan_provider<C>(topo: &mut Topo<C>, queue: &mut EventQueue, prov: ProvId)
    requires lives { IsSomeAnd (provider_at topo.old.topology prov) (λ x. x.errored ≡ false) }
    requires sound { IsSoundGraph topo.old.topology }
    requires room { sound_providers topo.old.topology ≤ queue.old.spare }
    ensures orphaned { queued topo.new queue.new ≡ orphan_provider (queued topo.old queue.old) prov }
    ensures rest { RestStays topo.old queue.old topo.new queue.new }
    ensures owed { queue.new.spare + sound_providers topo.old.topology
        ≡ queue.old.spare + sound_providers topo.new.topology }
{
    topo.set_error(prov);
    queue.post(Event::Orphan(prov));
}

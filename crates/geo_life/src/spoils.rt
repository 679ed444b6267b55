//! Providers that are written for the first time, and consumers that are spoiled by it (g_spoil(9)).
ghost use Rattle.std.specs.Prelude.{◌≡◌, ℕ, ◌+◌, ◌≤◌, ◌==◌, ◌&&◌, ◌||◌, IsSome, true, false, if◌then◌else◌};
ghost use Rattle.std.specs.Option.{option_map_or};
ghost use Rattle.geo_base.specs.declared.request.Counts.{Counts};
ghost use Rattle.geo_base.specs.declared.kind.Kind.TheVariants as kinds;
ghost use Rattle.geo_model.specs.Words.{is_kind};
ghost use Rattle.geo_model.specs.Topology.{geom_at, consumer_at, set_marks};
ghost use Rattle.geo_model.specs.Events.{mark_spoiled, spoil_at, spoil_consumer, spoil};
ghost use Rattle.geo_mesh.specs.Cells.{consumer_seen};
ghost use Rattle.geo_mesh.specs.Topo.{with_topology};
ghost use Rattle.geo_life.specs.Life.{queued, sound_providers, IsDevMade, AreHandlesUnmarked, RestStays, AreStored, CountsStay};

use crate::above::consumer_above;
use crate::withers::wither_unless_withering;
use geo_base::{ConsId, Kind, ProvId};
use geo_event::EventQueue;
use geo_mesh::{ConsRec, Topo};
use geo_model::Event;

/// Marks the consumers of the provider that have to go because it is written: those of a geom that a taste made, or of
/// TASTE, that hold no write count. The wants are read as stored, so the clause is of all grants by which these are
/// what the model has the consumers want. Handles are never among them, and it doesn't look at them.
pub fn mark_spoiled<C>(topo: &mut Topo<C>, prov: ProvId)
    requires made { IsDevMade topo.old.topology }
    ensures marked { (granted : ℕ → Counts) → AreStored granted topo.old
        → topo.new.topology ≡ mark_spoiled granted topo.old.topology prov }
    ensures mesh { topo.new ≡ with_topology topo.old topo.new.topology }
    ensures kept { CountsStay topo.old topo.new }
{
    let mut from = 0;
    while let Some((id, cons)) = consumer_above(topo, prov, from) {
        mark_if_due(topo, id, &cons);
        from = id.number() + 1;
    }
}

/// Marks them, and posts Spoil for the provider, in one place of the queue.
pub fn spoil_at<C>(topo: &mut Topo<C>, queue: &mut EventQueue, prov: ProvId)
    requires made { IsDevMade topo.old.topology }
    requires room { 1 ≤ queue.old.spare }
    ensures spoiled { (granted : ℕ → Counts) → AreStored granted topo.old
        → queued topo.new queue.new ≡ spoil_at granted (queued topo.old queue.old) prov }
    ensures rest { RestStays topo.old queue.old topo.new queue.new }
    ensures room { queue.new.spare + 1 ≡ queue.old.spare }
    ensures kept { CountsStay topo.old topo.new }
{
    mark_spoiled(topo, prov);
    queue.post(Event::Spoil(prov));
}

/// What a Spoil event does: each marked consumer of the provider loses its mark, and its geom withers, unless it does
/// so already. Handles are never marked, and it doesn't look at them. It takes at most as many places of the queue as
/// there are providers without an error, one for each that gets one.
pub fn spoil<C>(topo: &mut Topo<C>, queue: &mut EventQueue, prov: ProvId)
    requires unmarked { AreHandlesUnmarked topo.old.topology }
    requires room { sound_providers topo.old.topology ≤ queue.old.spare }
    ensures spoiled { queued topo.new queue.new ≡ spoil (queued topo.old queue.old) prov }
    ensures rest { RestStays topo.old queue.old topo.new queue.new }
    ensures owed { queue.new.spare + sound_providers topo.old.topology
        ≡ queue.old.spare + sound_providers topo.new.topology }
    ensures kept { CountsStay topo.old topo.new }
{
    let mut from = 0;
    while let Some((id, cons)) = consumer_above(topo, prov, from) {
        spoil_if_marked(topo, queue, id, &cons);
        from = id.number() + 1;
    }
}

// Marks the consumer if it has to go.
fn mark_if_due<C>(topo: &mut Topo<C>, id: ConsId, cons: &ConsRec)
    requires lives { IsSome (consumer_at topo.old.topology id) }
    ensures marked { topo.new ≡ with_topology topo.old (if (cons.now.want.w == 0)
        && option_map_or (λ g. g.automatic || is_kind g.kind kinds.Taste) (geom_at topo.old.topology cons.now.geom)
        false then set_marks topo.old.topology (λ x. x.number == id) true else topo.old.topology) }
{
    if is_to_spoil(topo, cons) {
        topo.set_spoiled(id, true);
    }
}

// The consumer, if it is marked, loses its mark, and its geom withers.
fn spoil_if_marked<C>(topo: &mut Topo<C>, queue: &mut EventQueue, id: ConsId, cons: &ConsRec)
    requires lives { IsSome (consumer_at topo.old.topology id) }
    requires geom { IsSome (geom_at topo.old.topology cons.now.geom) }
    requires room { sound_providers topo.old.topology ≤ queue.old.spare }
    ensures spoiled { queued topo.new queue.new ≡ (if cons.now.spoiled
        then spoil_consumer (queued topo.old queue.old) (consumer_seen id cons.now) else queued topo.old queue.old) }
    ensures rest { RestStays topo.old queue.old topo.new queue.new }
    ensures owed { queue.new.spare + sound_providers topo.old.topology
        ≡ queue.old.spare + sound_providers topo.new.topology }
    ensures next { topo.new.topology.next_consumer ≡ topo.old.topology.next_consumer }
{
    if cons.spoiled {
        topo.set_spoiled(id, false);
        wither_unless_withering(topo, queue, cons.geom);
    }
}

// Whether a consumer at a provider that is written has to go: it isn't a writer, and is of an automatic geom or of
// TASTE.
fn is_to_spoil<C>(topo: &Topo<C>, cons: &ConsRec) -> bool
    ensures { result ≡ ((cons.now.want.w == 0)
        && option_map_or (λ g. g.automatic || is_kind g.kind kinds.Taste) (geom_at topo.now.topology cons.now.geom)
        false) }
{
    cons.want.w == 0
        && topo
            .geom(cons.geom)
            .is_some_and(|geom| geom.automatic || geom.kind == Kind::Taste)
}

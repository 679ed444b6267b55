//! Providers that have grown (g_resize_provider(9)).
ghost use Rattle.std.specs.Prelude.{◌≡◌, ℕ, ◌+◌, ◌≤◌, ◌&&◌, not, fold, false, IsSome, if◌then◌else◌};
ghost use Rattle.std.specs.Option.{option_map_or};
ghost use Rattle.geo_base.specs.declared.request.Counts.{Counts};
ghost use Rattle.geo_model.specs.Topology.{geom_at, attached_to};
ghost use Rattle.geo_model.specs.Demand.{is_zero};
ghost use Rattle.geo_model.specs.Events.{wither, outgrow_consumer, resize};
ghost use Rattle.geo_life.specs.Life.{queued, sound_providers, IsDevMade, RestStays, AreStored, CountsStay};

use crate::above::consumer_above;
use crate::announces::offer_again;
use crate::withers::wither;
use geo_access::is_zero;
use geo_base::ProvId;
use geo_event::EventQueue;
use geo_mesh::{ConsRec, Topo};

/// What a Resize event does: each geom over the provider that a taste made, that isn't in use and doesn't wither yet,
/// withers, and the provider is offered for taste again, unless it carries an error or its geom withers. It doesn't
/// look at handles. It takes at most one place of the queue more than there are providers without an error.
pub fn resize<C>(topo: &mut Topo<C>, queue: &mut EventQueue, prov: ProvId)
    requires made { IsDevMade topo.old.topology }
    requires room { sound_providers topo.old.topology + 1 ≤ queue.old.spare }
    ensures resized { (granted : ℕ → Counts) → AreStored granted topo.old
        → queued topo.new queue.new ≡ resize granted (queued topo.old queue.old) prov }
    ensures rest { RestStays topo.old queue.old topo.new queue.new }
    ensures owed { queue.old.spare + sound_providers topo.new.topology
        ≤ queue.new.spare + sound_providers topo.old.topology + 1 }
    ensures kept { CountsStay topo.old topo.new }
{
    outgrow(topo, queue, prov);
    offer_again(topo, queue, prov);
}

// Each of these geoms withers.
fn outgrow<C>(topo: &mut Topo<C>, queue: &mut EventQueue, prov: ProvId)
    requires made { IsDevMade topo.old.topology }
    requires room { sound_providers topo.old.topology ≤ queue.old.spare }
    ensures outgrown { (granted : ℕ → Counts) → AreStored granted topo.old → queued topo.new queue.new
        ≡ fold (outgrow_consumer granted) (queued topo.old queue.old) (attached_to topo.old.topology prov) }
    ensures rest { RestStays topo.old queue.old topo.new queue.new }
    ensures owed { queue.new.spare + sound_providers topo.old.topology
        ≡ queue.old.spare + sound_providers topo.new.topology }
    ensures kept { CountsStay topo.old topo.new }
{
    let mut from = 0;
    while let Some((id, cons)) = consumer_above(topo, prov, from) {
        wither_if_outgrown(topo, queue, &cons);
        from = id.number() + 1;
    }
}

// The geom of the consumer withers if its provider has outgrown it.
fn wither_if_outgrown<C>(topo: &mut Topo<C>, queue: &mut EventQueue, cons: &ConsRec)
    requires geom { IsSome (geom_at topo.old.topology cons.now.geom) }
    requires room { sound_providers topo.old.topology ≤ queue.old.spare }
    ensures outgrown { queued topo.new queue.new ≡ (if is_zero cons.now.want
        && option_map_or (λ g. g.automatic && not g.withering) (geom_at topo.old.topology cons.now.geom) false
        then wither (queued topo.old queue.old) cons.now.geom else queued topo.old queue.old) }
    ensures rest { RestStays topo.old queue.old topo.new queue.new }
    ensures owed { queue.new.spare + sound_providers topo.old.topology
        ≡ queue.old.spare + sound_providers topo.new.topology }
{
    if is_outgrown(topo, cons) {
        wither(topo, queue, cons.geom);
    }
}

// Whether a consumer's provider has outgrown it.
fn is_outgrown<C>(topo: &Topo<C>, cons: &ConsRec) -> bool
    ensures { result ≡ (is_zero cons.now.want
        && option_map_or (λ g. g.automatic && not g.withering) (geom_at topo.now.topology cons.now.geom) false) }
{
    is_zero(cons.want)
        && topo
            .geom(cons.geom)
            .is_some_and(|geom| geom.automatic && !geom.withering)
}

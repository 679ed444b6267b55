//! What of a withering geom can go, and its going (g_wither_geom(9)).
ghost use Rattle.std.specs.Prelude.{◌≡◌, ℕ, ◌+◌, ◌==◌, ◌&&◌, [], not, length, find, option_map, is_some, IsSome, IsSomeAnd, IfSome, IsTrue, Some, None, false, true};
ghost use Rattle.geo_base.specs.declared.request.Counts.{Counts};
ghost use Rattle.geo_model.specs.Topology.{geom_at, consumer_at, providers_of, consumers_of, attached_to, is_withering, remove_consumer};
ghost use Rattle.geo_model.specs.Demand.{is_zero};
ghost use Rattle.geo_model.specs.Freeing.{is_idle, wash_work_of, wash_where, washed};
ghost use Rattle.geo_mesh.specs.Topo.{no_counts, with_topology, without_consumer, IsButForRoom};
ghost use Rattle.geo_mesh.specs.Graph.{IsSoundGraph};
ghost use Rattle.geo_slots.specs.Slots.{value_at};
ghost use Rattle.geo_access.specs.Views.{want_at};
ghost use Rattle.geo_life.specs.Life.{queued, is_out, AreStored, CountsStay};
ghost use Rattle.geo_life.specs.Wash.{IsFree, IsIdle, washed_view};

use crate::above::look;
use geo_access::{consumer_of, is_zero, provider_of};
use geo_base::{ConsId, GeomId, ProvId};
use geo_event::EventQueue;
use geo_mesh::Topo;
use geo_model::WashWork;

/// What can be washed, in the withering geom with the smallest number in which anything can: a provider with nothing
/// attached, else a consumer that holds no count and through which no request is out, else the geom itself once it has
/// neither. It looks at that geom alone, which the mesh has marked.
pub fn wash_where<C>(topo: &Topo<C>) -> Option<WashWork>
    ensures found { (granted : ℕ → Counts) → AreStored granted topo.now
        → result ≡ wash_where granted (is_out topo.now) topo.now.topology }
    ensures free { IfSome result (IsFree topo.now) }
{
    let geom = topo.next_going(0)?;
    wash_work_of(topo, geom)
}

/// Takes away what `wash_where` told. The events of a provider that goes are cancelled (g_cancel_event).
pub fn wash<C: Drop>(topo: &mut Topo<C>, queue: &mut EventQueue, work: WashWork)
    requires free { IsFree topo.old work }
    requires dev { IsSomeAnd (geom_at topo.old.topology 1) (λ g. g.withering ≡ false) }
    requires taste { IsSomeAnd (geom_at topo.old.topology 2) (λ g. g.withering ≡ false) }
    ensures washed { queued topo.new queue.new ≡ washed (queued topo.old queue.old) work }
    ensures mesh { IsButForRoom topo.new (washed_view topo.old work) }
    ensures memory { queue.new.spare + length queue.new.events ≡ queue.old.spare + length queue.old.events }
    ensures kept { CountsStay topo.old topo.new }
{
    match work {
        WashWork::Provider(prov) => {
            topo.destroy_provider(prov);
            queue.cancel(prov);
        }
        WashWork::Consumer(cons) => drop_consumer(topo, cons),
        WashWork::Geom(geom) => {
            look(topo);
            topo.destroy_geom(geom);
        }
    }
}

/// Detaches a consumer that holds no count and through which no request is out, and destroys it (g_detach(9)): one of a
/// handle that is closed or reaped, or of a geom that is washed.
pub fn drop_consumer<C>(topo: &mut Topo<C>, cons: ConsId)
    requires lives { IsSome (consumer_at topo.old.topology cons) }
    requires no_counts { value_at topo.old.wants cons ≡ Some no_counts }
    requires none_out { value_at topo.old.active cons ≡ Some 0 }
    ensures dropped { topo.new ≡ without_consumer topo.old cons }
    ensures kept { CountsStay topo.old topo.new }
{
    detach_if_attached(topo, cons);
    topo.destroy_consumer(cons);
}

// Detaches the consumer, unless it is attached to nothing.
fn detach_if_attached<C>(topo: &mut Topo<C>, cons: ConsId)
    requires lives { IsSome (consumer_at topo.old.topology cons) }
    requires no_counts { value_at topo.old.wants cons ≡ Some no_counts }
    requires none_out { value_at topo.old.active cons ≡ Some 0 }
    ensures mesh { topo.new ≡ with_topology topo.old topo.new.topology }
    ensures loose { IfSome (consumer_at topo.new.topology cons) (λ x. x.provider ≡ None) }
    ensures same { remove_consumer topo.new.topology cons ≡ remove_consumer topo.old.topology cons }
    ensures sound { IsSoundGraph topo.old.topology }
{
    if is_attached(topo, cons) {
        topo.detach(cons);
    }
}

// Whether the consumer is attached to a provider.
fn is_attached<C>(topo: &Topo<C>, cons: ConsId) -> bool
    requires { IsSome (consumer_at topo.now.topology cons) }
    ensures attached { IsSomeAnd (consumer_at topo.now.topology cons) (λ x. result ≡ is_some x.provider) }
    ensures sound { IsSoundGraph topo.now.topology }
{
    topo.consumer(cons).unwrap().prov.is_some()
}

// What of a geom can go first.
fn wash_work_of<C>(topo: &Topo<C>, geom: GeomId) -> Option<WashWork>
    requires withering { IsTrue (is_withering topo.now.topology geom) }
    ensures found { (granted : ℕ → Counts) → AreStored granted topo.now
        → IfSome (geom_at topo.now.topology geom) (λ g. result
        ≡ wash_work_of granted (is_out topo.now) topo.now.topology g) }
    ensures free { IfSome result (IsFree topo.now) }
{
    if let Some(prov) = free_provider(topo, geom) {
        return Some(WashWork::Provider(prov));
    }
    if let Some(cons) = free_consumer(topo, geom) {
        return Some(WashWork::Consumer(cons));
    }
    if is_bare(topo, geom) {
        Some(WashWork::Geom(geom))
    } else {
        None
    }
}

// The first provider of the geom with nothing attached.
fn free_provider<C>(topo: &Topo<C>, geom: GeomId) -> Option<ProvId>
    ensures found { result ≡ option_map (λ p. p.number)
        (find (λ p. length (attached_to topo.now.topology p.number) == 0) (providers_of topo.now.topology geom)) }
    ensures free { IfSome result (λ p. attached_to topo.now.topology p ≡ []) }
{
    let mut from = 0;
    while let Some((id, _prov)) = provider_of(topo, geom, from) {
        if is_unused(topo, id) {
            return Some(id);
        }
        from = id.number() + 1;
    }
    None
}

// Whether nothing is attached to the provider.
fn is_unused<C>(topo: &Topo<C>, prov: ProvId) -> bool
    ensures unused { result ≡ (length (attached_to topo.now.topology prov) == 0) }
    ensures free { result ≡ true → attached_to topo.now.topology prov ≡ [] }
{
    topo.attached_to(prov, 0).is_none()
}

// The first consumer of the geom that holds no count, and through which no request is out.
fn free_consumer<C>(topo: &Topo<C>, geom: GeomId) -> Option<ConsId>
    ensures found { (granted : ℕ → Counts) → AreStored granted topo.now → result ≡ option_map (λ c. c.number)
        (find (is_idle granted (is_out topo.now) topo.now.topology) (consumers_of topo.now.topology geom)) }
    ensures free { IfSome result (λ c. IsIdle topo.now c) }
{
    let mut from = 0;
    while let Some((id, _cons)) = consumer_of(topo, geom, from) {
        if is_idle(topo, id) {
            return Some(id);
        }
        from = id.number() + 1;
    }
    None
}

// Whether the consumer holds no count, and no request is out through it.
fn is_idle<C>(topo: &Topo<C>, cons: ConsId) -> bool
    requires { IsSome (consumer_at topo.now.topology cons) }
    ensures idle { result ≡ (is_zero (want_at topo.now cons) && not (is_out topo.now cons)) }
    ensures free { result ≡ true → IsIdle topo.now cons }
{
    topo.consumer(cons)
        .is_some_and(|found| is_zero(found.want) && found.active == 0)
}

// Whether the geom has neither provider nor consumer.
fn is_bare<C>(topo: &Topo<C>, geom: GeomId) -> bool
    ensures bare { result ≡ ((length (providers_of topo.now.topology geom) == 0)
        && (length (consumers_of topo.now.topology geom) == 0)) }
{
    topo.provider_of(geom, 0).is_none() && topo.consumer_of(geom, 0).is_none()
}

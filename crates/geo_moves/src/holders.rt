//! Consumers of handles in the mesh: one that goes with what it was granted, and one that comes with a grant.
ghost use Rattle.std.specs.Prelude.{◌≡◌, ◌+◌, ◌≤◌, length, Some, None, false, IfOk, OnOk, OnErr, IsSome};
ghost use Rattle.geo_model.specs.Topology.{geom_at, provider_at};
ghost use Rattle.geo_model.specs.Demand.{is_zero};
ghost use Rattle.geo_model.specs.Opens.{grant_refusal, with_opener};
ghost use Rattle.geo_slots.specs.Slots.{value_at};
ghost use Rattle.geo_mesh.specs.Graph.{IsSoundGraph};
ghost use Rattle.geo_mesh.specs.Topo.{IsButForRoom};
ghost use Rattle.geo_access.specs.Access.{IsCounted, IsQuiet, IsPlaced, IsHolder, consumers_below, place_of};
ghost use Rattle.geo_access.specs.GoneLaws.{HasUsedNumber};
ghost use Rattle.geo_moves.specs.Holders.{HasGone, HasCome, grants_with, written, opened_mesh};
ghost use Rattle.geo_life.specs.Life.{IsDevMade};

use geo_access::{Steps, grant, release};
use geo_base::{ConsId, Counts, GeomId, NoMemory, ProvId};
use geo_event::EventQueue;
use geo_life::{announce_fallen, announce_risen, drop_consumer};
use geo_mesh::Topo;
use std::sync::ledger::Ledger;

/// The number of DEV.
const DEV: u64 = 1;

/// A consumer of a handle gives back what it was granted, is detached and destroyed (g_detach(9), g_destroy_consumer);
/// each provider whose write count comes to zero by that is offered for taste again. It takes no memory: at most one
/// place of the queue for each provider whose write count comes to zero.
pub fn give_back<C, L: Ledger>(
    topo: &mut Topo<C>,
    queue: &mut EventQueue,
    cons: ConsId,
    steps: &mut Steps<L>,
)
    requires counted { IsCounted topo.old }
    requires quiet { IsQuiet topo.old }
    requires placed { IsPlaced topo.old.topology }
    requires holder { IsHolder topo.old.topology cons }
    requires idle { value_at topo.old.active cons ≡ Some 0 }
    requires room { written topo.old ≤ queue.old.spare }
    ensures gone { HasGone topo.old queue.old cons topo.new queue.new }
    ensures bound { steps.new ≤ steps.old + consumers_below topo.old.topology (place_of topo.old.topology cons) }
{
    release(topo, cons, steps);
    drop_consumer(topo, cons);
    announce_fallen(topo, queue);
}

/// A new consumer of DEV comes to the provider with this grant (g_attach(9), g_access(9)), which nothing refuses; at
/// each provider whose write count leaves zero by that, consumers are marked and Spoil is posted. It takes at most one
/// place of the queue for each provider. After `NoMemory` nothing changed.
pub fn take_in<C, L: Ledger>(
    topo: &mut Topo<C>,
    queue: &mut EventQueue,
    prov: ProvId,
    add: Counts,
    steps: &mut Steps<L>,
) -> Result<ConsId, NoMemory>
    requires counted { IsCounted topo.old }
    requires quiet { IsQuiet topo.old }
    requires placed { IsPlaced topo.old.topology }
    requires unknown { value_at topo.old.active topo.old.topology.next_consumer ≡ None }
    requires lives { IsSome (provider_at topo.old.topology prov) }
    requires some { is_zero add ≡ false }
    requires allowed { grant_refusal (grants_with topo.old add) (with_opener topo.old.topology prov) prov ≡ None }
    requires room { length topo.old.topology.providers ≤ queue.old.spare }
    requires made { IsDevMade topo.old.topology }
    ensures number { IfOk result (λ cons. cons ≡ topo.old.topology.next_consumer) }
    ensures came { OnOk result (HasCome topo.old queue.old prov add topo.new queue.new) }
    ensures same { OnErr result (IsButForRoom topo.new topo.old) }
    ensures queue_stays { OnErr result (queue.new ≡ queue.old) }
    ensures bound { steps.new ≤ steps.old + consumers_below topo.old.topology prov }
{
    let cons = attach_new(topo, prov, add)?;
    match grant(topo, cons, add, steps) {
        Ok(()) => {}
        Err(_) => unreachable!(),
    }
    announce_risen(topo, queue);
    Ok(cons)
}

// A new consumer of DEV is attached to the provider. It holds nothing yet.
fn attach_new<C>(topo: &mut Topo<C>, prov: ProvId, add: Counts) -> Result<ConsId, NoMemory>
    requires counted { IsCounted topo.old }
    requires dev { IsSome (geom_at topo.old.topology 1) }
    requires lives { IsSome (provider_at topo.old.topology prov) }
    requires allowed { grant_refusal (grants_with topo.old add) (with_opener topo.old.topology prov) prov ≡ None }
    ensures number { IfOk result (λ cons. cons ≡ topo.old.topology.next_consumer) }
    ensures attached { OnOk result (topo.new ≡ opened_mesh topo.old prov topo.new.room) }
    ensures same { OnErr result (IsButForRoom topo.new topo.old) }
    ensures sound { IsSoundGraph topo.old.topology }
{
    let cons = topo.new_consumer(GeomId::new(DEV))?;
    match topo.attach(cons, prov) {
        Ok(()) => Ok(cons),
        Err(_) => unreachable!(),
    }
}

/// An open that is refused after its provider was found uses up one consumer number. After `NoMemory` nothing changed.
pub fn use_number<C>(topo: &mut Topo<C>) -> Result<(), NoMemory>
    requires counted { IsCounted topo.old }
    requires dev { IsSome (geom_at topo.old.topology 1) }
    requires unknown { value_at topo.old.active topo.old.topology.next_consumer ≡ None }
    ensures used { OnOk result (HasUsedNumber topo.old topo.new) }
    ensures same { OnErr result (IsButForRoom topo.new topo.old) }
{
    let cons = topo.new_consumer(GeomId::new(DEV))?;
    topo.destroy_consumer(cons);
    Ok(())
}

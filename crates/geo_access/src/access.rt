//! Access counts that are kept: demands that are tried, and that come (g_access(9)).
ghost use Rattle.std.specs.Prelude.{◌≡◌, ◌+◌, ◌≤◌, Some, false, OnOk, OnErr, IsSome};
ghost use Rattle.geo_model.specs.Words.{unless};
ghost use Rattle.geo_model.specs.Topology.{provider_at};
ghost use Rattle.geo_model.specs.Demand.{no_counts, is_zero, risen, fallen};
ghost use Rattle.geo_model.specs.Opens.{grant_refusal, with_grant, with_opener};
ghost use Rattle.geo_mesh.specs.Graph.{IsSoundGraph};
ghost use Rattle.geo_access.specs.Views.{IsTried, order_of, consumers_over};
ghost use Rattle.geo_slots.specs.Slots.{value_at};
ghost use Rattle.geo_access.specs.Access.{IsCounted, IsQuiet, IsPlaced, IsHolder, IsRefusal, IsNamed, clear_scratches, granted_by, granted_view, released_view, consumers_below, place_of, noted};

use crate::counts::{NO_COUNTS, Way};
use crate::decide::{answer, refusal};
use crate::finish::finish;
use crate::judge::{decide, judge};
use crate::order::{Order, gather};
use crate::refusal::GrantRefusal;
use crate::spread::{give, spread};
use crate::steps::Steps;
use geo_base::{ConsId, Counts, Errno, ProvId};
use geo_mesh::Topo;
use std::sync::ledger::Ledger;

/// Whether a consumer of DEV or TASTE, which is attached and holds nothing, may hold these counts (g_access(9)). It
/// takes at most one step for each consumer of a geom that is reached downwards.
///
/// # Errors
///
/// `Enxio` where a provider that is reached downwards carries an error: the one with the smallest number. Else
/// `Eperm` where at some provider a writer would stand beside another's exclusive count. Else `Eoverflow` where a
/// count of a provider would be above 2,147,483,647.
pub fn allowed<C, L: Ledger>(
    topo: &mut Topo<C>,
    cons: ConsId,
    add: Counts,
    steps: &mut Steps<L>,
) -> Result<(), GrantRefusal>
    requires counted { IsCounted topo.old }
    requires holder { IsHolder topo.old.topology cons }
    requires nothing { value_at topo.old.wants cons ≡ Some no_counts }
    requires some { is_zero add ≡ false }
    ensures same { topo.new ≡ topo.old }
    ensures answer { IsRefusal result
        (grant_refusal (with_grant (granted_by topo.old) cons add) topo.old.topology
        (place_of topo.old.topology cons)) }
    ensures named { IsNamed (with_grant (granted_by topo.old) cons add) topo.old.topology
        (place_of topo.old.topology cons) result }
    ensures bound { steps.new ≤ steps.old + consumers_below topo.old.topology (place_of topo.old.topology cons) }
{
    let prov = place_of(topo, cons);
    let order = try_out(topo, prov, add, Way::Rises, steps);
    let refused = judge(topo, prov, add, order);
    finish(topo, order, None);
    answer(refused, cons, prov)
}

/// The consumer of DEV or TASTE, which is attached and holds nothing, holds these counts from now on, unless
/// something refuses it, as `allowed` says. Then nothing changed. Providers whose write count left zero are noted,
/// and none may be noted before.
///
/// # Errors
///
/// As `allowed`.
pub fn grant<C, L: Ledger>(
    topo: &mut Topo<C>,
    cons: ConsId,
    add: Counts,
    steps: &mut Steps<L>,
) -> Result<(), GrantRefusal>
    requires counted { IsCounted topo.old }
    requires quiet { IsQuiet topo.old }
    requires placed { IsPlaced topo.old.topology }
    requires holder { IsHolder topo.old.topology cons }
    requires nothing { value_at topo.old.wants cons ≡ Some no_counts }
    requires some { is_zero add ≡ false }
    ensures granted { OnOk result (topo.new ≡ granted_view topo.old cons add) }
    ensures same { OnErr result (topo.new ≡ topo.old) }
    ensures counted { IsCounted topo.new }
    ensures risen { OnOk result (noted topo.new.risen
        ≡ risen (granted_by topo.old) topo.old.topology (with_grant (granted_by topo.old) cons add) topo.old.topology) }
    ensures answer { IsRefusal result
        (grant_refusal (with_grant (granted_by topo.old) cons add) topo.old.topology
        (place_of topo.old.topology cons)) }
    ensures named { IsNamed (with_grant (granted_by topo.old) cons add) topo.old.topology
        (place_of topo.old.topology cons) result }
    ensures bound { steps.new ≤ steps.old + consumers_below topo.old.topology (place_of topo.old.topology cons) }
{
    let prov = place_of(topo, cons);
    let order = try_out(topo, prov, add, Way::Rises, steps);
    if let Some(why) = judge(topo, prov, add, order) {
        finish(topo, order, None);
        return Err(refusal(why, cons, prov));
    }
    finish(topo, order, Some(Way::Rises));
    topo.set_want(cons, add);
    Ok(())
}

/// The consumer of DEV or TASTE, which is attached, holds nothing from now on. Providers whose write count came to
/// zero are noted, and none may be noted before.
pub fn release<C, L: Ledger>(topo: &mut Topo<C>, cons: ConsId, steps: &mut Steps<L>)
    requires counted { IsCounted topo.old }
    requires quiet { IsQuiet topo.old }
    requires placed { IsPlaced topo.old.topology }
    requires holder { IsHolder topo.old.topology cons }
    ensures released { topo.new ≡ released_view topo.old cons }
    ensures counted { IsCounted topo.new }
    ensures fallen { noted topo.new.fallen
        ≡ fallen (granted_by topo.old) topo.old.topology (with_grant (granted_by topo.old) cons no_counts)
        topo.old.topology }
    ensures bound { steps.new ≤ steps.old + consumers_below topo.old.topology (place_of topo.old.topology cons) }
{
    let prov = place_of(topo, cons);
    let held = topo.consumer(cons).unwrap().want;
    let order = try_out(topo, prov, held, Way::Falls, steps);
    finish(topo, order, Some(Way::Falls));
    topo.set_want(cons, NO_COUNTS);
}

/// Whether a consumer of DEV that comes to the provider may hold these counts: it is decided before there is one.
///
/// # Errors
///
/// As `allowed`.
pub fn could_grant<C, L: Ledger>(
    topo: &mut Topo<C>,
    prov: ProvId,
    add: Counts,
    steps: &mut Steps<L>,
) -> Result<(), Errno>
    requires counted { IsCounted topo.old }
    requires lives { IsSome (provider_at topo.old.topology prov) }
    ensures same { topo.new ≡ topo.old }
    ensures answer { result
        ≡ unless (grant_refusal (with_grant (granted_by topo.old) topo.old.topology.next_consumer add)
        (with_opener topo.old.topology prov) prov) tt }
    ensures bound { steps.new ≤ steps.old + consumers_below topo.old.topology prov }
{
    let order = try_out(topo, prov, add, Way::Rises, steps);
    let refused = decide(topo, prov, add, order);
    finish(topo, order, None);
    match refused {
        Some(errno) => Err(errno),
        None => Ok(()),
    }
}

// The provider to which the consumer is attached.
fn place_of<C>(topo: &Topo<C>, cons: ConsId) -> ProvId
    requires { IsHolder topo.now.topology cons }
    ensures place { result ≡ place_of topo.now.topology cons }
    ensures sound { IsSoundGraph topo.now.topology }
{
    topo.consumer(cons).unwrap().prov.unwrap()
}

/// Tries what a demand at the provider makes all below gain. The order of the geoms that were met.
pub fn try_out<C, L: Ledger>(
    topo: &mut Topo<C>,
    prov: ProvId,
    add: Counts,
    way: Way,
    steps: &mut Steps<L>,
) -> Order
    requires lives { IsSome (provider_at topo.old.topology prov) }
    requires clear { topo.old.scratches ≡ clear_scratches topo.old.topology }
    ensures tried { IsTried topo.old prov add way topo.new result }
    ensures sound { IsSoundGraph topo.old.topology }
    ensures steps { steps.new ≡ steps.old + consumers_over topo.old.topology (order_of topo.new result) }
{
    let geom = topo.provider(prov).unwrap().geom;
    let mut order = Order {
        head: geom.number(),
        count: 0,
    };
    gather(topo, geom, &mut order);
    give(topo, prov, add);
    spread(topo, order, way, steps);
    order
}

//! A consumer that joins a provider while its geom may be open: what is open above its geom is demanded downwards
//! through it (g_attach(9), g_access(9)).
ghost use Rattle.std.specs.Prelude.{◌≡◌, ◌+◌, ◌≤◌, Some, IsSome, OnOk, OnErr, fold};
ghost use Rattle.geo_model.specs.Topology.{provider_at, providers_of, attach};
ghost use Rattle.geo_model.specs.Rank.{attach_refusal};
ghost use Rattle.geo_model.specs.Demand.{no_counts, risen};
ghost use Rattle.geo_model.specs.Opens.{join_refusal};
ghost use Rattle.geo_slots.specs.Slots.{value_at};
ghost use Rattle.geo_mesh.specs.Topo.{with_topology};
ghost use Rattle.geo_mesh.specs.Graph.{IsSoundGraph};
ghost use Rattle.geo_mesh.specs.Refusals.{attach_errno};
ghost use Rattle.geo_access.specs.Access.{IsCounted, IsQuiet, granted_by, consumers_below, noted};
ghost use Rattle.geo_access.specs.Join.{IsLoose, IsCountedBut, IsPlacedBut, IsJoinRefusal, IsJoinNamed, joined_view, with_have_of, wanted, demand_told, attach_told, errored_of, errored_below, join_answer};

use crate::access::try_out;
use crate::counts::{NO_COUNTS, Way, Weight, add, made_of};
use crate::decide::{Refused, answer};
use crate::finish::finish;
use crate::judge::judge;
use crate::refusal::{GrantRefusal, JoinRefusal};
use crate::steps::Steps;
use crate::walk::provider_of;
use geo_base::{ConsId, Counts, GeomId, ProvId};
use geo_mesh::{AttachRefusal, Topo};
use std::sync::ledger::Ledger;

/// Attaches the consumer, which is attached to nothing and holds nothing, to the provider, and what is open above its
/// geom is demanded downwards from the provider, unless something refuses that. Then nothing changed. Afterwards all
/// counts are those of the new graph, and providers whose write count left zero are noted; none may be noted before.
///
/// What the model has such a consumer want before it is attached has no bound, so the condition leaves this one out:
/// the stored counts of all others are kept (`IsCountedBut`), and any other that isn't attached is of a geom without
/// providers (`IsPlacedBut`). Where all counts are kept a consumer just made meets that, since it has no counts and
/// no request is out through it (`new_consumers_may_join`).
///
/// It takes at most one step for each consumer of a geom that is reached downwards, and one for the consumer that
/// joins.
///
/// # Errors
///
/// `Enxio` where a provider that is reached downwards carries an error: the one with the smallest number. Else
/// `Eloop` where the consumer's geom would reach itself, else `Edeep` where the rank of a geom other than DEV and
/// TASTE would be above 32. Else `Eperm` where at some provider a writer would stand beside another's exclusive
/// count. Else `Eoverflow` where a count of a provider would be above 2,147,483,647.
pub fn join<C, L: Ledger>(
    topo: &mut Topo<C>,
    cons: ConsId,
    prov: ProvId,
    steps: &mut Steps<L>,
) -> Result<(), JoinRefusal>
    requires counted { IsCountedBut topo.old cons }
    requires quiet { IsQuiet topo.old }
    requires placed { IsPlacedBut topo.old.topology cons }
    requires loose { IsLoose topo.old cons }
    requires lives { IsSome (provider_at topo.old.topology prov) }
    ensures joined { OnOk result (topo.new ≡ joined_view topo.old cons prov) }
    ensures same { OnErr result (topo.new ≡ topo.old) }
    ensures counted { OnOk result (IsCounted topo.new) }
    ensures risen { OnOk result (noted topo.new.risen
        ≡ risen (granted_by topo.old) topo.old.topology (granted_by topo.old) topo.new.topology) }
    ensures answer { IsJoinRefusal result (join_refusal (granted_by topo.old) topo.old.topology cons prov) }
    ensures named { IsJoinNamed (granted_by topo.old) topo.old.topology cons prov result }
    ensures bound { steps.new ≤ steps.old + (consumers_below topo.old.topology prov + 1) }
{
    let add = wanted(topo, cons);
    steps.tick();
    let order = try_out(topo, prov, add, Way::Rises, steps);
    let refused = judge(topo, prov, add, order);
    if let Err(why) = admit(topo, cons, prov, refused) {
        finish(topo, order, None);
        return Err(why);
    }
    finish(topo, order, Some(Way::Rises));
    topo.set_want(cons, add);
    Ok(())
}

// Attaches the consumer, unless something refuses it: an error below, what an attach answers, or what refuses the
// demand.
fn admit<C>(
    topo: &mut Topo<C>,
    cons: ConsId,
    prov: ProvId,
    refused: Option<Refused>,
) -> Result<(), JoinRefusal>
    requires loose { IsLoose topo.old cons }
    requires nothing { value_at topo.old.wants cons ≡ Some no_counts }
    requires lives { IsSome (provider_at topo.old.topology prov) }
    requires sound { IsSoundGraph topo.old.topology }
    ensures attached { OnOk result (topo.new ≡ with_topology topo.old (attach topo.old.topology cons prov)) }
    ensures same { OnErr result (topo.new ≡ topo.old) }
    ensures answer { result ≡ join_answer refused (attach_refusal topo.old.topology cons prov) cons prov }
{
    if let Some(found) = errored_below(&refused) {
        return Err(JoinRefusal::Enxio { prov: found });
    }
    if let Err(why) = topo.attach(cons, prov) {
        return Err(not_attached(why, prov));
    }
    if let Err(why) = answer(refused, cons, prov) {
        topo.detach(cons);
        return Err(not_granted(why));
    }
    Ok(())
}

// The provider with an error that refuses the demand.
fn errored_below(refused: &Option<Refused>) -> Option<ProvId>
    ensures { result ≡ errored_below refused.now }
{
    match refused {
        Some(Refused::Named(why)) => errored_of(why),
        _ => None,
    }
}

// The provider with an error that a refusal names.
fn errored_of(why: &GrantRefusal) -> Option<ProvId>
    ensures { result ≡ errored_of why.now }
{
    match why {
        GrantRefusal::Enxio { prov } => Some(*prov),
        _ => None,
    }
}

// Why the consumer isn't attached.
fn not_attached(why: AttachRefusal, prov: ProvId) -> JoinRefusal
    ensures { result ≡ attach_told (attach_errno why) prov }
{
    match why {
        AttachRefusal::Enxio => JoinRefusal::Enxio { prov },
        AttachRefusal::Eloop => JoinRefusal::Eloop,
        AttachRefusal::Edeep => JoinRefusal::Edeep,
    }
}

// Why the demand is refused.
fn not_granted(why: GrantRefusal) -> JoinRefusal
    ensures { result ≡ demand_told why }
{
    match why {
        GrantRefusal::Enxio { prov } => JoinRefusal::Enxio { prov },
        GrantRefusal::Eperm {
            prov,
            writer,
            exclusive,
        } => JoinRefusal::Eperm {
            prov,
            writer,
            exclusive,
        },
        GrantRefusal::Eoverflow { prov } => JoinRefusal::Eoverflow { prov },
    }
}

// What the consumer wants by the counts of its geom's providers.
fn wanted<C>(topo: &Topo<C>, cons: ConsId) -> Counts
    requires { IsLoose topo.now cons }
    ensures wanted { result ≡ wanted topo.now cons }
    ensures sound { IsSoundGraph topo.now.topology }
{
    let geom = topo.consumer(cons).unwrap().geom;
    let sum = counts_of(topo, geom);
    match topo.geom(geom) {
        Some(found) => made_of(found.kind, Weight { sum, quiet: true }),
        None => NO_COUNTS,
    }
}

// The counts of the geom's providers together.
fn counts_of<C>(topo: &Topo<C>, geom: GeomId) -> Counts
    ensures { result ≡ fold (with_have_of topo.now) no_counts (providers_of topo.now.topology geom) }
{
    let mut sum = NO_COUNTS;
    let mut from = 0;
    while let Some((id, prov)) = provider_of(topo, geom, from) {
        sum = add(sum, prov.have);
        from = id.number() + 1;
    }
    sum
}

//! What a concat asks that gets one more component: the tests, the consumer that joins, and the provider that grows
//! (gconcat(8), g_attach(9), g_resize_provider(9)).
ghost use Rattle.std.specs.Prelude.{◌≡◌, ◌+◌, ◌≤◌, nat_le, false, length, List, None, IsSome, IfOk, IfSome, OnErr, true};
ghost use Rattle.std.specs.Option.{option_map_or};
ghost use Rattle.geo_model.specs.declared.command.LineCommand.{LineCommand};
ghost use Rattle.geo_model.specs.declared.step.Entry.{Entry};
ghost use Rattle.geo_model.specs.Words.{first_error};
ghost use Rattle.geo_model.specs.Topology.{consumers_of, geom_at, provider_at};
ghost use Rattle.geo_model.specs.Append.{append_tests, is_invalid_append};
ghost use Rattle.geo_slots.specs.Slots.{value_at};
ghost use Rattle.geo_mesh.specs.Graph.{IsSoundGraph};
ghost use Rattle.geo_mesh.specs.Topo.{IsButForRoom, is_provider_size};
ghost use Rattle.geo_access.specs.Access.{IsCounted, IsPlaced, IsQuiet, consumers_below};
ghost use Rattle.geo_access.specs.GoneLaws.{HasUsedNumber};
ghost use Rattle.geo_access.specs.Join.{errno_of_join};
ghost use Rattle.geo_life.specs.Life.{IsDevMade, notes};
ghost use Rattle.geo_state.specs.World.{world};
ghost use Rattle.geo_moves.specs.Appends.{AreNamed, HasJoined, IsLarger, is_misfit, larger_mesh, new_refusal};

use crate::above::is_growth_busy;
use crate::below::Below;
use crate::names::Growing;
use geo_access::{JoinRefusal, Steps, consumer_of, join};
use geo_base::{Errno, GeomId, MAX_COMPONENTS, MAX_MEDIA_BYTES, NoMemory, ProvId};
use geo_class::Config;
use geo_event::EventQueue;
use geo_life::announce_risen;
use geo_mesh::Topo;
use geo_model::Event;
use geo_state::State;
use std::alloc::Global;
use std::sync::ledger::Ledger;

/// What is against an append of the provider to the concat, decided before a consumer is made: EINVAL where a taste
/// made the concat, where it has 16 components, where the sector sizes differ or its provider would be larger than
/// `MAX_MEDIA_BYTES`; EBUSY while a request is on its way to its provider or to one above it, or such a one is tasted.
pub fn append_refusal(
    alloc: Global,
    state: &State,
    growing: &Growing,
    below: &Below,
) -> Result<Option<Errno>, NoMemory>
    ensures { IfOk result (λ r. (n : AreNamed state.now.topo.topology growing.now below.now)
        → (actors : List (List LineCommand)) (log : List Entry)
        → r ≡ first_error (append_tests (world actors log state.now) n.concat n.provider)) }
{
    if is_invalid(&state.topo, growing, below) {
        return Ok(Some(Errno::EINVAL));
    }
    if is_growth_busy(alloc, state, growing.prov)? {
        return Ok(Some(Errno::EBUSY));
    }
    Ok(None)
}

// Whether the concat can't get the provider, whatever is under way.
fn is_invalid(topo: &Topo<Config>, growing: &Growing, below: &Below) -> bool
    ensures { (n : AreNamed topo.now.topology growing.now below.now)
        → result ≡ is_invalid_append topo.now.topology n.concat n.provider }
{
    let automatic = is_automatic(topo, growing.geom);
    let full = is_full(topo, growing.geom);
    let misfit = is_misfit(topo, growing.prov, below.sector, below.size);
    automatic || (full || misfit)
}

// Whether a taste made the geom.
fn is_automatic(topo: &Topo<Config>, geom: GeomId) -> bool
    ensures automatic { result ≡ option_map_or (λ g. g.automatic) (geom_at topo.now.topology geom) false }
    ensures sound { IsSoundGraph topo.now.topology }
{
    match topo.geom(geom) {
        Some(found) => found.automatic,
        None => false,
    }
}

// Whether the geom has as many consumers as a concat may have.
fn is_full(topo: &Topo<Config>, geom: GeomId) -> bool
    ensures { result ≡ nat_le MAX_COMPONENTS (length (consumers_of topo.now.topology geom)) }
{
    let mut count = 0;
    let mut from = 0;
    while let Some((id, _cons)) = consumer_of(topo, geom, from) {
        count += 1;
        if count == MAX_COMPONENTS {
            return true;
        }
        from = id.number() + 1;
    }
    false
}

// Whether the provider has another sector size, or would be too large with so many bytes more.
fn is_misfit(topo: &Topo<Config>, prov: ProvId, sector: u32, size: u64) -> bool
    ensures { result ≡ option_map_or (is_misfit sector size) (provider_at topo.now.topology prov) false }
{
    match topo.provider(prov) {
        Some(found) => found.sector != sector || MAX_MEDIA_BYTES < found.size.saturating_add(size),
        None => false,
    }
}

/// A new consumer of the geom joins the provider, unless something refuses it: then its number is used up, and the
/// error comes back. Afterwards providers whose write count left zero are noted. After `NoMemory` all is as before.
pub fn join_new<L: Ledger>(
    topo: &mut Topo<Config>,
    geom: GeomId,
    prov: ProvId,
    steps: &mut Steps<L>,
) -> Result<Option<Errno>, NoMemory>
    requires counted { IsCounted topo.old }
    requires quiet { IsQuiet topo.old }
    requires placed { IsPlaced topo.old.topology }
    requires unknown { value_at topo.old.active topo.old.topology.next_consumer ≡ None }
    requires stands { IsSome (geom_at topo.old.topology geom) }
    requires lives { IsSome (provider_at topo.old.topology prov) }
    ensures answer { IfOk result (λ r. r ≡ new_refusal topo.old geom prov) }
    ensures joined { IfOk result (λ r. r ≡ None → HasJoined topo.old geom prov topo.new) }
    ensures refused { IfOk result (λ r. IsSome r → HasUsedNumber topo.old topo.new) }
    ensures same { OnErr result (IsButForRoom topo.new topo.old) }
    ensures bound { steps.new ≤ steps.old + (consumers_below topo.old.topology prov + 2) }
{
    let cons = topo.new_consumer(geom)?;
    if let Err(why) = join(topo, cons, prov, steps) {
        topo.destroy_consumer(cons);
        return Ok(Some(errno_of_join(&why)));
    }
    Ok(None)
}

// The error of a refused join.
fn errno_of_join(why: &JoinRefusal) -> Errno
    ensures { result ≡ errno_of_join why.now }
{
    match why {
        JoinRefusal::Enxio { .. } => Errno::ENXIO,
        JoinRefusal::Eloop => Errno::ELOOP,
        JoinRefusal::Edeep => Errno::EDEEP,
        JoinRefusal::Eperm { .. } => Errno::EPERM,
        JoinRefusal::Eoverflow { .. } => Errno::EOVERFLOW,
    }
}

/// The geom gets the configuration and its provider the size, in bytes; at each provider that is noted to have risen
/// consumers are marked and Spoil is posted, and then Resize is posted. It takes a place of the queue for each note,
/// and one more.
pub fn grow_provider(
    topo: &mut Topo<Config>,
    queue: &mut EventQueue,
    growing: &Growing,
    config: Config,
    size: u64,
)
    requires stands { IsSome (geom_at topo.old.topology growing.now.geom) }
    requires lives { IsSome (provider_at topo.old.topology growing.now.prov) }
    requires sectors { IfSome (provider_at topo.old.topology growing.now.prov) (λ x.
        is_provider_size size x.sector ≡ true) }
    requires grows { IfSome (provider_at topo.old.topology growing.now.prov) (λ x. x.size ≤ size) }
    requires made { IsDevMade (larger_mesh topo.old growing.now config size).topology }
    requires counted { IsCounted (larger_mesh topo.old growing.now config size) }
    requires room { notes topo.old.risen + 1 ≤ queue.old.spare }
    ensures { IsLarger topo.old queue.old growing.now config size topo.new queue.new }
{
    topo.swap_config(growing.geom, config);
    topo.set_size(growing.prov, size);
    announce_risen(topo, queue);
    queue.post(Event::Resize(growing.prov));
}

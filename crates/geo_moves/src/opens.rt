//! Providers that are opened.
ghost use Rattle.std.specs.Prelude.{ℕ, ◌≡◌, ◌+◌, ◌≤◌, List, Some, None, false, length, IfSome, IfOk, OnOk, OnErr, IsSome};
ghost use Rattle.std.specs.Option.{option_map_or};
ghost use Rattle.geo_model.specs.declared.command.LineCommand.{LineCommand};
ghost use Rattle.geo_model.specs.declared.step.Entry.{Entry};
ghost use Rattle.geo_model.specs.Topology.{find_provider, provider_at};
ghost use Rattle.geo_model.specs.Demand.{is_zero};
ghost use Rattle.geo_model.specs.Opens.{grant_refusal, with_opener};
ghost use Rattle.geo_model.specs.HandleCommands.{do_open, with_handle};
ghost use Rattle.geo_model.specs.WorldEvents.{after_open};
ghost use Rattle.geo_handles.specs.Handles.{named_handle};
ghost use Rattle.geo_access.specs.Access.{consumers_below};
ghost use Rattle.geo_state.specs.World.{world};
ghost use Rattle.geo_state.specs.Holds.{Holds};
ghost use Rattle.geo_state.specs.Steps.{Stands, Does, SameWorld};
ghost use Rattle.geo_moves.specs.Holders.{grants_with};
ghost use Rattle.geo_moves.specs.Handles.{IsOpenRefusal, HasRoom, IsRoomed, refused_world};

use crate::holders::{take_in, use_number};
use crate::reply::{done, refused};
use geo_access::{Steps, could_grant};
use geo_base::{Counts, Errno, Name, NoMemory, ProvId};
use geo_model::Outcome;
use geo_state::State;
use std::sync::ledger::Ledger;

/// More providers than so many aren't counted.
const MOST: u64 = 0x1000_0000_0000_0000;

/// What refuses an open, if anything does, decided before its consumer exists: EEXIST where the actor has a handle of
/// the name, ENOENT where no provider has the provider's name, else what refuses the counts. Nothing changes.
pub fn open_refusal<L: Ledger>(
    state: &mut State,
    actor: u32,
    name: &Name,
    prov: &Name,
    grant: Counts,
    steps: &mut Steps<L>,
) -> Option<Errno>
    requires kept { Holds state.old }
    ensures answer { IsOpenRefusal state.old actor name.now prov.now grant result }
    ensures same { state.new ≡ state.old }
    ensures bound { steps.new ≤ steps.old + option_map_or (consumers_below state.old.topo.topology)
        (find_provider state.old.topo.topology prov.now) 0 }
{
    if state.handles.by_name(actor, name).is_some() {
        return Some(Errno::EEXIST);
    }
    let Some(found) = state.topo.find(prov) else {
        return Some(Errno::ENOENT);
    };
    match could_grant(&mut state.topo, found, grant, steps) {
        Ok(()) => None,
        Err(errno) => Some(errno),
    }
}

/// An open of a provider by its name, with some counts, where it is decided what refuses it, if anything does. If
/// nothing does, the actor has a new handle of the name, whose consumer is attached to the provider and holds the
/// counts; at each provider whose write count leaves zero by that, consumers are marked and Spoil is posted. One that
/// is refused after its provider was found uses up one consumer number. After `NoMemory` all is as before.
pub fn open<L: Ledger>(
    state: &mut State,
    line: u32,
    actor: u32,
    name: &Name,
    prov: &Name,
    grant: Counts,
    refusal: Option<Errno>,
    steps: &mut Steps<L>,
) -> Result<Outcome, NoMemory>
    requires stands { Stands state.old }
    requires some { is_zero grant ≡ false }
    requires decided { IsOpenRefusal state.old actor name.now prov.now grant refusal }
    ensures made { IfOk result (λ o. (log : List Entry)
        → Does (λ w. do_open w line actor name.now prov.now grant) log state.old state.new o) }
    ensures same { OnErr result (SameWorld state.old state.new) }
    ensures kept { Holds state.new }
    ensures traffic { state.new.traffic ≡ state.old.traffic }
    ensures bound { steps.new ≤ steps.old + option_map_or (consumers_below state.old.topo.topology)
        (find_provider state.old.topo.topology prov.now) 0 }
{
    if let Some(errno) = refusal {
        refuse(state, actor, name, prov)?;
        return Ok(refused(line, errno));
    }
    admit(state, actor, name, prov, grant, steps)?;
    Ok(done(line))
}

// An open that is refused after its provider was found uses up a consumer number.
fn refuse(state: &mut State, actor: u32, name: &Name, prov: &Name) -> Result<(), NoMemory>
    requires kept { Holds state.old }
    ensures made { OnOk result ((actors : List (List LineCommand)) (log : List Entry) → world actors log state.new
        ≡ refused_world (world actors log state.old) actor name.now prov.now) }
    ensures same { OnErr result (SameWorld state.old state.new) }
    ensures kept { Holds state.new }
    ensures traffic { state.new.traffic ≡ state.old.traffic }
{
    if state.handles.by_name(actor, name).is_some() || state.topo.find(prov).is_none() {
        return Ok(());
    }
    use_number(&mut state.topo)
}

// An open that nothing refuses.
fn admit<L: Ledger>(
    state: &mut State,
    actor: u32,
    name: &Name,
    prov: &Name,
    grant: Counts,
    steps: &mut Steps<L>,
) -> Result<(), NoMemory>
    requires stands { Stands state.old }
    requires some { is_zero grant ≡ false }
    requires decided { IsOpenRefusal state.old actor name.now prov.now grant None }
    ensures made { OnOk result ((actors : List (List LineCommand)) (log : List Entry)
        → IfSome (find_provider state.old.topo.topology prov.now) (λ p. world actors log state.new
        ≡ after_open (world actors log state.old) (with_handle (world actors log state.old) actor name.now p grant))) }
    ensures same { OnErr result (SameWorld state.old state.new) }
    ensures kept { Holds state.new }
    ensures traffic { state.new.traffic ≡ state.old.traffic }
    ensures bound { steps.new ≤ steps.old + option_map_or (consumers_below state.old.topo.topology)
        (find_provider state.old.topo.topology prov.now) 0 }
{
    make_room(state)?;
    let Some(found) = state.topo.find(prov) else {
        unreachable!();
    };
    open_at(state, actor, name, found, grant, steps)
}

// Room for one more handle, and for the events.
fn make_room(state: &mut State) -> Result<(), NoMemory>
    requires kept { Holds state.old }
    ensures room { OnOk result (HasRoom state.new) }
    ensures rest { IsRoomed state.old state.new }
    ensures kept { Holds state.new }
    ensures traffic { state.new.traffic ≡ state.old.traffic }
{
    if state.providers > MOST {
        return Err(NoMemory);
    }
    state.queue.reserve(3 * state.providers)?;
    state.handles.reserve(1)
}

// An open of a provider that is there, where nothing refuses it and there is room for it.
fn open_at<L: Ledger>(
    state: &mut State,
    actor: u32,
    name: &Name,
    prov: ProvId,
    grant: Counts,
    steps: &mut Steps<L>,
) -> Result<(), NoMemory>
    requires stands { Stands state.old }
    requires room { HasRoom state.old }
    requires some { is_zero grant ≡ false }
    requires free { named_handle state.old.handles.handles actor name.now ≡ None }
    requires lives { IsSome (provider_at state.old.topo.topology prov) }
    requires allowed { grant_refusal (grants_with state.old.topo grant)
        (with_opener state.old.topo.topology prov) prov ≡ None }
    ensures made { OnOk result ((actors : List (List LineCommand)) (log : List Entry) → world actors log state.new
        ≡ after_open (world actors log state.old)
        (with_handle (world actors log state.old) actor name.now prov grant)) }
    ensures same { OnErr result (SameWorld state.old state.new) }
    ensures kept { Holds state.new }
    ensures traffic { state.new.traffic ≡ state.old.traffic }
    ensures bound { steps.new ≤ steps.old + consumers_below state.old.topo.topology prov }
{
    let cons = take_in(&mut state.topo, &mut state.queue, prov, grant, steps)?;
    state.handles.open(actor, name, cons, grant);
    Ok(())
}

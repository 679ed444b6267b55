//! A standing concat that gets one more component, and so grows (gconcat(8), g_resize_provider(9)).
ghost use Rattle.std.specs.Prelude.{◌≡◌, ◌+◌, ◌*◌, ◌≤◌, length, List, None, IsSome, IfOk, OnErr};
ghost use Rattle.std.specs.Option.{option_map_or};
ghost use Rattle.geo_model.specs.declared.command.LineCommand.{LineCommand};
ghost use Rattle.geo_model.specs.declared.step.Entry.{Entry};
ghost use Rattle.geo_model.specs.Acceptance.{add_place};
ghost use Rattle.geo_model.specs.Append.{component_refusal, do_append, growing_concat};
ghost use Rattle.geo_model.specs.GeomCommands.{found_provider};
ghost use Rattle.geo_model.specs.Topology.{find_provider};
ghost use Rattle.geo_model.specs.HandleCommands.{without_number};
ghost use Rattle.geo_access.specs.Access.{consumers_below};
ghost use Rattle.geo_state.specs.Holds.{Holds};
ghost use Rattle.geo_state.specs.Steps.{Does, IsFirm, SameWorld, Stands};
ghost use Rattle.geo_state.specs.World.{HasBytes, world};
ghost use Rattle.geo_moves.specs.Appends.{HasJoined, IsAble, IsAppended};

use crate::below::{Below, below_named};
use crate::growths::{append_refusal, grow_provider, join_new};
use crate::names::{Growing, growing_concat};
use crate::reply::{done, refused};
use geo_access::Steps;
use geo_base::{Errno, Name, NoMemory};
use geo_class::Config;
use geo_model::Outcome;
use geo_state::{State, reserve_events};
use std::alloc::Global;
use std::sync::ledger::Ledger;

/// The configuration of the concat with the provider as its last component, whose consumer is the next one.
pub fn longer(
    alloc: Global,
    state: &State,
    growing: &Growing,
    below: &Below,
) -> Result<Config, NoMemory>
    requires firm { IsFirm state.now }
    requires able { IsAble state.now growing.now below.now }
    ensures { IfOk result (λ config. (able : IsAble state.now growing.now below.now)
        → config ≡ add_place able.named.concat.geom.config state.now.topo.topology.next_consumer
        able.named.provider.size) }
{
    let Some(geom) = state.topo.geom(growing.geom) else {
        unreachable!()
    };
    let consumer = state.topo.coming_consumer();
    geom.config
        .with_place(alloc, consumer, below.size, below.sector)
}

/// A new consumer of the concat joins the provider, unless something refuses it: then its number is used up, and the
/// error comes back. Afterwards providers whose write count left zero are noted. After `NoMemory` all is as before.
pub fn join_component<L: Ledger>(
    state: &mut State,
    growing: &Growing,
    below: &Below,
    steps: &mut Steps<L>,
) -> Result<Option<Errno>, NoMemory>
    requires stands { Stands state.old }
    requires able { IsAble state.old growing.now below.now }
    ensures answer { IfOk result (λ r. (able : IsAble state.old growing.now below.now)
        → (actors : List (List LineCommand)) (log : List Entry)
        → r ≡ component_refusal (world actors log state.old) able.named.concat able.named.provider) }
    ensures joined { IfOk result (λ r. r ≡ None
        → HasJoined state.old.topo growing.now.geom below.now.prov state.new.topo) }
    ensures refused { IfOk result (λ r. IsSome r → (actors : List (List LineCommand)) (log : List Entry)
        → world actors log state.new ≡ without_number (world actors log state.old)) }
    ensures same { OnErr result (SameWorld state.old state.new) }
    ensures kept { IfOk result (λ r. IsSome r → Holds state.new) }
    ensures kept_still { OnErr result (Holds state.new) }
    ensures rest { state.new ≡ record state.old { topo = state.new.topo } }
    ensures bound { steps.new ≤ steps.old
        + (consumers_below state.old.topo.topology below.now.prov + 2) }
{
    join_new(&mut state.topo, growing.geom, below.prov, steps)
}

/// An append of the provider of a name to the standing concat of a name: ENOENT where there is no such concat with a
/// provider, or no such provider; else what `append_refusal` says; else what refuses a consumer of the concat that
/// joins the provider, and then one consumer number is used up. Else the concat has the provider as its last
/// component, its own provider grows by as many bytes, consumers are marked and Spoil is posted at each provider whose
/// write count leaves zero by that, and Resize is posted. After `NoMemory` all is as before.
///
/// It takes at most one step for each consumer of a geom that is reached downwards from the provider, and two more.
pub fn append<L: Ledger>(
    alloc: Global,
    state: &mut State,
    line: u32,
    name: &Name,
    prov: &Name,
    steps: &mut Steps<L>,
) -> Result<Outcome, NoMemory>
    requires stands { Stands state.old }
    ensures does { (log : List Entry) → IfOk result (λ o.
        Does (λ w. do_append w line (growing_concat w.topology name.now) (found_provider w prov.now)) log
        state.old state.new o) }
    ensures same { OnErr result (SameWorld state.old state.new) }
    ensures kept { Holds state.new }
    ensures logged { (log : List Entry) → HasBytes log state.old → HasBytes log state.new }
    ensures bound { steps.new ≤ steps.old + option_map_or (λ p. consumers_below state.old.topo.topology p + 2)
        (find_provider state.old.topo.topology prov.now) 0 }
{
    let Some(growing) = growing_concat(&state.topo, name) else {
        return Ok(refused(line, Errno::ENOENT));
    };
    let Some(below) = below_named(&state.topo, prov) else {
        return Ok(refused(line, Errno::ENOENT));
    };
    if let Some(errno) = append_refusal(alloc, state, &growing, &below)? {
        return Ok(refused(line, errno));
    }
    if let Some(errno) = add_component(alloc, state, &growing, &below, steps)? {
        return Ok(refused(line, errno));
    }
    Ok(done(line))
}

// The provider becomes the last component of the concat, whose provider grows, unless the new consumer is refused:
// then one consumer number is used up. After `NoMemory` all is as before.
fn add_component<L: Ledger>(
    alloc: Global,
    state: &mut State,
    growing: &Growing,
    below: &Below,
    steps: &mut Steps<L>,
) -> Result<Option<Errno>, NoMemory>
    requires stands { Stands state.old }
    requires able { IsAble state.old growing.now below.now }
    ensures does { IfOk result (λ r. (able : IsAble state.old growing.now below.now)
        → (actors : List (List LineCommand)) (log : List Entry)
        → IsAppended (world actors log state.old) (world actors log state.new)
        able.named.concat able.named.provider r) }
    ensures same { OnErr result (SameWorld state.old state.new) }
    ensures kept { Holds state.new }
    ensures traffic { state.new.traffic ≡ state.old.traffic }
    ensures bound { steps.new ≤ steps.old + (consumers_below state.old.topo.topology below.now.prov + 2) }
{
    reserve_events(state)?;
    add_with_room(alloc, state, growing, below, steps)
}

// The same, where the queue has room for all that is posted by it and all that is owed then.
fn add_with_room<L: Ledger>(
    alloc: Global,
    state: &mut State,
    growing: &Growing,
    below: &Below,
    steps: &mut Steps<L>,
) -> Result<Option<Errno>, NoMemory>
    requires stands { Stands state.old }
    requires able { IsAble state.old growing.now below.now }
    requires room { 3 * length state.old.topo.topology.providers + 128 ≤ state.old.queue.spare }
    ensures does { IfOk result (λ r. (able : IsAble state.old growing.now below.now)
        → (actors : List (List LineCommand)) (log : List Entry)
        → IsAppended (world actors log state.old) (world actors log state.new)
        able.named.concat able.named.provider r) }
    ensures same { OnErr result (SameWorld state.old state.new) }
    ensures kept { Holds state.new }
    ensures traffic { state.new.traffic ≡ state.old.traffic }
    ensures bound { steps.new ≤ steps.old + (consumers_below state.old.topo.topology below.now.prov + 2) }
{
    let config = longer(alloc, state, growing, below)?;
    let size = larger_size(state, growing, below);
    if let Some(errno) = join_component(state, growing, below, steps)? {
        return Ok(Some(errno));
    }
    grow_provider(&mut state.topo, &mut state.queue, growing, config, size);
    Ok(None)
}

// How many bytes the provider of the concat has once the other provider is its last component.
fn larger_size(state: &State, growing: &Growing, below: &Below) -> u64
    requires firm { IsFirm state.now }
    requires able { IsAble state.now growing.now below.now }
    ensures { (able : IsAble state.now growing.now below.now)
        → result ≡ able.named.concat.provider.size + able.named.provider.size }
{
    let Some(grows) = state.topo.provider(growing.prov) else {
        unreachable!()
    };
    grows.size + below.size
}

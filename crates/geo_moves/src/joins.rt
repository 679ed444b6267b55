//! Concats and stripes over providers that a command names (gconcat(8), gstripe(8)).
ghost use Rattle.std.specs.Prelude.{◌≡◌, ◌≤◌, ◌<◌, ◌^◌, length, List, map, Some, IfOk, OnOk, OnErr, IsTrue};
ghost use Rattle.std.specs.List.{range_with_len};
ghost use Rattle.geo_base.specs.Name.{is_short_name};
ghost use Rattle.geo_model.specs.declared.step.Entry.{Entry};
ghost use Rattle.geo_model.specs.GeomCommands.{do_concat, do_stripe, found_providers};
ghost use Rattle.geo_state.specs.Holds.{Holds};
ghost use Rattle.geo_state.specs.Steps.{Does, SameWorld, Stands};
ghost use Rattle.geo_state.specs.World.{HasBytes};
ghost use Rattle.geo_moves.specs.Assemblies.{AreAllFound, CanAssemble, assembly_geom, do_assembly};
ghost use Rattle.geo_moves.specs.Makes.{IsBuilt};

use crate::assemblies::{
    Assembly, assembly_config, assembly_kind, assembly_name, assembly_refusal, assembly_size,
};
use crate::below::{Below, all_named, sector_below};
use crate::makes::make;
use crate::reply::{done, refused};
use geo_base::{ConsId, MAX_COMPONENTS, Name, NoMemory, ProvId};
use geo_class::Config;
use geo_mesh::Topo;
use geo_model::Outcome;
use geo_state::State;
use geo_taste::{NewGeom, Offer};
use std::alloc::Global;

/// A concat of the providers of the names, in order; its provider has their sizes together. What is against it
/// `joined_refusal` says. Numbers of consumers that are used up are told as want of memory. After `NoMemory` all is as
/// before.
pub fn concat(
    alloc: Global,
    state: &mut State,
    line: u32,
    name: &Name,
    provs: &[Name],
) -> Result<Outcome, NoMemory>
    requires stands { Stands state.old }
    requires short { IsTrue (is_short_name name.now) }
    requires few { length provs.now ≤ MAX_COMPONENTS }
    ensures does { (log : List Entry) → IfOk result (λ o.
        Does (λ w. do_concat w line name.now (length provs.now) (found_providers w.topology provs.now)) log
        state.old state.new o) }
    ensures same { OnErr result (SameWorld state.old state.new) }
    ensures kept { Holds state.new }
    ensures logged { (log : List Entry) → HasBytes log state.old → HasBytes log state.new }
{
    let below = all_named(alloc, &state.topo, provs)?;
    join_over(alloc, state, line, Assembly::Concat, name, provs, &below)
}

/// A stripe over the providers of the names, in order, in strips of `stripe` bytes; its provider has as many whole
/// strips of each as the smallest has. What is against it `joined_refusal` says. Numbers of consumers that are used up
/// are told as want of memory. After `NoMemory` all is as before.
pub fn stripe(
    alloc: Global,
    state: &mut State,
    line: u32,
    name: &Name,
    stripe: u64,
    provs: &[Name],
) -> Result<Outcome, NoMemory>
    requires stands { Stands state.old }
    requires short { IsTrue (is_short_name name.now) }
    requires limited { stripe < 2 ^ 32 }
    requires few { length provs.now ≤ MAX_COMPONENTS }
    ensures does { (log : List Entry) → IfOk result (λ o.
        Does (λ w. do_stripe w line name.now stripe (length provs.now) (found_providers w.topology provs.now)) log
        state.old state.new o) }
    ensures same { OnErr result (SameWorld state.old state.new) }
    ensures kept { Holds state.new }
    ensures logged { (log : List Entry) → HasBytes log state.old → HasBytes log state.new }
{
    let below = all_named(alloc, &state.topo, provs)?;
    let assembly = Assembly::Stripe(stripe as u32);
    join_over(alloc, state, line, assembly, name, provs, &below)
}

// An assembly of the providers that were found for the names.
fn join_over(
    alloc: Global,
    state: &mut State,
    line: u32,
    assembly: Assembly,
    name: &Name,
    provs: &[Name],
    below: &[Below],
) -> Result<Outcome, NoMemory>
    requires stands { Stands state.old }
    requires short { IsTrue (is_short_name name.now) }
    requires found { AreAllFound state.old.topo.topology provs.now below.now }
    ensures does { (log : List Entry) → IfOk result (λ o.
        Does (λ w. do_assembly w line assembly name.now (length provs.now) (found_providers w.topology provs.now)) log
        state.old state.new o) }
    ensures same { OnErr result (SameWorld state.old state.new) }
    ensures kept { Holds state.new }
    ensures traffic { state.new.traffic ≡ state.old.traffic }
{
    let sizes = sizes_of(alloc, below)?;
    let size = assembly_size(assembly, &sizes);
    if let Some(errno) = assembly_refusal(&state.topo, assembly, name, below, provs.len(), size) {
        return Ok(refused(line, errno));
    }
    let Some(size) = size else { unreachable!() };
    let full = assembly_name(assembly, name);
    let sector = sector_below(below);
    let offer = Offer {
        name: full,
        size,
        sector,
    };
    assemble(alloc, state, assembly, name, below, sizes, &offer)?;
    Ok(done(line))
}

// Makes an assembly that nothing is against.
fn assemble(
    alloc: Global,
    state: &mut State,
    assembly: Assembly,
    name: &Name,
    below: &[Below],
    sizes: Vec<u64>,
    offer: &Offer,
) -> Result<(), NoMemory>
    requires stands { Stands state.old }
    requires can { CanAssemble state.old.topo.topology assembly below.now sizes.items offer.now }
    ensures made { OnOk result (IsBuilt state.old state.new
        (assembly_geom state.old.topo.topology assembly name.now below.now) (map (λ x. x.prov) below.now) offer.now) }
    ensures same { OnErr result (SameWorld state.old state.new) }
    ensures kept { Holds state.new }
    ensures traffic { state.new.traffic ≡ state.old.traffic }
{
    let places = new_places(alloc, &state.topo, below.len())?;
    let over = provs_of(alloc, below)?;
    let config = assembly_config(assembly, places, sizes, offer.sector);
    let kind = assembly_kind(assembly);
    let geom = NewGeom {
        kind,
        name: *name,
        config,
    };
    make(state, geom, &over, offer)
}

// The sizes of the providers in bytes.
fn sizes_of(alloc: Global, below: &[Below]) -> Result<Vec<u64>, NoMemory>
    ensures { IfOk result (λ sizes. sizes.items ≡ map (λ x. x.size) below.now) }
{
    let sizes = below.iter().map(|x| x.size).collect(alloc)?;
    Ok(sizes)
}

// The numbers of the providers.
fn provs_of(alloc: Global, below: &[Below]) -> Result<Vec<ProvId>, NoMemory>
    ensures { IfOk result (λ provs. provs.items ≡ map (λ x. x.prov) below.now) }
{
    let provs = below.iter().map(|x| x.prov).collect(alloc)?;
    Ok(provs)
}

// The consumers that so many components of a new geom get, one after another.
fn new_places(
    alloc: Global,
    topo: &Topo<Config>,
    count: usize,
) -> Result<Vec<Option<ConsId>>, NoMemory>
    ensures { IfOk result (λ places.
        places.items ≡ map (λ c. Some c) (range_with_len topo.now.topology.next_consumer count)) }
{
    let first = topo.coming_consumer().number();
    let Some(end) = first.checked_add(count as u64) else {
        return Err(NoMemory);
    };
    let mut places = Vec::new(alloc);
    for number in first..end {
        places.push(Some(ConsId::new(number)))?;
    }
    Ok(places)
}

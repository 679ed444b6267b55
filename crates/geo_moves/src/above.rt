//! The providers that are reached upwards from one, and requests to them.
ghost use Rattle.std.specs.Prelude.{ℕ, ◌≡◌, ◌<◌, ◌^◌, [], false, List, fold, slice_get, IfOk, OnOk, MatchOption};
ghost use Rattle.std.specs.Option.{option_map_or};
ghost use Rattle.std.specs.List.{list_any};
ghost use Rattle.geo_model.specs.declared.command.LineCommand.{LineCommand};
ghost use Rattle.geo_model.specs.declared.step.Entry.{Entry};
ghost use Rattle.geo_model.specs.Opens.{is_below};
ghost use Rattle.geo_model.specs.Append.{is_growth_busy};
ghost use Rattle.geo_state.specs.Oldest.{first_passing, passes};
ghost use Rattle.geo_state.specs.World.{world};
ghost use Rattle.geo_mesh.specs.Graph.{IsSoundGraph};
ghost use Rattle.geo_laws_graph.specs.LookupLaws.{left_from};
ghost use Rattle.geo_access.specs.Views.{IsNextConsumer};
ghost use Rattle.geo_life.specs.Life.{consumers_above};
ghost use Rattle.geo_moves.specs.Above.{has_number, offers_of, users_of, with_number};

use geo_access::provider_of;
use geo_base::{BioId, ConsId, GeomId, NoMemory, ProvId};
use geo_class::{Config, Taste};
use geo_mesh::{ConsRec, Topo};
use geo_state::{State, Traffic};
use std::alloc::Global;

/// Whether a request is on its way to the provider or to one above it, or a taste of such a provider is under way.
pub fn is_growth_busy(alloc: Global, state: &State, prov: ProvId) -> Result<bool, NoMemory>
    ensures { IfOk result (λ busy. (actors : List (List LineCommand)) (log : List Entry)
        → busy ≡ is_growth_busy (world actors log state.now) prov) }
{
    let above = providers_above(alloc, &state.topo, prov)?;
    Ok(is_busy(state, &above))
}

// Whether a request is on its way to one of them, or one of them is tasted.
fn is_busy(state: &State, above: &[ProvId]) -> bool
    ensures { (p : ℕ) → ((q : ℕ) → has_number above.now q ≡ is_below state.now.topo.topology p q)
        → (actors : List (List LineCommand)) (log : List Entry)
        → result ≡ is_growth_busy (world actors log state.now) p }
{
    if is_asked(&state.traffic, above) {
        return true;
    }
    is_tasted(&state.taste, above)
}

// The provider, and all that are reached upwards from it.
fn providers_above(
    alloc: Global,
    topo: &Topo<Config>,
    prov: ProvId,
) -> Result<Vec<ProvId>, NoMemory>
    ensures { IfOk result (λ above. (p : ℕ) → has_number above.items p ≡ is_below topo.now.topology prov p) }
{
    let mut above = Vec::new(alloc);
    above.push(prov)?;
    let mut next = 0;
    while let Some(found) = at(&above, next) {
        push_users(topo, found, &mut above)?;
        next += 1;
    }
    Ok(above)
}

// The provider at a place of the list.
fn at(list: &[ProvId], place: usize) -> Option<ProvId>
    ensures { result ≡ slice_get list.now place }
{
    list.get(place).copied()
}

// Puts those right above the provider behind the others, unless they are among them.
fn push_users(topo: &Topo<Config>, prov: ProvId, above: &mut Vec<ProvId>) -> Result<(), NoMemory>
    ensures pushed { OnOk result (above.new.items
        ≡ fold with_number above.old.items (users_of topo.now.topology prov)) }
    ensures sound { IsSoundGraph topo.now.topology }
{
    let mut from = 0;
    while let Some((id, cons)) = consumer_above(topo, prov, from) {
        push_offers(topo, cons.geom, above)?;
        from = id.number() + 1;
    }
    Ok(())
}

// Puts the providers of the geom behind the others, unless they are among them.
fn push_offers(topo: &Topo<Config>, geom: GeomId, above: &mut Vec<ProvId>) -> Result<(), NoMemory>
    ensures { OnOk result (above.new.items ≡ fold with_number above.old.items (offers_of topo.now.topology geom)) }
{
    let mut from = 0;
    while let Some((id, _prov)) = provider_of(topo, geom, from) {
        push_new(above, id)?;
        from = id.number() + 1;
    }
    Ok(())
}

// Puts the provider behind the others, unless it is among them.
fn push_new(above: &mut Vec<ProvId>, prov: ProvId) -> Result<(), NoMemory>
    ensures { OnOk result (above.new.items ≡ with_number above.old.items prov) }
{
    if is_among(above, prov) {
        return Ok(());
    }
    above.push(prov)?;
    Ok(())
}

// Whether the provider is among them.
fn is_among(above: &[ProvId], prov: ProvId) -> bool
    ensures { result ≡ has_number above.now prov }
{
    above.iter().any(|x| x.number() == prov.number())
}

// The first consumer at the provider from a number on that isn't DEV's.
fn consumer_above(topo: &Topo<Config>, prov: ProvId, from: u64) -> Option<(ConsId, ConsRec)>
    ensures next { MatchOption result (left_from (λ y. y.number) from (consumers_above topo.now.topology prov) ≡ [])
        (λ m. IsNextConsumer topo.now.topology (consumers_above topo.now.topology prov) from m.0 m.1) }
    ensures sound { IsSoundGraph topo.now.topology }
{
    let id = topo.above(prov, from)?;
    let cons = topo.consumer(id)?;
    Some((id, *cons))
}

// Whether a request on its way goes to one of them.
fn is_asked(traffic: &Traffic, above: &[ProvId]) -> bool
    ensures { result ≡ list_any (λ x. has_number above.now x.target) traffic.now.bios }
{
    let mut from = 0;
    while let Some(bio) = traffic.next_from(from) {
        if is_to(traffic, bio, above) {
            return true;
        }
        from = bio.number() + 1;
    }
    false
}

// Whether the request of a number is there, and goes to one of them.
fn is_to(traffic: &Traffic, bio: BioId, above: &[ProvId]) -> bool
    ensures goes { result ≡ passes (λ x. has_number above.now x.target) traffic.now.bios bio }
    ensures bound { traffic.now.next < 2 ^ 64 }
{
    match traffic.get(bio) {
        Some(found) => is_among(above, found.to),
        None => false,
    }
}

// Whether one of them is tasted.
fn is_tasted(taste: &Option<Taste>, above: &[ProvId]) -> bool
    ensures { result ≡ option_map_or (λ s. has_number above.now s.provider) taste.now false }
{
    match taste {
        Some(taste) => is_among(above, taste.provider()),
        None => false,
    }
}

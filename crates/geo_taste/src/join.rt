//! A provider that takes its place in an assembly.
ghost use Rattle.std.specs.Prelude.{◌≡◌, ◌+◌, ◌<◌, ◌≤◌, length, true, false, Some, None, IfOk, IfSome, IsSomeAnd, IsTrue, OnErr};
ghost use Rattle.geo_model.specs.Acceptance.{places_of};
ghost use Rattle.geo_model.specs.Sound.{fits_kind};
ghost use Rattle.geo_model.specs.Topology.{geom_at, is_withering};
ghost use Rattle.geo_mesh.specs.Cells.{provider_seen};
ghost use Rattle.geo_mesh.specs.Graph.{IsSoundGraph};
ghost use Rattle.geo_mesh.specs.Topo.{with_geom, IsButForRoom};
ghost use Rattle.geo_taste.specs.Making.{both, AreBoth};
ghost use Rattle.geo_taste.specs.Accepting.{joined_at, with_member, IsAccepted};
ghost use Rattle.geo_taste.specs.Accepts.{MakesSizes};
ghost use Rattle.geo_taste.specs.Members.{member_of};
ghost use Rattle.geo_taste.specs.Joining.{is_bare, MayBeMember, MayJoin};
ghost use Rattle.geo_taste.specs.Standing.{CanStandOn};

use crate::member::Member;
use crate::place::{place_plan, take_place};
use crate::shapes::Accepted;
use crate::standing::{can_join, standing_geom};
use geo_base::{GeomId, NoMemory, ProvId};
use geo_class::Config;
use geo_event::EventQueue;
use geo_mesh::{ProvRec, Topo};
use std::alloc::Global;

// A new geom of the member's assembly, in which each place is free, in room that was kept.
fn raise_empty(topo: &mut Topo<Config>, member: Member) -> GeomId
    requires { 1 ≤ topo.old.room.geoms }
    ensures number { result ≡ topo.old.topology.next_geom }
    ensures raised { IsButForRoom topo.new
        (with_geom topo.old member.kind member.geom_name member.empty true) }
    ensures other_room { topo.new.room ≡ record topo.old.room { geoms = topo.new.room.geoms } }
    ensures sound { IsSoundGraph topo.old.topology }
{
    let Ok(geom) = topo.new_geom(member.kind, member.geom_name, member.empty, true) else {
        unreachable!()
    };
    geom
}

// The provider takes its place in a new geom of the member's assembly.
fn join_new(
    alloc: Global,
    topo: &mut Topo<Config>,
    queue: &mut EventQueue,
    prov: ProvId,
    below: &ProvRec,
    member: Member,
) -> Result<Accepted, NoMemory>
    requires stands { CanStandOn topo.old.topology prov }
    requires sector { below.now.sector ≤ below.now.size }
    requires place { member.place < length (places_of member.empty) }
    ensures made { IfOk result (λ answer.
        let made = joined_at (both topo.old queue.old) (provider_seen prov below.now) (member_of member) None in
        IsAccepted answer topo.new queue.new (both topo.old queue.old) made (MakesSizes made)) }
    ensures same { OnErr result (AreBoth topo.new queue.new (both topo.old queue.old)) }
    ensures spare { queue.old.spare ≤ queue.new.spare + 1 }
{
    let size = below.size - u64::from(below.sector);
    let Some(plan) = place_plan(alloc, topo, size, below.sector, &member.empty, &member)? else {
        return Ok(Accepted::Declined);
    };
    topo.reserve(1, 1, 1)?;
    queue.reserve(1)?;
    let geom = raise_empty(topo, member);
    take_place(topo, queue, geom, prov, plan);
    Ok(Accepted::Made)
}

// Whether the geom, which is neither DEV nor TASTE, has no provider.
fn is_bare(topo: &Topo<Config>, geom: GeomId) -> bool
    ensures { result ≡ is_bare topo.now.topology geom }
{
    geom.number() != 1 && geom.number() != 2 && topo.provider_of(geom, 0).is_none()
}

// The provider takes its place in the standing geom of the member's assembly.
fn join_standing(
    alloc: Global,
    topo: &mut Topo<Config>,
    queue: &mut EventQueue,
    prov: ProvId,
    below: &ProvRec,
    member: &Member,
    geom: GeomId,
) -> Result<Accepted, NoMemory>
    requires stands { CanStandOn topo.old.topology prov }
    requires sector { below.now.sector ≤ below.now.size }
    requires stays { is_withering topo.old.topology geom ≡ false }
    requires place { IsSomeAnd (geom_at topo.old.topology geom) (λ g. member.now.place < length (places_of g.config)) }
    ensures made { IfOk result (λ answer. IfSome (geom_at topo.old.topology geom) (λ g.
        let old = both topo.old queue.old in
        let p = provider_seen prov below.now in
        IsAccepted answer topo.new queue.new old (joined_at old p (member_of member.now) (Some g))
        (MayJoin old p (member_of member.now) g))) }
    ensures same { OnErr result (AreBoth topo.new queue.new (both topo.old queue.old)) }
    ensures spare { queue.old.spare ≤ queue.new.spare + 1 }
{
    let Some(standing) = topo.geom(geom) else {
        unreachable!()
    };
    let config = &standing.config;
    if !can_join(alloc, topo, config, member.place, below.sector)? {
        return Ok(Accepted::Declined);
    }
    if !is_bare(topo, geom) {
        return Ok(Accepted::Declined);
    }
    let size = below.size - u64::from(below.sector);
    let Some(plan) = place_plan(alloc, topo, size, below.sector, config, member)? else {
        return Ok(Accepted::Declined);
    };
    topo.reserve(0, 1, 1)?;
    queue.reserve(1)?;
    take_place(topo, queue, geom, prov, plan);
    Ok(Accepted::Made)
}

/// The provider takes its place in the standing geom of the member's assembly, or in a new one, and with the last
/// place the assembly gets its provider. It declines where the place is filled, a component there has another sector
/// size, or the assembly would be complete and its provider can't be made. After `NoMemory` nothing changed.
pub fn accept_member(
    alloc: Global,
    topo: &mut Topo<Config>,
    queue: &mut EventQueue,
    prov: ProvId,
    below: &ProvRec,
    member: Member,
) -> Result<Accepted, NoMemory>
    requires stands { CanStandOn topo.old.topology prov }
    requires sector { below.now.sector ≤ below.now.size }
    requires place { member.place < length (places_of member.empty) }
    requires class { IsTrue (fits_kind member.kind member.empty) }
    ensures made { IfOk result (λ answer.
        let old = both topo.old queue.old in
        let p = provider_seen prov below.now in
        IsAccepted answer topo.new queue.new old (with_member old p (member_of member))
        (MayBeMember old p (member_of member))) }
    ensures same { OnErr result (AreBoth topo.new queue.new (both topo.old queue.old)) }
    ensures spare { queue.old.spare ≤ queue.new.spare + 1 }
{
    match standing_geom(topo, &member) {
        Some(geom) => join_standing(alloc, topo, queue, prov, below, &member, geom),
        None => join_new(alloc, topo, queue, prov, below, member),
    }
}

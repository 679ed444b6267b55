//! Slices and partitions of a provider that a class accepts.
ghost use Rattle.std.specs.Prelude.{◌≡◌, ◌+◌, ◌≤◌, Some, true, length, IfOk, IfSome, OnErr};
ghost use Rattle.geo_base.specs.declared.kind.Kind.TheVariants as kinds;
ghost use Rattle.geo_model.specs.Acceptance.{new_slices, new_parts};
ghost use Rattle.geo_model.specs.World.{Mbr, Ebr};
ghost use Rattle.geo_taste.specs.Making.{both, AreBoth};
ghost use Rattle.geo_taste.specs.Accepting.{sliced, IsAccepted};
ghost use Rattle.geo_taste.specs.Accepts.{MakesSizes};
ghost use Rattle.geo_taste.specs.Parts.{are_names, ArePartsApart};
ghost use Rattle.geo_taste.specs.Standing.{CanStandOn};

use crate::parts::{Part, are_addable, offer_parts, partition_parts, slice_parts};
use crate::raise::{NewGeom, raise};
use crate::shapes::Accepted;
use geo_base::{Kind, MAX_LINKS, Name, NoMemory, ProvId};
use geo_class::Config;
use geo_event::EventQueue;
use geo_mesh::Topo;
use geo_model::{EbrTable, MbrTable};
use std::alloc::Global;

// Makes an automatic geom over the provider, with a provider for each of the parts, unless one of their names is
// taken.
fn accept_parts(
    topo: &mut Topo<Config>,
    queue: &mut EventQueue,
    prov: ProvId,
    geom: NewGeom,
    parts: &[Part],
) -> Result<Accepted, NoMemory>
    requires stands { CanStandOn topo.old.topology prov }
    requires names { are_names parts.now ≡ true }
    requires apart { ArePartsApart parts.now }
    ensures made { IfOk result (λ answer. IsAccepted answer topo.new queue.new (both topo.old queue.old)
        (sliced (both topo.old queue.old) prov geom.kind geom.name geom.config parts.now)
        (MakesSizes (sliced (both topo.old queue.old) prov geom.kind geom.name geom.config parts.now))) }
    ensures same { OnErr result (AreBoth topo.new queue.new (both topo.old queue.old)) }
    ensures spare { queue.old.spare ≤ queue.new.spare + length parts.now }
{
    if !are_addable(topo, parts) {
        return Ok(Accepted::Declined);
    }
    let count = parts.len() as u64;
    topo.reserve(1, count, 1)?;
    queue.reserve(count)?;
    let id = raise(topo, geom, true, &[prov]);
    offer_parts(topo, queue, id, parts);
    Ok(Accepted::Made)
}

/// Makes the MBR geom of a table over the provider of this name, with a provider for each slice that is kept. It
/// declines where one of their names isn't one or is taken. After `NoMemory` nothing changed.
pub fn accept_slices(
    alloc: Global,
    topo: &mut Topo<Config>,
    queue: &mut EventQueue,
    prov: ProvId,
    name: &Name,
    table: &MbrTable,
) -> Result<Accepted, NoMemory>
    requires stands { CanStandOn topo.old.topology prov }
    ensures made { IfOk result (λ answer.
        let made = sliced (both topo.old queue.old) prov kinds.Mbr name.now
        (Mbr (Some topo.old.topology.next_consumer) table.now.slices) (new_slices name.now table.now.slices) in
        IsAccepted answer topo.new queue.new (both topo.old queue.old) made (MakesSizes made)) }
    ensures same { OnErr result (AreBoth topo.new queue.new (both topo.old queue.old)) }
    ensures spare { queue.old.spare ≤ queue.new.spare + 4 }
{
    let Some(parts) = slice_parts(alloc, name, &table.slices)? else {
        return Ok(Accepted::Declined);
    };
    let geom = NewGeom {
        kind: Kind::Mbr,
        name: *name,
        config: Config::mbr(Some(topo.coming_consumer()), table.slices),
    };
    accept_parts(topo, queue, prov, geom, &parts)
}

/// Makes the EBR geom of a chain over the provider of this name, with a provider for each partition that is kept. It
/// declines where one of their names isn't one or is taken. After `NoMemory` nothing changed.
pub fn accept_partitions(
    alloc: Global,
    topo: &mut Topo<Config>,
    queue: &mut EventQueue,
    prov: ProvId,
    name: &Name,
    table: &EbrTable,
) -> Result<Accepted, NoMemory>
    requires stands { CanStandOn topo.old.topology prov }
    ensures made { IfOk result (λ answer.
        let made = sliced (both topo.old queue.old) prov kinds.Ebr name.now
        (Ebr (Some topo.old.topology.next_consumer) table.now.parts) (new_parts name.now table.now.parts) in
        IsAccepted answer topo.new queue.new (both topo.old queue.old) made (MakesSizes made)) }
    ensures same { OnErr result (AreBoth topo.new queue.new (both topo.old queue.old)) }
    ensures spare { queue.old.spare ≤ queue.new.spare + MAX_LINKS }
{
    let Some(parts) = partition_parts(alloc, name, &table.parts)? else {
        return Ok(Accepted::Declined);
    };
    let config = Config::ebr(alloc, Some(topo.coming_consumer()), &table.parts)?;
    let geom = NewGeom {
        kind: Kind::Ebr,
        name: *name,
        config,
    };
    accept_parts(topo, queue, prov, geom, &parts)
}

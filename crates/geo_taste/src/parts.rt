//! The slices of a table and the partitions of a chain, as providers to be made.
ghost use Rattle.std.specs.Prelude.{◌≡◌, ◌+◌, ◌<◌, ◌≤◌, length, IfOk, option_map};
ghost use Rattle.std.specs.List.{AllByRecursion, list_all};
ghost use Rattle.geo_base.specs.Name.{name_of};
ghost use Rattle.geo_model.specs.Acceptance.{new_slices, new_parts};
ghost use Rattle.geo_model.specs.Names.{slice_name, logical_name};
ghost use Rattle.geo_taste.specs.Making.{both, AreBoth};
ghost use Rattle.geo_taste.specs.Accepting.{with_slices_of};
ghost use Rattle.geo_taste.specs.Parts.{named_all, IsPlacePushed, IsPushed, ArePartsApart, CanAddPart, is_addable};
ghost use Rattle.geo_taste.specs.Standing.{MayOffer};

use crate::names::{logical_name, slice_name};
use crate::offer::{Offer, is_provider_size, make_offer};
use geo_base::{GeomId, MAX_LINKS, Name, NoMemory};
use geo_class::Config;
use geo_event::EventQueue;
use geo_mesh::Topo;
use geo_model::{EbrPart, Slice};
use std::alloc::Global;
use std::marker::Model;

/// A provider to be made of a slice or of a partition: its name and its media size in bytes, in sectors of 512.
#[derive(Debug, Drop)]
pub struct Part {
    named: Name,
    bytes: u64,
}

impl Model for Part {
    ghost use Rattle.geo_model.specs.Acceptance.{NewSlice};

    ghost Value = { NewSlice };

    ghost view = { λ p. record { name = p.named; size = p.bytes } };
}

impl Part {
    // Whether no provider without an error has the name, and the size is one of a provider.
    fn is_addable(&self, topo: &Topo<Config>) -> bool
        ensures { result ≡ is_addable topo.now.topology self.now }
    {
        !topo.is_name_taken(&self.named) && is_provider_size(self.bytes, 512)
    }

    // The provider that is made of it.
    fn offer(&self) -> Offer
        ensures { result ≡ record { name = self.now.name; size = self.now.size; sector = 512 } }
    {
        Offer {
            name: self.named,
            size: self.bytes,
            sector: 512,
        }
    }
}

// Puts a part of so many sectors behind the others, if it has a name.
fn push_part(parts: &mut Vec<Part>, name: Option<Name>, sectors: u32) -> Result<bool, NoMemory>
    ensures { IfOk result (λ named. IsPushed name sectors named parts.old.items parts.new.items) }
{
    match name {
        Some(named) => {
            let bytes = u64::from(sectors) * 512;
            parts.push(Part { named, bytes })?;
            Ok(true)
        }
        None => Ok(false),
    }
}

// Puts the slice of a place behind the parts, if there is one. Answers false where it has no name.
fn push_slice(
    parts: &mut Vec<Part>,
    below: &Name,
    place: u8,
    slice: &Option<Slice>,
) -> Result<bool, NoMemory>
    requires { place < 4 }
    ensures { IfOk result (λ named. IsPlacePushed (name_of (slice_name below.now place))
        (option_map (λ s. s.count) slice.now) named parts.old.items parts.new.items) }
{
    match slice {
        Some(slice) => push_part(parts, slice_name(below, place), slice.count),
        None => Ok(true),
    }
}

// Puts the partition of a link behind the parts, if there is one. Answers false where it has no name.
fn push_partition(
    parts: &mut Vec<Part>,
    below: &Name,
    place: u8,
    part: &Option<EbrPart>,
) -> Result<bool, NoMemory>
    requires { place < 99 }
    ensures { IfOk result (λ named. IsPlacePushed (name_of (logical_name below.now place))
        (option_map (λ s. s.count) part.now) named parts.old.items parts.new.items) }
{
    match part {
        Some(part) => push_part(parts, logical_name(below, place), part.count),
        None => Ok(true),
    }
}

/// The slices that are kept, in order. None where one has no name, since it would be too long.
pub fn slice_parts(
    alloc: Global,
    below: &Name,
    slices: &[Option<Slice>; 4],
) -> Result<Option<Vec<Part>>, NoMemory>
    ensures named { IfOk result (λ parts. option_map (λ xs. xs.items) parts
        ≡ named_all (new_slices below.now slices.now)) }
    ensures few { length slices.now ≤ 4 }
{
    let mut parts = Vec::new(alloc);
    let mut place = 0;
    for slice in slices {
        if !push_slice(&mut parts, below, place, slice)? {
            return Ok(None);
        }
        place += 1;
    }
    Ok(Some(parts))
}

/// The logical partitions that are kept, in the order of their links. None where one has no name, since it would be
/// too long.
pub fn partition_parts(
    alloc: Global,
    below: &Name,
    chain: &[Option<EbrPart>; MAX_LINKS],
) -> Result<Option<Vec<Part>>, NoMemory>
    ensures named { IfOk result (λ parts. option_map (λ xs. xs.items) parts
        ≡ named_all (new_parts below.now chain.now)) }
    ensures few { length chain.now ≤ MAX_LINKS }
{
    let mut parts = Vec::new(alloc);
    let mut place = 0;
    for part in chain {
        if !push_partition(&mut parts, below, place, part)? {
            return Ok(None);
        }
        place += 1;
    }
    Ok(Some(parts))
}

/// Whether a provider can be made of each part: none without an error has its name, and its size is one.
pub fn are_addable(topo: &Topo<Config>, parts: &[Part]) -> bool
    ensures { result ≡ list_all (is_addable topo.now.topology) parts.now }
{
    parts.iter().all(|part| part.is_addable(topo))
}

/// Makes a provider of the geom for each part, in order, and offers each for taste, in room that was kept.
pub fn offer_parts(topo: &mut Topo<Config>, queue: &mut EventQueue, geom: GeomId, parts: &[Part])
    requires room { length parts.now ≤ topo.old.room.providers }
    requires spare { length parts.now ≤ queue.old.spare }
    requires may { MayOffer topo.old.topology geom }
    requires parts { AllByRecursion (CanAddPart topo.old.topology) parts.now }
    requires apart { ArePartsApart parts.now }
    ensures made { AreBoth topo.new queue.new (with_slices_of (both topo.old queue.old) geom parts.now) }
    ensures spare { queue.old.spare ≤ queue.new.spare + length parts.now }
{
    for part in parts {
        make_offer(topo, queue, geom, &part.offer());
    }
}

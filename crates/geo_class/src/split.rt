//! How a range of a provider is cut, by the address map of its class.
ghost use Rattle.std.specs.Prelude.{◌≡◌, ◌≢◌, ◌+◌, ◌-◌, ◌*◌, ◌<◌, ◌≤◌, [], ◌∷◌, ◌++◌, None, map, min, sum, IfOk, OnOk, IfSome, IsSomeAnd, if◌then◌else◌};
ghost use Rattle.std.specs.List.{last_or};
ghost use Rattle.std.specs.Option.{option_map_or, option_to_list};
ghost use Rattle.geo_model.specs.Bios.{empty_piece};
ghost use Rattle.geo_model.specs.Place.{components, concat_stretches, cut, end_number, part_at, pieces, slice_at, slice_place, strips, window};
ghost use Rattle.geo_model.specs.ScriptWords.{is_digit};
ghost use Rattle.geo_model.specs.Topology.{Provider};
ghost use Rattle.geo_class.specs.stripe.StripeMap.{striped_size};
ghost use Rattle.geo_class.specs.Layout.{HasItsMap, config_of};
ghost use Rattle.geo_class.specs.Targets.{consumers_for};
ghost use Rattle.geo_class.specs.Split.{Covers, provider_of};

use crate::address_map::AddressMap;
use crate::concat::ConcatMap;
use crate::config::{Config, Layout};
use crate::ebr::EbrMap;
use crate::label::LabelMap;
use crate::mbr::MbrMap;
use crate::nop::NopMap;
use crate::piece_list::PieceList;
use crate::stripe::StripeMap;
use geo_base::{ConsId, MAX_LINKS, MAX_MEDIA_BYTES, Name, NoMemory};
use geo_model::{EbrPart, Piece, Slice, Span};
use smallvec::SmallVec;
use std::alloc::Global;

/// As many as no table has places.
const MANY: usize = 1000;

/// The piece of a FLUSH, which has no bytes.
const EMPTY: Piece = Piece {
    child: 0,
    span: Span { offset: 0, len: 0 },
    at: 0,
};

/// Adds the consumer, if there is one.
fn push_some(consumers: &mut SmallVec<ConsId, 1>, found: Option<ConsId>) -> Result<(), NoMemory>
    ensures { OnOk result (consumers.new.items ≡ consumers.old.items ++ option_to_list found) }
{
    if let Some(consumer) = found {
        consumers.push(consumer)?;
    }
    Ok(())
}

/// A provider whose ranges are cut: its name, its size, and the size of its sectors.
#[derive(Clone, Copy, Debug)]
pub struct Media {
    pub name: Name,
    pub size: u64,
    pub sector: u32,
}

/// The last byte, if there is one.
#[tactic(auto, using(crate::proofs::NameLemmas::last_is))]
fn last_byte(bytes: &[u8]) -> Option<u8>
    ensures { result ≡ last_or None bytes.now }
{
    bytes.last().copied()
}

/// The place in a table of four that the last byte of a name tells, from `1` on.
fn slice_place(name: &Name) -> usize
    ensures { result ≡ slice_place name.now }
{
    match last_byte(name.bytes()) {
        Some(byte) => (byte as usize).saturating_sub(49),
        None => 0,
    }
}

/// The number that a byte of a name makes of the one before it: a digit goes on with it.
fn number_with(number: usize, byte: u8) -> usize
    requires { number ≤ 1000 }
    ensures { result ≡ min (if is_digit byte then 10 * number + (byte - 48) else 0) 1000 }
{
    if 48 <= byte && byte <= 57 {
        (10 * number + (byte as usize - 48)).min(MANY)
    } else {
        0
    }
}

/// The decimal number at the end of a name, or `MANY` where it is greater.
fn end_number(name: &Name) -> usize
    ensures { result ≡ min (end_number name.now) 1000 }
{
    let mut number = 0;
    for byte in name.bytes() {
        number = number_with(number, *byte);
    }
    number
}

/// The slice of a provider of an MBR geom.
fn slice_at(slices: &[Option<Slice>; 4], name: &Name) -> Option<Slice>
    ensures { result ≡ slice_at slices.now name.now }
{
    slices.get(slice_place(name)).copied().flatten()
}

/// The partition of a provider of an EBR geom.
fn part_at(parts: &[Option<EbrPart>; MAX_LINKS], name: &Name) -> Option<EbrPart>
    ensures { result ≡ part_at parts.now name.now }
{
    parts
        .get(end_number(name).saturating_sub(1))
        .copied()
        .flatten()
}

/// The pieces of a range of a slice.
fn split_slice(
    alloc: Global,
    slices: &[Option<Slice>; 4],
    media: &Media,
    span: Span,
) -> Result<PieceList, NoMemory>
    requires some_byte { 0 < span.len }
    requires inside { span.offset + span.len ≤ media.now.size }
    requires covered { IfSome (slice_at slices.now media.now.name)
        (λ s. s.first * 512 + media.now.size ≤ MAX_MEDIA_BYTES) }
    ensures { IfOk result (λ list. list.items ≡ cut span.offset span.len
        (option_map_or (λ s. window (s.first * 512) media.now.size ∷ []) (slice_at slices.now media.now.name) [])) }
{
    match slice_at(slices, &media.name) {
        Some(slice) => MbrMap::sized(&slice, media.size).split(alloc, span),
        None => Ok(PieceList::new(alloc)),
    }
}

/// The pieces of a range of a logical partition.
fn split_part(
    alloc: Global,
    parts: &[Option<EbrPart>; MAX_LINKS],
    media: &Media,
    span: Span,
) -> Result<PieceList, NoMemory>
    requires some_byte { 0 < span.len }
    requires inside { span.offset + span.len ≤ media.now.size }
    requires covered { IfSome (part_at parts.now media.now.name)
        (λ s. s.first * 512 + media.now.size ≤ MAX_MEDIA_BYTES) }
    ensures { IfOk result (λ list. list.items ≡ cut span.offset span.len
        (option_map_or (λ s. window (s.first * 512) media.now.size ∷ []) (part_at parts.now media.now.name) [])) }
{
    match part_at(parts, &media.name) {
        Some(part) => EbrMap::sized(part.first, media.size).split(alloc, span),
        None => Ok(PieceList::new(alloc)),
    }
}

/// The pieces of a range of a complete concat.
fn split_concat(alloc: Global, map: &Option<ConcatMap>, span: Span) -> Result<PieceList, NoMemory>
    requires some_byte { 0 < span.len }
    requires inside { IsSomeAnd map.now (λ m. span.offset + span.len ≤ sum m.sizes) }
    ensures { IfOk result (λ list. IfSome map.now (λ m. list.items
        ≡ cut span.offset span.len (concat_stretches 0 0 m.sizes))) }
{
    match map {
        Some(map) => map.split(alloc, span),
        None => unreachable!(),
    }
}

/// The pieces of a range of a complete stripe.
fn split_stripe(alloc: Global, map: &Option<StripeMap>, span: Span) -> Result<PieceList, NoMemory>
    requires some_byte { 0 < span.len }
    requires inside { IsSomeAnd map.now (λ m. span.offset + span.len ≤ striped_size m.count m.stripe m.smallest) }
    ensures { IfOk result (λ list. IfSome map.now (λ m. list.items
        ≡ cut span.offset span.len (strips m.count m.stripe span.offset span.len))) }
{
    match map {
        Some(map) => map.split(alloc, span),
        None => unreachable!(),
    }
}

/// The pieces of a range of a geom's provider, by what the geom's configuration keeps.
fn split_by(
    layout: &Layout,
    alloc: Global,
    media: &Media,
    span: Span,
) -> Result<PieceList, NoMemory>
    requires some_byte { 0 < span.len }
    requires inside { span.offset + span.len ≤ media.now.size }
    requires covered { Covers (config_of layout.now) media.now.name media.now.size }
    requires kept { HasItsMap layout.now }
    ensures { IfOk result (λ list. list.items
        ≡ pieces (config_of layout.now) (provider_of media.now) span.offset span.len) }
{
    match layout {
        Layout::Nothing => Ok(PieceList::new(alloc)),
        Layout::Disk { .. } => Ok(PieceList::new(alloc)),
        Layout::Mbr { slices, .. } => split_slice(alloc, slices, media, span),
        Layout::Ebr { parts, .. } => split_part(alloc, parts, media, span),
        Layout::Label { .. } => LabelMap::new(media.size, media.sector).split(alloc, span),
        Layout::Concat { map, .. } => split_concat(alloc, map, span),
        Layout::Stripe { map, .. } => split_stripe(alloc, map, span),
        Layout::Nop { offset, .. } => {
            NopMap::new(*offset, media.size, media.sector).split(alloc, span)
        }
    }
}

impl Config {
    /// The pieces of a range of the geom's provider with this name and this size, cut at the end of each component
    /// and of each strip.
    pub fn split(&self, alloc: Global, media: &Media, span: Span) -> Result<PieceList, NoMemory>
        requires some_byte { 0 < span.len }
        requires inside { span.offset + span.len ≤ media.now.size }
        requires covered { Covers self.now media.now.name media.now.size }
        ensures { (x : Provider) → x.name ≡ media.now.name → x.size ≡ media.now.size
            → IfOk result (λ list. list.items ≡ pieces self.now x span.offset span.len) }
    {
        split_by(self.layout(), alloc, media, span)
    }

    /// The pieces of a FLUSH, which goes once through each component.
    pub fn flush(&self, alloc: Global) -> Result<PieceList, NoMemory>
        ensures { IfOk result (λ list. list.items ≡ map (λ c. empty_piece) (components self.now)) }
    {
        let consumers = self.components(alloc)?;
        let mut list = PieceList::new(alloc);
        list.reserve(consumers.len() as u64)?;
        for _ in &consumers {
            list.push(EMPTY);
        }
        Ok(list)
    }

    /// The consumers of these pieces, in their order; a piece at a place that no consumer fills is passed over. One
    /// takes no memory.
    pub fn consumers(
        &self,
        alloc: Global,
        pieces: &[Piece],
    ) -> Result<SmallVec<ConsId, 1>, NoMemory>
        ensures { IfOk result (λ consumers. consumers.items ≡ consumers_for self.now pieces.now) }
    {
        let mut consumers = SmallVec::new(alloc);
        for piece in pieces {
            push_some(&mut consumers, self.component(piece.child))?;
        }
        Ok(consumers)
    }
}

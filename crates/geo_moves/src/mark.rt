//! Records at the last sector of a provider.
ghost use Rattle.std.specs.Prelude.{◌≡◌, ◌≤◌, IfOk, IfSome, IsTrue, length};
ghost use Rattle.std.specs.Option.{option_and_then};
ghost use Rattle.geo_base.specs.Name.{is_short_name};
ghost use Rattle.geo_model.specs.Records.{label_sector, concat_sector, stripe_sector};
ghost use Rattle.geo_model.specs.Topology.{provider_at};
ghost use Rattle.geo_handles.specs.Handles.{named_handle};
ghost use Rattle.geo_moves.specs.Asked.{IsShortMark, mark_bytes, media_sizes, provider_attached};

use geo_base::{Block, ConsId, Name, NoMemory, ProvId};
use geo_class::{Config, concat, label, stripe};
use geo_handles::Handles;
use geo_mesh::Topo;
use geo_model::{ConcatRecord, LabelRecord, StripeRecord};
use std::alloc::Global;

/// A record: a label without or with the provider's size, or a place of a concat or a stripe.
#[derive(Clone, Copy, Debug)]
pub enum Mark {
    Label(Name),
    Relabel(Name),
    Concat(ConcatRecord),
    Stripe(StripeRecord),
}

/// The size of the provider of a handle, and that of its sectors.
pub fn media(topo: &Topo<Config>, handles: &Handles, actor: u32, name: &Name) -> Option<(u64, u32)>
    ensures media { result ≡ media_sizes (option_and_then (λ h. provider_attached topo.now.topology h.consumer)
        (named_handle handles.now.handles actor name.now)) }
    ensures room { IfSome result (λ m. 48 ≤ m.1) }
{
    let id = handles.by_name(actor, name)?;
    match handles.get(id) {
        Some(handle) => media_below(topo, handle.consumer),
        None => None,
    }
}

// The size of the provider to which a consumer is attached, and that of its sectors.
fn media_below(topo: &Topo<Config>, consumer: Option<ConsId>) -> Option<(u64, u32)>
    ensures media { result ≡ media_sizes (provider_attached topo.now.topology consumer) }
    ensures room { IfSome result (λ m. 48 ≤ m.1) }
{
    let target = topo.consumer(consumer?)?.prov?;
    media_at(topo, target)
}

// The size of a provider, and that of its sectors.
fn media_at(topo: &Topo<Config>, prov: ProvId) -> Option<(u64, u32)>
    ensures media { result ≡ media_sizes (provider_at topo.now.topology prov) }
    ensures room { IfSome result (λ m. 48 ≤ m.1) }
{
    match topo.provider(prov) {
        Some(found) => Some((found.size, found.sector)),
        None => None,
    }
}

/// The sector of a record for a provider of this size with sectors of so many bytes.
pub fn sector_of(alloc: Global, mark: &Mark, size: u64, sector: u32) -> Result<Block, NoMemory>
    requires short { IsShortMark mark.now }
    requires room { 48 ≤ sector }
    ensures block { IfOk result (λ block. block ≡ mark_bytes mark.now size sector) }
    ensures len { IfOk result (λ block. length block ≡ sector) }
{
    let mut block = Block::zeros(alloc, sector)?;
    encode(mark, size, &mut block);
    Ok(block)
}

// Fills a block with a record.
fn encode(mark: &Mark, size: u64, block: &mut Block)
    requires short { IsShortMark mark.now }
    requires room { 48 ≤ length block.old }
    ensures block { block.new ≡ mark_bytes mark.now size (length block.old) }
    ensures len { length block.new ≡ length block.old }
{
    match mark {
        Mark::Label(name) => encode_label(*name, None, block),
        Mark::Relabel(name) => encode_label(*name, Some(size), block),
        Mark::Concat(part) => encode_concat(part, block),
        Mark::Stripe(part) => encode_stripe(part, block),
    }
}

// Fills a block with a label.
fn encode_label(name: Name, size: Option<u64>, block: &mut Block)
    requires short { IsTrue (is_short_name name) }
    requires room { 48 ≤ length block.old }
    ensures block { block.new ≡ label_sector (length block.old) (record { name = name; size = size }) }
    ensures len { length block.new ≡ length block.old }
{
    label::encode(&LabelRecord { name, size }, block.bytes_mut());
}

// Fills a block with a place of a concat.
fn encode_concat(part: &ConcatRecord, block: &mut Block)
    requires short { IsTrue (is_short_name part.now.name) }
    requires room { 48 ≤ length block.old }
    ensures block { block.new ≡ concat_sector (length block.old) part.now }
    ensures len { length block.new ≡ length block.old }
{
    concat::encode(part, block.bytes_mut());
}

// Fills a block with a place of a stripe.
fn encode_stripe(part: &StripeRecord, block: &mut Block)
    requires short { IsTrue (is_short_name part.now.name) }
    requires room { 48 ≤ length block.old }
    ensures block { block.new ≡ stripe_sector (length block.old) part.now }
    ensures len { length block.new ≡ length block.old }
{
    stripe::encode(part, block.bytes_mut());
}

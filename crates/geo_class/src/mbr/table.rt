//! The partition table in the first sector of a provider.
ghost use Rattle.std.specs.Prelude.{◌≡◌, ◌≤◌, ◌<◌, ◌==◌, length, map, is_some};
ghost use Rattle.std.specs.List.{list_any, range_with_len};
ghost use Rattle.geo_model.specs.Records.{entry_type, kept_entries, kept_entry, mbr_table};
ghost use Rattle.geo_class.specs.Head.{decoder_answer};

use crate::entry::{entry_count, entry_first, entry_type, has_signature};
use geo_base::{DeclineCause, Declined};
use geo_model::{MbrTable, Slice};

/// The type of an entry that protects a table of another kind.
const PROTECTIVE: u8 = 0xEE;

/// An entry as a slice. It is kept unless its type, its first sector or its size is 0, or its end is past the media.
fn kept_entry(sector: &[u8], sectors: u64, entry: usize) -> Option<Slice>
    requires few { entry < 4 }
    requires room { 512 ≤ length sector.now }
    ensures { result ≡ kept_entry sector.now sectors entry }
{
    let first = entry_first(sector, entry);
    let count = entry_count(sector, entry);
    let end = u64::from(first) + u64::from(count);
    if entry_type(sector, entry) == 0 || first == 0 || count == 0 || sectors < end {
        return None;
    }
    Some(Slice { first, count })
}

/// The types of the four entries.
fn entry_types(sector: &[u8]) -> [u8; 4]
    requires { 512 ≤ length sector.now }
    ensures { result ≡ map (entry_type sector.now) (range_with_len 0 4) }
{
    [
        entry_type(sector, 0),
        entry_type(sector, 1),
        entry_type(sector, 2),
        entry_type(sector, 3),
    ]
}

/// The four entries.
fn kept_entries(sector: &[u8], sectors: u64) -> [Option<Slice>; 4]
    requires { 512 ≤ length sector.now }
    ensures { result ≡ kept_entries sector.now sectors }
{
    [
        kept_entry(sector, sectors, 0),
        kept_entry(sector, sectors, 1),
        kept_entry(sector, sectors, 2),
        kept_entry(sector, sectors, 3),
    ]
}

/// Whether an entry protects a table of another kind.
fn is_protective(sector: &[u8]) -> bool
    requires { 512 ≤ length sector.now }
    ensures { result ≡ list_any (λ k. entry_type sector.now k == 0xEE) (range_with_len 0 4) }
{
    entry_types(sector).contains(&PROTECTIVE)
}

/// Whether an entry is kept.
fn is_any_kept(slices: &[Option<Slice>]) -> bool
    ensures { result ≡ list_any is_some slices.now }
{
    slices.iter().any(|slice| slice.is_some())
}

/// The table in the first sector of a provider with so many sectors. It is declined with the first cause: `Signature`
/// without 0x55, 0xAA at its end, `Protective` with an entry of type 0xEE, `Nothing` where no entry is kept.
pub fn decode(sector: &[u8], sectors: u64) -> Result<MbrTable, Declined>
    requires { 512 ≤ length sector.now }
    ensures { decoder_answer result ≡ mbr_table sector.now sectors }
{
    if !has_signature(sector) {
        return Err(Declined {
            cause: DeclineCause::Signature,
        });
    }
    if is_protective(sector) {
        return Err(Declined {
            cause: DeclineCause::Protective,
        });
    }
    let slices = kept_entries(sector, sectors);
    if !is_any_kept(&slices) {
        return Err(Declined {
            cause: DeclineCause::Nothing,
        });
    }
    Ok(MbrTable { slices })
}

//! What one link says, and what is against it.
ghost use Rattle.std.specs.Prelude.{◌≡◌, ◌≤◌, length, is_some, nat_le};
ghost use Rattle.std.specs.List.{list_any};
ghost use Rattle.geo_model.specs.Chain.{is_link_type, leads_on, named_part, next_link};
ghost use Rattle.geo_model.specs.Records.{entry_type};
ghost use Rattle.geo_class.specs.ebr.Links.{cause_against, is_back};

use crate::entry::{entry_count, entry_first, entry_type, has_signature};
use geo_base::{DeclineCause, MAX_LINKS};
use geo_model::EbrPart;

/// The partition that the link at a sector names, of a provider with so many sectors. It counts from the link, and is
/// kept unless its type, its first sector or its size is 0, or its end is past the media.
pub fn named_part(sector: &[u8], sectors: u64, link: u32) -> Option<EbrPart>
    requires { 512 ≤ length sector.now }
    ensures { result ≡ named_part sectors link sector.now }
{
    let first = entry_first(sector, 0);
    let count = entry_count(sector, 0);
    let start = u64::from(link) + u64::from(first);
    if entry_type(sector, 0) == 0
        || first == 0
        || count == 0
        || sectors < start + u64::from(count)
    {
        return None;
    }
    Some(EbrPart {
        first: start,
        count,
    })
}

/// Whether the second entry is of a type that a link may have: none, or one of the two that lead on.
fn is_link(sector: &[u8]) -> bool
    requires { 512 ≤ length sector.now }
    ensures { result ≡ is_link_type (entry_type sector.now 1) }
{
    matches!(entry_type(sector, 1), 0x00 | 0x05 | 0x0F)
}

/// Whether the second entry leads to another link.
pub fn leads_on(sector: &[u8]) -> bool
    requires { 512 ≤ length sector.now }
    ensures { result ≡ leads_on sector.now }
{
    entry_type(sector, 1) != 0
}

/// The sector of the link to which the second entry leads, counted from the start of the provider.
pub fn next_link(sector: &[u8]) -> u32
    requires { 512 ≤ length sector.now }
    ensures { result ≡ next_link sector.now }
{
    entry_first(sector, 1)
}

/// Whether a sector is 0 or one of the visited ones.
fn is_back(visited: &[u32], sector: u32) -> bool
    ensures { result ≡ is_back visited.now sector }
{
    sector == 0 || visited.contains(&sector)
}

/// Whether the second entry leads to sector 0 or to one of the visited sectors.
fn leads_back(sector: &[u8], visited: &[u32]) -> bool
    requires { 512 ≤ length sector.now }
    ensures { result ≡ is_back visited.now (next_link sector.now) }
{
    is_back(visited, next_link(sector))
}

/// Whether the second entry leads past the media of a provider with so many sectors.
fn leads_past(sector: &[u8], sectors: u64) -> bool
    requires { 512 ≤ length sector.now }
    ensures { result ≡ nat_le sectors (next_link sector.now) }
{
    sectors <= u64::from(next_link(sector))
}

/// Whether there is a partition among these.
fn is_any_kept(parts: &[Option<EbrPart>]) -> bool
    ensures { result ≡ list_any is_some parts.now }
{
    parts.iter().any(|part| part.is_some())
}

/// What is against a chain whose links stand at the visited sectors and name these partitions, and whose last link has
/// the bytes of `sector`.
pub fn cause_against(
    sector: &[u8],
    sectors: u64,
    visited: &[u32],
    parts: &[Option<EbrPart>],
) -> Option<DeclineCause>
    requires room { 512 ≤ length sector.now }
    requires alike { length visited.now ≡ length parts.now }
    ensures { result ≡ cause_against sectors visited.now parts.now sector.now }
{
    if !has_signature(sector) {
        return Some(DeclineCause::Signature);
    }
    if !is_link(sector) {
        return Some(DeclineCause::Second);
    }
    if !leads_on(sector) {
        return if is_any_kept(parts) {
            None
        } else {
            Some(DeclineCause::Nothing)
        };
    }
    if leads_back(sector, visited) {
        return Some(DeclineCause::Loop);
    }
    if leads_past(sector, sectors) {
        return Some(DeclineCause::Far);
    }
    if MAX_LINKS <= visited.len() {
        return Some(DeclineCause::Long);
    }
    None
}

//! Sixty-four numbers in a row, and the key of each that has one.
ghost use Rattle.std.specs.Prelude.{◌≡◌, ◌<◌, IfOk, IfNone, IfSome, Some, None};
ghost use Rattle.geo_slots.specs.declared.page.Page.{Page};
ghost use Rattle.geo_slots.specs.Pages.{IsFull, key_in, IsFirst, IsWith};

use std::alloc::{AllocError, Global};

/// The keys of the 64 numbers of a page.
#[derive(Drop)]
pub struct Page {
    // A bit for each number: whether it has a key.
    pub live: u64,
    // The keys of those that have one. The others count for nothing.
    pub keys: Vec<usize>,
}

/// A page whose numbers have no keys.
pub fn empty(alloc: Global) -> Result<Page, AllocError>
    ensures full { IfOk result IsFull }
    ensures none { IfOk result (λ page. page.live ≡ 0) }
{
    let keys = vec![in alloc; 0; 64]?;
    Ok(Page { live: 0, keys })
}

/// The key of a page's number, if it has one.
pub fn key_in(page: &Page, at: u64) -> Option<usize>
    requires within { at < 64 }
    requires full { IsFull page.now }
    ensures { result ≡ key_in page.now at }
{
    if page.live >> at & 1 == 0 {
        return None;
    }
    Some(page.keys[at as usize])
}

/// The first bit of a page, from one on, that is set: its number is the first that has a key.
pub fn first_live(live: u64, from: u64) -> Option<u64>
    requires { from < 64 }
    ensures first { (page : Page) → page.live ≡ live → IsFirst (key_in page) from 64 result }
    ensures within { IfSome result (λ at. at < 64) }
    ensures none { IfNone result (from ≡ 0 → live ≡ 0) }
{
    let rest = live >> from;
    if rest == 0 {
        return None;
    }
    Some(from + u64::from(rest.trailing_zeros()))
}

/// Gives a number of a page a key.
pub fn set_key(page: &mut Page, at: u64, key: usize)
    requires within { at < 64 }
    requires full { IsFull page.old }
    ensures { IsWith page.old at (Some key) page.new }
{
    page.keys[at as usize] = key;
    page.live |= 1 << at;
}

/// Takes the key of a number of a page away.
pub fn take_key(page: &mut Page, at: u64)
    requires { at < 64 }
    ensures { IsWith page.old at None page.new }
{
    page.live &= !(1 << at);
}

//! The index of a table: from numbers to keys, by pages.
ghost use Rattle.std.specs.Prelude.{◌≡◌, ◌≢◌, ℕ, true, false, ◌<◌, ◌≤◌, ◌+◌, ◌*◌, ◌^◌, [], Some, None, max, IfNone, IfSome, OnOk, MatchResult, ◌/◌, ◌%◌};
ghost use Rattle.std.specs.List.{slice_get};
ghost use Rattle.geo_slots.specs.Slots.{value_at};
ghost use Rattle.geo_slots.specs.declared.page.Page.{Page};
ghost use Rattle.geo_slots.specs.Pages.{AreInOrder, ArePages, AreWith, HaveRoom, IsGap, IsFirst, bits_at, key_in, key_at, page_at};

use crate::page::{Page, empty, first_live, key_in, set_key, take_key};
use std::alloc::{AllocError, Global};
use std::collections::VecDeque;

/// The keys of numbers.
///
/// The pages stand in rising order, each under its number. A page is there as long as one of its numbers has a key, or
/// is still to be given out and has its room.
#[derive(Drop)]
pub struct Index {
    pub pages: VecDeque<(u64, Page)>,
    // The number of the first page that room is still to be made for.
    pub end: u64,
}

/// An index without keys and without room.
pub fn none(alloc: Global) -> Index
    ensures none { result.pages.items ≡ [] }
    ensures end { result.end ≡ 0 }
{
    Index {
        pages: VecDeque::new(alloc),
        end: 0,
    }
}

// Whether a page stands at a place.
fn stands_at(index: &Index, at: usize, page: u64) -> bool
    ensures there { result ≡ true → page_at index.now.pages.items at ≡ Some page }
    ensures not_there { result ≡ false → page_at index.now.pages.items at ≢ Some page }
{
    match index.pages.get(at) {
        Some((number, _)) => *number == page,
        None => false,
    }
}

// Where a page stands or would stand, by halving.
#[inline(never)]
fn search(index: &Index, page: u64) -> Result<usize, usize>
    requires { AreInOrder index.now.pages.items index.now.end }
    ensures { MatchResult result (λ at. page_at index.now.pages.items at ≡ Some page)
        (IsGap index.now.pages.items page) }
{
    let at = index.pages.partition_point(|entry| entry.0 < page);
    if stands_at(index, at, page) {
        Ok(at)
    } else {
        Err(at)
    }
}

// Where a page stands, if none behind it is missing.
#[inline]
fn guess(index: &Index, page: u64) -> usize {
    page.wrapping_add(index.pages.len() as u64)
        .wrapping_sub(index.end) as usize
}

// Where a page stands or would stand.
fn place(index: &Index, page: u64) -> Result<usize, usize>
    requires { AreInOrder index.now.pages.items index.now.end }
    ensures { MatchResult result (λ at. page_at index.now.pages.items at ≡ Some page)
        (IsGap index.now.pages.items page) }
{
    let guess = guess(index, page);
    if stands_at(index, guess, page) {
        Ok(guess)
    } else {
        search(index, page)
    }
}

// The page at a place, if it is this one.
#[inline]
fn page_there(index: &Index, at: usize, page: u64) -> Option<&Page>
    requires { AreInOrder index.now.pages.items index.now.end }
    ensures { IfSome result (λ slots. value_at index.now.pages.items page ≡ Some slots.now) }
{
    match index.pages.get(at) {
        Some((number, slots)) if *number == page => Some(slots),
        _ => None,
    }
}

// The key of a number, by a search for its page.
#[inline(never)]
fn key_by_search(index: &Index, number: u64) -> Option<usize>
    requires { AreInOrder index.now.pages.items index.now.end }
    ensures { result ≡ key_at index.now.pages.items number }
{
    match search(index, number / 64) {
        Ok(at) => key_in(&index.pages[at].1, number % 64),
        Err(_) => None,
    }
}

// Where a page stands, if none before it is missing.
#[inline]
fn guess_from_front(index: &Index, page: u64) -> usize {
    match index.pages.front() {
        Some((first, _)) => page.wrapping_sub(*first) as usize,
        None => 0,
    }
}

// The key of a number whose page doesn't stand where its distance from the end says.
#[inline(never)]
fn key_elsewhere(index: &Index, number: u64) -> Option<usize>
    requires { AreInOrder index.now.pages.items index.now.end }
    ensures { result ≡ key_at index.now.pages.items number }
{
    let page = number / 64;
    match page_there(index, guess_from_front(index, page), page) {
        Some(slots) => key_in(slots, number % 64),
        None => key_by_search(index, number),
    }
}

/// The key of a number, if it has one.
#[inline]
pub fn key_of(index: &Index, number: u64) -> Option<usize>
    requires { AreInOrder index.now.pages.items index.now.end }
    ensures { result ≡ key_at index.now.pages.items number }
{
    let page = number / 64;
    match page_there(index, guess(index, page), page) {
        Some(slots) => key_in(slots, number % 64),
        None => key_elsewhere(index, number),
    }
}

// The first number of a page that isn't below a number and has a key, by the page's bits.
fn first_on(page: u64, live: u64, number: u64) -> Option<u64>
    requires small { page * 64 + 64 ≤ 2 ^ 64 }
    requires within { number < page * 64 + 64 }
    ensures first { (slots : Page) → slots.live ≡ live
        → IsFirst (λ n. key_in slots (n % 64)) (max number (page * 64)) (page * 64 + 64) result }
    ensures none { IfNone result (number ≤ page * 64 → live ≡ 0) }
{
    let first = page * 64;
    match first_live(live, number.saturating_sub(first)) {
        Some(found) => Some(first + found),
        None => None,
    }
}

// The number and the bits of the page at a place.
fn bits_at(index: &Index, at: usize) -> Option<(u64, u64)>
    ensures { result ≡ bits_at index.now.pages.items at }
{
    match index.pages.get(at) {
        Some((page, slots)) => Some((*page, slots.live)),
        None => None,
    }
}

// The same of the page at a place.
fn first_at(index: &Index, at: usize, number: u64) -> Option<u64>
    requires in_order { AreInOrder index.now.pages.items index.now.end }
    requires within { (page : ℕ) → page_at index.now.pages.items at ≡ Some page → number < page * 64 + 64 }
    ensures past { page_at index.now.pages.items at ≡ None → result ≡ None }
    ensures first { (page : ℕ) → page_at index.now.pages.items at ≡ Some page
        → IsFirst (key_at index.now.pages.items) (max number (page * 64)) (page * 64 + 64) result }
    ensures none { IfNone result ((page : ℕ) (slots : Page)
        → slice_get index.now.pages.items at ≡ Some (page, slots) → number ≤ page * 64 → slots.live ≡ 0) }
{
    match bits_at(index, at) {
        Some((page, live)) => first_on(page, live, number),
        None => None,
    }
}

/// The first number that isn't below a number and has a key.
pub fn first_key(index: &Index, number: u64) -> Option<u64>
    requires { AreInOrder index.now.pages.items index.now.end }
    ensures { (next : ℕ) → ArePages index.now.pages.items index.now.end next
        → IsFirst (key_at index.now.pages.items) number next result }
{
    match place(index, number / 64) {
        Ok(at) => match first_at(index, at, number) {
            Some(found) => Some(found),
            None => first_at(index, at + 1, number),
        },
        Err(at) => first_at(index, at, number),
    }
}

/// Makes the pages below a page.
pub fn reserve(index: &mut Index, end: u64) -> Result<(), AllocError>
    requires in_order { AreInOrder index.old.pages.items index.old.end }
    requires small { end * 64 ≤ 2 ^ 64 }
    ensures room { HaveRoom index.old.pages.items index.old.end index.new.pages.items index.new.end }
    ensures enough { OnOk result (end ≤ index.new.end) }
{
    while index.end < end {
        let page = empty(*index.pages.allocator())?;
        index.pages.push_back((index.end, page))?;
        index.end += 1;
    }
    Ok(())
}

/// Gives the next number a key.
pub fn insert(index: &mut Index, next: u64, key: usize)
    requires pages { ArePages index.old.pages.items index.old.end next }
    requires room { next < index.old.end * 64 }
    ensures pages { ArePages index.new.pages.items index.new.end (next + 1) }
    ensures keys { AreWith index.old.pages.items next (Some key) index.new.pages.items }
    ensures end { index.new.end ≡ index.old.end }
{
    let Ok(at) = place(index, next / 64) else {
        unreachable!()
    };
    set_key(&mut index.pages[at].1, next % 64, key);
}

// Takes the key of a number of the page at a place away. The page goes too if no number has a key any more and the next
// number is behind it.
fn clear(index: &mut Index, at: usize, number: u64, next: u64)
    requires pages { ArePages index.old.pages.items index.old.end next }
    requires there { page_at index.old.pages.items at ≡ Some (number / 64) }
    ensures pages { ArePages index.new.pages.items index.new.end next }
    ensures keys { AreWith index.old.pages.items number None index.new.pages.items }
    ensures end { index.new.end ≡ index.old.end }
{
    take_key(&mut index.pages[at].1, number % 64);
    if number / 64 >= next / 64 {
        return;
    }
    if index.pages[at].1.live != 0 {
        return;
    }
    let _ = index.pages.remove(at);
}

/// Takes the key of a number away.
pub fn remove(index: &mut Index, number: u64, next: u64) -> Option<usize>
    requires { ArePages index.old.pages.items index.old.end next }
    ensures key { result ≡ key_at index.old.pages.items number }
    ensures pages { ArePages index.new.pages.items index.new.end next }
    ensures keys { AreWith index.old.pages.items number None index.new.pages.items }
    ensures end { index.new.end ≡ index.old.end }
{
    match place(index, number / 64) {
        Ok(at) => {
            let key = key_in(&index.pages[at].1, number % 64);
            clear(index, at, number, next);
            key
        }
        Err(_) => None,
    }
}

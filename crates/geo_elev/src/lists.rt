//! What waits for a disk, in two lists: by places what may be taken next, and by numbers what comes behind that.
ghost use Rattle.std.specs.Prelude.{◌≡◌, ◌+◌, [], ◌∷◌, ◌++◌, ◌||◌, false, not, drop, IfOk, IsTrue, MatchOption, OnErr, OnOk};
ghost use Rattle.std.specs.Option.{option_map};
ghost use Rattle.geo_headline.specs.Sweep.{before_flush, candidates, next_of};
ghost use Rattle.geo_elev.specs.Front.{is_none_of};
ghost use Rattle.geo_elev.specs.Lists.{AreLists, Rises, all_waiting, are_below, joins, listed, one_at, taken_if, waiting_in};

use crate::front::{Front, bio_in, key};
use geo_base::NoMemory;
use std::alloc::Global;
use std::collections::VecDeque;

/// What a disk is asked for: whether that is a FLUSH, and the sector at which it begins.
#[derive(Clone, Copy, Debug, PartialEq, Eq)]
pub struct Place {
    /// Whether it is a FLUSH.
    pub flush: bool,
    /// The first sector.
    pub first: u64,
}

/// What waits for a disk. `front`: the keys of what may be taken next. `flush`: whether that is a FLUSH. `later`: what
/// comes behind it, in order of numbers. `last`: no number is greater.
#[derive(Drop)]
pub struct Lists {
    pub front: Front,
    pub flush: bool,
    pub later: VecDeque<(u64, Place)>,
    pub last: u64,
}

/// Lists in which nothing waits.
pub fn none(alloc: Global) -> Lists
    ensures lists { AreLists result.front result.flush result.later.items result.last }
    ensures none { all_waiting result.front result.flush result.later.items ≡ [] }
{
    Lists {
        front: Front::new(alloc),
        flush: false,
        later: VecDeque::new(alloc),
        last: 0,
    }
}

/// Empties the lists.
pub fn clear(lists: &mut Lists)
    ensures lists { AreLists lists.new.front lists.new.flush lists.new.later.items lists.new.last }
    ensures none { all_waiting lists.new.front lists.new.flush lists.new.later.items ≡ [] }
{
    lists.front.clear();
    lists.flush = false;
    lists.later.clear();
    lists.last = 0;
}

/// The disk's head stands at a sector. It is noted where nothing may be taken next.
pub fn turn(lists: &mut Lists, head: u64)
    requires { AreLists lists.old.front lists.old.flush lists.old.later.items lists.old.last }
    ensures lists { AreLists lists.new.front lists.new.flush lists.new.later.items lists.new.last }
    ensures same { all_waiting lists.new.front lists.new.flush lists.new.later.items
        ≡ all_waiting lists.old.front lists.old.flush lists.old.later.items }
{
    lists.front.turn(head);
}

/// The number of the bio that the disk takes next, with its head at a sector: of those that aren't behind the head the
/// one with the smallest place, or where all are, of all.
pub fn next(lists: &Lists, head: u64) -> Option<u64>
    requires { AreLists lists.now.front lists.now.flush lists.now.later.items lists.now.last }
    ensures { result ≡ option_map (λ x. x.bio) (next_of head (candidates
        (all_waiting lists.now.front lists.now.flush lists.now.later.items))) }
{
    if let Some(key) = lists.front.least_ahead(head) {
        return Some(bio_in(key));
    }
    match lists.front.least() {
        Some(key) => Some(bio_in(key)),
        None => None,
    }
}

// Whether all that comes behind has smaller numbers.
fn later_below(later: &VecDeque<(u64, Place)>, bio: u64) -> bool
    ensures { result ≡ are_below bio (waiting_in later.now.items) }
{
    let mut at = 0;
    while at < later.len() {
        if later[at].0 >= bio {
            return false;
        }
        at += 1;
    }
    true
}

/// Whether all that waits has smaller numbers.
pub fn are_below(lists: &Lists, bio: u64) -> bool
    requires { AreLists lists.now.front lists.now.flush lists.now.later.items lists.now.last }
    ensures { result ≡ are_below bio (all_waiting lists.now.front lists.now.flush lists.now.later.items) }
{
    if lists.last < bio {
        return true;
    }
    if lists.front.are_below(bio) {
        later_below(&lists.later, bio)
    } else {
        false
    }
}

// Whether nothing comes behind.
fn none_later(later: &VecDeque<(u64, Place)>) -> bool
    ensures { result ≡ is_none_of later.now.items }
{
    later.is_empty()
}

// Whether none of two holds.
fn neither(one: bool, other: bool) -> bool
    ensures { result ≡ not (one || other) }
{
    !one && !other
}

// Whether one more at the end may be taken next.
fn joins(lists: &Lists, flush: bool) -> bool
    requires { AreLists lists.now.front lists.now.flush lists.now.later.items lists.now.last }
    ensures { result ≡ joins (all_waiting lists.now.front lists.now.flush lists.now.later.items) flush }
{
    if !none_later(&lists.later) {
        return false;
    }
    if lists.front.is_empty() {
        return true;
    }
    neither(lists.flush, flush)
}

// One more that may be taken next.
fn add_next(lists: &mut Lists, bio: u64, place: Place) -> Result<(), NoMemory>
    requires lists { AreLists lists.old.front lists.old.flush lists.old.later.items lists.old.last }
    requires below { IsTrue (are_below bio
        (all_waiting lists.old.front lists.old.flush lists.old.later.items)) }
    requires joins { IsTrue (joins
        (all_waiting lists.old.front lists.old.flush lists.old.later.items) place.flush) }
    ensures lists { OnOk result (AreLists lists.new.front lists.new.flush lists.new.later.items bio) }
    ensures put { OnOk result (all_waiting lists.new.front lists.new.flush lists.new.later.items
        ≡ all_waiting lists.old.front lists.old.flush lists.old.later.items ++ one_at bio place ∷ []) }
{
    lists.front.add(key(bio, place.first))?;
    lists.flush = place.flush;
    Ok(())
}

// One more that comes behind.
fn add_later(later: &mut VecDeque<(u64, Place)>, bio: u64, place: Place) -> Result<(), NoMemory>
    ensures { OnOk result (waiting_in later.new.items ≡ waiting_in later.old.items ++ one_at bio place ∷ []) }
{
    match later.push_back((bio, place)) {
        Ok(()) => Ok(()),
        Err(_) => Err(NoMemory),
    }
}

// One more waits.
fn add(lists: &mut Lists, bio: u64, place: Place) -> Result<(), NoMemory>
    requires lists { AreLists lists.old.front lists.old.flush lists.old.later.items lists.old.last }
    requires below { IsTrue (are_below bio
        (all_waiting lists.old.front lists.old.flush lists.old.later.items)) }
    ensures lists { OnOk result (AreLists lists.new.front lists.new.flush lists.new.later.items bio) }
    ensures put { OnOk result (all_waiting lists.new.front lists.new.flush lists.new.later.items
        ≡ all_waiting lists.old.front lists.old.flush lists.old.later.items ++ one_at bio place ∷ []) }
{
    if joins(lists, place.flush) {
        add_next(lists, bio, place)
    } else {
        add_later(&mut lists.later, bio, place)
    }
}

/// One more waits, with a greater number than all. Where memory is wanting nothing is left.
pub fn put(lists: &mut Lists, bio: u64, place: Place) -> Result<(), NoMemory>
    requires lists { AreLists lists.old.front lists.old.flush lists.old.later.items lists.old.last }
    requires below { IsTrue (are_below bio
        (all_waiting lists.old.front lists.old.flush lists.old.later.items)) }
    ensures lists { AreLists lists.new.front lists.new.flush lists.new.later.items lists.new.last }
    ensures put { OnOk result (all_waiting lists.new.front lists.new.flush lists.new.later.items
        ≡ all_waiting lists.old.front lists.old.flush lists.old.later.items ++ one_at bio place ∷ []) }
    ensures lost { OnErr result (all_waiting lists.new.front lists.new.flush lists.new.later.items ≡ []) }
{
    match add(lists, bio, place) {
        Ok(()) => {
            lists.last = bio;
            Ok(())
        }
        Err(refused) => {
            clear(lists);
            Err(refused)
        }
    }
}

// The first that comes behind, if it is no FLUSH.
fn first_later(later: &VecDeque<(u64, Place)>) -> Option<(u64, Place)>
    ensures { MatchOption result (before_flush (waiting_in later.now.items) ≡ [])
        (λ e. (later.now.items ≡ e ∷ drop 1 later.now.items) × (e.1.flush ≡ false)) }
{
    match later.front() {
        Some(first) if !first.1.flush => Some(*first),
        _ => None,
    }
}

// All that stands before the first FLUSH may be taken next too.
fn fill_on(front: &mut Front, later: &mut VecDeque<(u64, Place)>) -> Result<(), NoMemory>
    requires rises { Rises 0 (all_waiting front.old false later.old.items) }
    requires some { is_none_of front.old ≡ false }
    ensures same { OnOk result (all_waiting front.new false later.new.items
        ≡ all_waiting front.old false later.old.items) }
    ensures some { OnOk result (is_none_of front.new ≡ false) }
    ensures end { OnOk result (before_flush (waiting_in later.new.items) ≡ []) }
{
    while let Some((bio, place)) = first_later(later) {
        front.add(key(bio, place.first))?;
        let _ = later.pop_front();
    }
    Ok(())
}

// Where none has a key, what may be taken next of what comes behind: a FLUSH that stands in front, alone; else what
// stands before the first one.
fn fill(lists: &mut Lists) -> Result<(), NoMemory>
    requires none { lists.old.front ≡ [] }
    requires rises { Rises 0 (waiting_in lists.old.later.items) }
    ensures next { OnOk result (candidates
        (all_waiting lists.new.front lists.new.flush lists.new.later.items)
        ≡ listed lists.new.flush lists.new.front) }
    ensures same { OnOk result (all_waiting lists.new.front lists.new.flush lists.new.later.items
        ≡ waiting_in lists.old.later.items) }
    ensures last { lists.new.last ≡ lists.old.last }
{
    let Some((bio, place)) = lists.later.pop_front() else {
        return Ok(());
    };
    lists.front.add(key(bio, place.first))?;
    lists.flush = place.flush;
    if place.flush {
        return Ok(());
    }
    fill_on(&mut lists.front, &mut lists.later)
}

// The same; where memory is wanting nothing is left.
fn refill(lists: &mut Lists) -> Result<(), NoMemory>
    requires none { lists.old.front ≡ [] }
    requires rises { Rises 0 (waiting_in lists.old.later.items) }
    requires below { IsTrue (are_below (lists.old.last + 1) (waiting_in lists.old.later.items)) }
    ensures lists { AreLists lists.new.front lists.new.flush lists.new.later.items lists.new.last }
    ensures same { OnOk result (all_waiting lists.new.front lists.new.flush lists.new.later.items
        ≡ waiting_in lists.old.later.items) }
    ensures lost { OnErr result (all_waiting lists.new.front lists.new.flush lists.new.later.items ≡ []) }
{
    match fill(lists) {
        Ok(()) => Ok(()),
        Err(refused) => {
            clear(lists);
            Err(refused)
        }
    }
}

/// The bio that the disk takes next waits no longer, if it is this one, whose place begins at a sector, and true; else
/// false, and all waits as before. The head goes to that sector, but for a FLUSH. Where memory is wanting nothing is
/// left.
pub fn take(lists: &mut Lists, bio: u64, first: u64) -> Result<bool, NoMemory>
    requires { AreLists lists.old.front lists.old.flush lists.old.later.items lists.old.last }
    ensures lists { AreLists lists.new.front lists.new.flush lists.new.later.items lists.new.last }
    ensures taken { IfOk result (λ b. all_waiting lists.new.front lists.new.flush lists.new.later.items
        ≡ taken_if b bio (all_waiting lists.old.front lists.old.flush lists.old.later.items)) }
    ensures lost { OnErr result (all_waiting lists.new.front lists.new.flush lists.new.later.items ≡ []) }
{
    if !lists.front.take(key(bio, first), !lists.flush) {
        return Ok(false);
    }
    if lists.front.is_empty() {
        refill(lists)?;
    }
    Ok(true)
}

//! The keys of what may be taken next from a disk, in two heaps: what lies ahead of its head, and what lies behind.
ghost use Rattle.std.specs.Prelude.{◌≡◌, ◌+◌, ◌*◌, ◌/◌, ◌%◌, ◌^◌, ◌≤◌, [], ◌∷◌, false, IfOk, IsTrue, OnErr, OnOk, IsPermutation, nat_lt};
ghost use Rattle.std.specs.BinaryHeap.{IsHeap, heap_items};
ghost use Rattle.std.specs.List.{AllByRecursion, list_all};
ghost use Rattle.geo_elev.specs.Front.{IsNextKey, IsTop, is_none_of, key_order, keys_in, least_with, lesser, with_key};

use geo_base::NoMemory;
use std::alloc::Global;
use std::cmp::Reverse;
use std::collections::BinaryHeap;
use std::marker::Model;
use std::mem;

/// The keys of what may be taken next from a disk. Contracts see them in ascending order. `ahead`: those from the place
/// of the head on. `behind`: those before it. The least is on top of each. `head`: the sector where the head stands.
#[derive(Drop)]
pub struct Front {
    ahead: BinaryHeap<Reverse<u128>>,
    behind: BinaryHeap<Reverse<u128>>,
    head: u64,
}

impl Model for Front {
    ghost use Rattle.std.specs.Prelude.{ℕ, List};
    ghost use Rattle.std.specs.BinaryHeap.{heap_items};
    ghost use Rattle.geo_elev.specs.Front.{AreParted, keys_of};

    ghost Value = { List ℕ };

    ghost view = { λ f. keys_of (heap_items f.ahead) (heap_items f.behind) };

    ghost invariant = { λ f. AreParted (heap_items f.ahead) (heap_items f.behind) f.head };
}

impl Front {
    /// No keys, with the head at sector 0.
    pub fn new(alloc: Global) -> Front
        ensures { result ≡ [] }
    {
        Front {
            ahead: BinaryHeap::new(alloc),
            behind: BinaryHeap::new(alloc),
            head: 0,
        }
    }

    /// Takes out all, and the head stands at sector 0.
    pub fn clear(&mut self)
        ensures { self.new ≡ [] }
    {
        self.ahead.clear();
        self.behind.clear();
        self.head = 0;
    }

    /// Whether there is no key.
    pub fn is_empty(&self) -> bool
        ensures { result ≡ is_none_of self.now }
    {
        has_none(&self.ahead) && has_none(&self.behind)
    }

    /// The head stands at a sector. It is noted where there is no key.
    pub fn turn(&mut self, head: u64)
        ensures { self.new ≡ self.old }
    {
        if has_none(&self.ahead) && has_none(&self.behind) {
            self.head = head;
        }
    }

    /// One key more.
    pub fn add(&mut self, key: u128) -> Result<(), NoMemory>
        ensures { OnOk result (self.new ≡ with_key key self.old) }
    {
        if first_in(key) < self.head {
            add_to(&mut self.behind, key)
        } else {
            add_to(&mut self.ahead, key)
        }
    }

    /// Takes out a key, if it is the next one, and true; else false, and all stays. Where the head moves, it stands at
    /// the place of this key then.
    pub fn take(&mut self, key: u128, moves: bool) -> bool
        ensures taken { IsTrue result → self.old ≡ with_key key self.new }
        ensures same { result ≡ false → self.new ≡ self.old }
    {
        if has_none(&self.ahead) {
            if !take_top(&mut self.behind, key) {
                return false;
            }
            if moves {
                mem::swap(&mut self.ahead, &mut self.behind);
                self.head = first_in(key);
            }
            return true;
        }
        if !take_top(&mut self.ahead, key) {
            return false;
        }
        if moves {
            self.head = first_in(key);
        }
        true
    }

    /// The least key of those that aren't behind a head at a sector. Where that is the head by which the keys are
    /// parted, it is found at once; else all are looked at.
    pub fn least_ahead(&self, head: u64) -> Option<u128>
        ensures { IsNextKey self.now (head * 2 ^ 64) result }
    {
        if head == self.head {
            return top(&self.ahead);
        }
        let low = u128::from(head) * 18_446_744_073_709_551_616;
        least_in(
            self.behind.as_slice(),
            low,
            least_in(self.ahead.as_slice(), low, None),
        )
    }

    /// The least key.
    pub fn least(&self) -> Option<u128>
        ensures { IsNextKey self.now 0 result }
    {
        match top(&self.behind) {
            Some(key) => Some(key),
            None => top(&self.ahead),
        }
    }

    /// Whether all that has these keys has smaller numbers.
    pub fn are_below(&self, bio: u64) -> bool
        ensures { result ≡ list_all (λ k. nat_lt (k % 2 ^ 64) bio) self.now }
    {
        if keys_below(self.ahead.as_slice(), bio) {
            keys_below(self.behind.as_slice(), bio)
        } else {
            false
        }
    }
}

/// The key of a bio whose place begins at a sector: it rises with the sector, and among equal ones with the number.
pub fn key(bio: u64, first: u64) -> u128
    ensures { result ≡ first * 2 ^ 64 + bio }
{
    u128::from(first) * 18_446_744_073_709_551_616 + u128::from(bio)
}

/// The number of the bio with this key.
pub fn bio_in(key: u128) -> u64
    ensures { result ≡ key % 2 ^ 64 }
{
    (key % 18_446_744_073_709_551_616) as u64
}

// The sector at which the place with this key begins.
fn first_in(key: u128) -> u64
    ensures { result ≡ key / 2 ^ 64 }
{
    (key / 18_446_744_073_709_551_616) as u64
}

// Whether a heap has no key.
fn has_none(heap: &BinaryHeap<Reverse<u128>>) -> bool
    ensures { result ≡ is_none_of (heap_items heap.now) }
{
    heap.as_slice().is_empty()
}

// The least key of a heap.
fn top(heap: &BinaryHeap<Reverse<u128>>) -> Option<u128>
    requires { IsHeap key_order (heap_items heap.now) }
    ensures { IsTop (heap_items heap.now) result }
{
    match heap.peek() {
        Some(key) => Some(key.0),
        None => None,
    }
}

// One key more in a heap.
fn add_to(heap: &mut BinaryHeap<Reverse<u128>>, key: u128) -> Result<(), NoMemory>
    ensures more { OnOk result (IsPermutation (key ∷ keys_in (heap_items heap.old)) (keys_in (heap_items heap.new))) }
    ensures same { OnErr result (heap_items heap.new ≡ heap_items heap.old) }
    ensures order { IsHeap key_order (heap_items heap.old) → IsHeap key_order (heap_items heap.new) }
{
    match heap.push(Reverse(key)) {
        Ok(()) => Ok(()),
        Err(_) => Err(NoMemory),
    }
}

// Takes out the least key of a heap, if it is this one.
fn take_top(heap: &mut BinaryHeap<Reverse<u128>>, key: u128) -> bool
    requires { IsHeap key_order (heap_items heap.old) }
    ensures order { IsHeap key_order (heap_items heap.new) }
    ensures taken { IsTrue result
        → IsPermutation (keys_in (heap_items heap.old)) (key ∷ keys_in (heap_items heap.new)) }
    ensures least { IsTrue result → AllByRecursion (λ k. key ≤ k) (keys_in (heap_items heap.new)) }
    ensures same { result ≡ false → heap_items heap.new ≡ heap_items heap.old }
{
    match heap.peek() {
        Some(next) if next.0 == key => {}
        _ => return false,
    }
    heap.pop().is_some()
}

// The lesser of a key and one that was found, if the key is from a low one on.
fn lesser(found: Option<u128>, key: u128, low: u128) -> Option<u128>
    ensures { result ≡ lesser low key found }
{
    if key < low {
        return found;
    }
    match found {
        Some(other) if other <= key => Some(other),
        _ => Some(key),
    }
}

// The least of these keys from a low one on, and of one that was found.
fn least_in(keys: &[Reverse<u128>], low: u128, found: Option<u128>) -> Option<u128>
    ensures { result ≡ least_with low (keys_in keys.now) found }
{
    let mut least = found;
    for key in keys {
        least = lesser(least, key.0, low);
    }
    least
}

// Whether all that has these keys has smaller numbers.
fn keys_below(keys: &[Reverse<u128>], bio: u64) -> bool
    ensures { result ≡ list_all (λ k. nat_lt (k % 2 ^ 64) bio) (keys_in keys.now) }
{
    for key in keys {
        if bio_in(key.0) >= bio {
            return false;
        }
    }
    true
}

//! A table of values under numbers.
ghost use Rattle.std.specs.Prelude.{◌≡◌, ◌<◌, ◌≤◌, ◌^◌, max, [], IsOk, OnOk, option_copied};
ghost use Rattle.std.specs.Option.{option_copied_mut};
ghost use Rattle.std.specs.Borrow.{sem};
ghost use Rattle.geo_slots.specs.Slots.{IsRising, value_at, first_from, with_insert, without};

use crate::index::{self, Index};
use slab::Slab;
use std::alloc::{AllocError, Global};
use std::marker::Model;

/// Want of memory.
pub type NoMemory = AllocError;

/// Values under numbers that count from 1 on. A number is given out once: it isn't used again where its value is
/// removed.
///
/// Contracts see the rows, each a number with its value, in rising order of the numbers, beside the next number and
/// the spare room. The values stand in a slab; the index tells the key of each number. It has room for each number that
/// room was reserved for, so that an insert takes no memory.
#[derive(Drop)]
pub struct Slots<T> {
    // The key of each number that has a value.
    index: Index,
    values: Slab<T>,
    next: u64,
    spare: u64,
}

impl<T> Model for Slots<T> {
    ghost use Rattle.geo_slots.specs.Slots.{SlotsView};
    ghost use Rattle.geo_slots.specs.Index.{rows_of, IsIndex};

    ghost Value = { SlotsView T };

    ghost view = { λ s. record { rows = rows_of s.values s.index.pages.items s.next; next = s.next; spare = s.spare } };

    ghost invariant = { λ s. IsIndex s.index.pages.items s.index.end s.values s.next s.spare };
}

impl<T> Slots<T> {
    ghost use Rattle.geo_slots.specs.Lending.{lends_value};

    /// A table without values, whose first number will be 1. It takes no memory yet.
    pub fn new(alloc: Global) -> Slots<T>
        ensures { result ≡ record { rows = []; next = 1; spare = 0 } }
    {
        Slots {
            index: index::none(alloc),
            values: Slab::new(alloc),
            next: 1,
            spare: 0,
        }
    }

    /// The value under a number.
    pub fn get(&self, number: u64) -> Option<&T>
        ensures value { option_copied result ≡ value_at self.now.rows number }
        ensures rising { IsRising 1 self.now.rows self.now.next }
        ensures bound { self.now.next < 2 ^ 64 }
    {
        match index::key_of(&self.index, number) {
            Some(key) => self.values.get(key),
            None => None,
        }
    }

    /// The value under a number, to be changed.
    pub fn get_mut(&mut self, number: u64) -> Option<&mut T>
        ensures* writes_back { sem 𝓛 (lends_value T.row self.entry number result) }
        ensures value { option_copied_mut result ≡ value_at self.old.rows number }
        ensures rising { IsRising 1 self.old.rows self.old.next }
        ensures bound { self.old.next < 2 ^ 64 }
    {
        match index::key_of(&self.index, number) {
            Some(key) => self.values.get_mut(key),
            None => None,
        }
    }

    /// The least number that has a value and isn't below a number.
    pub fn first_from(&self, number: u64) -> Option<u64>
        ensures first { result ≡ first_from self.now.rows number }
        ensures rising { IsRising 1 self.now.rows self.now.next }
        ensures bound { self.now.next < 2 ^ 64 }
    {
        index::first_key(&self.index, number)
    }

    /// The number that the next value gets.
    pub fn next_number(&self) -> u64
        ensures { result ≡ self.now.next }
    {
        self.next
    }

    /// Makes room for `count` values, so that as many inserts take no memory. Where memory is wanting the values
    /// stay, and the room is no less than it was.
    pub fn reserve(&mut self, count: u64) -> Result<(), NoMemory>
        ensures values_stay { self.new ≡ record self.old { spare = self.new.spare } }
        ensures room_stays { self.old.spare ≤ self.new.spare }
        ensures room { OnOk result (count ≤ self.new.spare) }
        ensures had_room { count ≤ self.old.spare → IsOk result }
        ensures no_more { self.new.spare ≤ max self.old.spare count }
    {
        if count <= self.spare {
            return Ok(());
        }
        let Some(end) = self.next.checked_add(count) else {
            return Err(AllocError);
        };
        self.values.reserve(count as usize)?;
        index::reserve(&mut self.index, (end - 1) / 64 + 1)?;
        self.spare = count;
        Ok(())
    }

    /// Puts a value under the next number, which is answered. It takes no memory.
    pub fn insert(&mut self, value: T) -> u64
        requires { 1 ≤ self.old.spare }
        ensures number { result ≡ self.old.next }
        ensures inserted { self.new ≡ with_insert self.old value }
        ensures rising { IsRising 1 self.old.rows self.old.next }
        ensures bound { self.new.next < 2 ^ 64 }
    {
        let number = self.next;
        let key = self.values.insert_reserved(value);
        index::insert(&mut self.index, number, key);
        self.next += 1;
        self.spare -= 1;
        number
    }

    /// Takes out the value under a number. The number isn't used again.
    pub fn remove(&mut self, number: u64) -> Option<T>
        ensures value { result ≡ value_at self.old.rows number }
        ensures removed { self.new ≡ record self.old { rows = without self.old.rows number } }
        ensures rising { IsRising 1 self.old.rows self.old.next }
    {
        match index::remove(&mut self.index, number, self.next) {
            Some(key) => self.values.try_remove(key),
            None => None,
        }
    }
}

//! What finds numbers by their names.
ghost use Rattle.std.specs.Prelude.{◌≡◌, ◌≤◌, ◌+◌, Some, IsOk, OnOk};
ghost use Rattle.geo_slots.specs.Slots.{without};
ghost use Rattle.geo_names.specs.Names.{no_names, with_name, first_named, last_named};
ghost use Rattle.geo_names.specs.Inside.{IsInside, HaveRooms, id_of, rows_inside, room_of};

use crate::key::Key;
use geo_base::{Name, NoMemory};
use geo_family::Family;
use geo_slots::Slots;
use std::alloc::Global;
use std::collections::HashMap;
use std::marker::Model;

/// What is kept of names: the id of each name that is in use, the name of each id, and the numbers under the ids of
/// their names.
#[derive(Drop)]
pub struct Inside {
    pub ids: HashMap<Key, u64>,
    pub texts: Slots<Name>,
    pub alike: Family,
}

/// Numbers that count from 1 and aren't used again, each with a name; many may have one name.
///
/// Contracts see the rows, each a number with its name, in rising order of the numbers, beside the next number and
/// for how many more memory is kept.
#[derive(Drop)]
pub struct Names {
    inside: Inside,
}

impl Model for Names {
    ghost use Rattle.geo_names.specs.Names.{NamesView};

    ghost Value = { NamesView };

    ghost use Rattle.geo_names.specs.Inside.{names_view, IsInside};

    ghost view = { λ n. names_view n.inside };

    ghost invariant = { λ n. IsInside n.inside };
}

impl Names {
    /// No name. It takes no memory yet.
    pub fn new(alloc: Global) -> Names
        ensures { result ≡ no_names result.room }
    {
        Names {
            inside: Inside {
                ids: HashMap::new(alloc),
                texts: Slots::new(alloc),
                alike: Family::new(alloc),
            },
        }
    }

    /// Keeps room for so many more. Where memory is wanting all stays, and the room is no less than it was.
    pub fn reserve(&mut self, count: u64) -> Result<(), NoMemory>
        ensures same { self.new ≡ record self.old { room = self.new.room } }
        ensures room { OnOk result (count ≤ self.new.room) }
        ensures room_stays { self.old.room ≤ self.new.room }
        ensures had_room { count ≤ self.old.room → IsOk result }
    {
        self.inside.ids.reserve(count as usize)?;
        self.inside.texts.reserve(count)?;
        self.inside.alike.reserve(count, count)?;
        Ok(())
    }

    /// The next number gets a name. It takes no memory.
    pub fn add(&mut self, name: &Name) -> u64
        requires { 1 ≤ self.old.room }
        ensures number { result ≡ self.old.next }
        ensures added { self.new ≡ record (with_name self.old name.now) { room = self.new.room } }
        ensures room { self.old.room ≤ self.new.room + 1 }
    {
        let id = self.inside.id_for(name);
        self.inside.alike.add_child_of(id)
    }

    /// Takes a number away; `name` is its name.
    pub fn remove(&mut self, name: &Name, number: u64)
        ensures removed { self.new ≡ record self.old { rows = without self.old.rows number; room = self.new.room } }
        ensures room { self.old.room ≤ self.new.room }
    {
        self.inside.alike.remove_child(number);
        self.inside.close(name);
    }

    /// The least number of a name that isn't below a number.
    pub fn first_from(&self, name: &Name, from: u64) -> Option<u64>
        ensures { result ≡ first_named self.now.rows name.now from }
    {
        match self.inside.ids.get(&Key(*name)) {
            Some(id) => self.inside.alike.first_from(*id, from),
            None => None,
        }
    }

    /// The greatest number of a name.
    pub fn last(&self, name: &Name) -> Option<u64>
        ensures { result ≡ last_named self.now.rows name.now }
    {
        match self.inside.ids.get(&Key(*name)) {
            Some(id) => self.inside.alike.last(*id),
            None => None,
        }
    }
}

impl Inside {
    // The id of the name, a new one where it has none.
    fn id_for(&mut self, name: &Name) -> u64
        requires inside { IsInside self.old }
        requires room { 1 ≤ room_of self.old }
        ensures inside { IsInside self.new }
        ensures id { id_of self.new name.now ≡ Some result }
        ensures rows { rows_inside self.new ≡ rows_inside self.old }
        ensures next { self.new.alike.next_child ≡ self.old.alike.next_child }
        ensures rooms { HaveRooms (room_of self.old) self.new }
    {
        let key = Key(*name);
        if let Some(id) = self.ids.get(&key) {
            return *id;
        }
        let id = self.texts.insert(*name);
        self.alike.add_parent();
        let _ = self.ids.insert(key, id);
        id
    }

    // Takes the id of the name away, if the name has no number any more.
    fn close(&mut self, name: &Name)
        requires { IsInside self.old }
        ensures inside { IsInside self.new }
        ensures rows { rows_inside self.new ≡ rows_inside self.old }
        ensures next { self.new.alike.next_child ≡ self.old.alike.next_child }
        ensures room { room_of self.old ≤ room_of self.new }
    {
        let key = Key(*name);
        let Some(id) = self.ids.get(&key).copied() else {
            return;
        };
        if self.alike.last(id).is_none() {
            self.alike.remove_parent(id);
            let _ = self.texts.remove(id);
            let _ = self.ids.remove(&key);
        }
    }
}

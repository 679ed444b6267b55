//! What finds a provider by its name.
ghost use Rattle.std.specs.Prelude.{◌≡◌, ℕ, ◌-◌, [], IsOk, OnOk};
ghost use Rattle.geo_names.specs.Names.{last_named};
ghost use Rattle.geo_mesh.specs.Names.{sound_of, HaveNameRoom, AreNames, SameNames, AddsName, RetiresName, RemovesName};

use geo_base::{Name, NoMemory};
use geo_names::Key;
use std::alloc::Global;
use std::collections::HashMap;

/// The provider without an error of each name that has one, and all providers under their names.
#[derive(Drop)]
pub struct Names {
    pub sound: HashMap<Key, u64>,
    pub all: geo_names::Names,
}

impl Names {
    /// No name. It takes no memory yet.
    pub fn new(alloc: Global) -> Names
        ensures { AreNames [] 1 result }
    {
        Names {
            sound: HashMap::new(alloc),
            all: geo_names::Names::new(alloc),
        }
    }

    /// Keeps room for so many names.
    pub fn reserve(&mut self, count: u64) -> Result<(), NoMemory>
        ensures same { SameNames self.old self.new }
        ensures room { OnOk result (HaveNameRoom count self.new) }
        ensures room_stays { (p : ℕ) → HaveNameRoom p self.old → HaveNameRoom p self.new }
        ensures had_room { HaveNameRoom count self.old → IsOk result }
    {
        self.sound.reserve(count as usize)?;
        self.all.reserve(count)?;
        Ok(())
    }

    /// A new provider of the name, of the next number, without an error.
    pub fn add(&mut self, name: &Name, number: u64)
        requires room { HaveNameRoom 1 self.old }
        ensures added { AddsName self.old self.new name.now number }
        ensures room { (p : ℕ) → HaveNameRoom p self.old → HaveNameRoom (p - 1) self.new }
    {
        let _ = self.all.add(name);
        let _ = self.sound.insert(Key(*name), number);
    }

    /// The provider of the name gets an error or goes; it may have an error already.
    pub fn retire(&mut self, name: &Name, errored: bool)
        ensures retired { RetiresName self.old self.new name.now errored }
        ensures room { (p : ℕ) → HaveNameRoom p self.old → HaveNameRoom p self.new }
    {
        if !errored {
            let _ = self.sound.remove(&Key(*name));
        }
    }

    /// The provider of the name and of the number goes.
    pub fn remove(&mut self, name: &Name, number: u64, errored: bool)
        ensures removed { RemovesName self.old self.new name.now number errored }
        ensures room { (p : ℕ) → HaveNameRoom p self.old → HaveNameRoom p self.new }
    {
        self.retire(name, errored);
        self.all.remove(name, number);
    }

    /// The provider without an error of the name.
    pub fn sound(&self, name: &Name) -> Option<u64>
        ensures { result ≡ sound_of self.now name.now }
    {
        self.sound.get(&Key(*name)).copied()
    }

    /// The provider of the name with the greatest number.
    pub fn newest(&self, name: &Name) -> Option<u64>
        ensures { result ≡ last_named self.now.all.rows name.now }
    {
        self.all.last(name)
    }
}

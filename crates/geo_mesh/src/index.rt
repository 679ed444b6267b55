//! What finds the providers and the consumers of a geom, and the consumers of a provider.
ghost use Rattle.std.specs.Prelude.{◌≡◌, ℕ, true, false, IsOk, OnOk, Some, None};
ghost use Rattle.geo_slots.specs.Slots.{value_at};
ghost use Rattle.geo_family.specs.Family.{is_parent, has_child};
ghost use Rattle.geo_mesh.specs.Index.{no_index, HaveRoom, with_rooms, with_geom_index, with_provider_index, with_consumer_index, without_geom_index, without_provider_index, without_consumer_index, attached_index, detached_index};

use geo_base::NoMemory;
use geo_family::Family;
use std::alloc::Global;

/// The providers under their geoms, the consumers under their geoms, the consumers under the providers to which they
/// are attached, and of these once more those that aren't DEV's: one provider may carry a thousand handles.
#[derive(Drop)]
pub struct Index {
    pub offered: Family,
    pub owned: Family,
    pub attached: Family,
    pub above: Family,
}

// The geom of class DEV.
const DEV: u64 = 1;

impl Index {
    /// No geom. It takes no memory yet.
    pub fn new(alloc: Global) -> Index
        ensures { result ≡ no_index }
    {
        Index {
            offered: Family::new(alloc),
            owned: Family::new(alloc),
            attached: Family::new(alloc),
            above: Family::new(alloc),
        }
    }

    /// Keeps room for geoms, providers and consumers.
    pub fn reserve(&mut self, geoms: u64, providers: u64, consumers: u64) -> Result<(), NoMemory>
        ensures same { self.new ≡ with_rooms self.old self.new }
        ensures room { OnOk result (HaveRoom geoms providers consumers self.new) }
        ensures room_stays { (g p c : ℕ) → HaveRoom g p c self.old → HaveRoom g p c self.new }
        ensures had_room { HaveRoom geoms providers consumers self.old → IsOk result }
    {
        self.offered.reserve(geoms, providers)?;
        self.owned.reserve(geoms, consumers)?;
        self.attached.reserve(providers, consumers)?;
        self.above.reserve(providers, consumers)?;
        Ok(())
    }

    /// A new geom, of the next number.
    pub fn add_geom(&mut self)
        requires { HaveRoom 1 0 0 self.old }
        ensures { self.new ≡ with_geom_index self.old }
    {
        self.offered.add_parent();
        self.owned.add_parent();
    }

    /// A new provider of the geom, of the next number.
    pub fn add_provider(&mut self, geom: u64)
        requires room { HaveRoom 0 1 0 self.old }
        requires geom { is_parent self.old.offered.parents geom ≡ true }
        ensures { self.new ≡ with_provider_index self.old geom }
    {
        self.offered.add_child_of(geom);
        self.attached.add_parent();
        self.above.add_parent();
    }

    /// A new consumer of the geom, of the next number, attached to nothing.
    pub fn add_consumer(&mut self, geom: u64)
        requires room { HaveRoom 0 0 1 self.old }
        requires geom { is_parent self.old.owned.parents geom ≡ true }
        ensures { self.new ≡ with_consumer_index self.old geom }
    {
        self.owned.add_child_of(geom);
        self.attached.add_child();
        self.above.add_child();
    }

    /// Without a geom that has neither provider nor consumer.
    pub fn remove_geom(&mut self, geom: u64)
        requires no_provider { has_child self.old.offered.children geom ≡ false }
        requires no_consumer { has_child self.old.owned.children geom ≡ false }
        ensures { self.new ≡ without_geom_index self.old geom }
    {
        self.offered.remove_parent(geom);
        self.owned.remove_parent(geom);
    }

    /// Without a provider to which nothing is attached.
    pub fn remove_provider(&mut self, prov: u64)
        requires none { has_child self.old.attached.children prov ≡ false }
        requires none_above { has_child self.old.above.children prov ≡ false }
        ensures { self.new ≡ without_provider_index self.old prov }
    {
        self.offered.remove_child(prov);
        self.attached.remove_parent(prov);
        self.above.remove_parent(prov);
    }

    /// Without a consumer.
    pub fn remove_consumer(&mut self, cons: u64)
        ensures { self.new ≡ without_consumer_index self.old cons }
    {
        self.owned.remove_child(cons);
        self.attached.remove_child(cons);
        self.above.remove_child(cons);
    }

    /// The consumer of the geom, attached to nothing, is attached to the provider.
    pub fn attach(&mut self, cons: u64, prov: u64, geom: u64)
        requires free { value_at self.old.attached.children cons ≡ Some None }
        requires provider { is_parent self.old.attached.parents prov ≡ true }
        requires free_above { value_at self.old.above.children cons ≡ Some None }
        requires provider_above { is_parent self.old.above.parents prov ≡ true }
        ensures { self.new ≡ attached_index self.old cons prov geom }
    {
        self.attached.link(cons, prov);
        if geom != DEV {
            self.above.link(cons, prov);
        }
    }

    /// The consumer is attached to nothing.
    pub fn detach(&mut self, cons: u64)
        ensures { self.new ≡ detached_index self.old cons }
    {
        self.attached.unlink(cons);
        self.above.unlink(cons);
    }
}

//! The tables of a mesh, and what is kept beside them.
ghost use Rattle.std.specs.Prelude.{◌≡◌, ◌≤◌, ℕ, max, false, [], ◌∷◌, Some, IsSome, IsOk, IfOk, OnOk};
ghost use Rattle.std.specs.Borrow.{sem};
ghost use Rattle.geo_model.specs.Topology.{geom_at, provider_at, consumer_at};
ghost use Rattle.geo_slots.specs.Slots.{IsRising, value_at};
ghost use Rattle.geo_mesh.specs.Cells.{graph};
ghost use Rattle.geo_mesh.specs.Notes.{IsSameNotes, HaveNoteRoom, AreFirstNotes};
ghost use Rattle.geo_mesh.specs.Whole.{IsWhole, IsRoomier};
ghost use Rattle.geo_mesh.specs.Lending.{lends_cell, lends_geom, lends_provider, lends_consumer};

use crate::index::Index;
use crate::marks::Marks;
use crate::names::Names;
use crate::records::{ConsCell, GeomCell, ProvCell};
use geo_base::{ConsId, GeomId, Name, NoMemory, ProvId};
use geo_slots::Slots;
use std::alloc::Global;

/// Providers and consumers, by which geoms stand on one another, and what finds them.
#[derive(Drop)]
pub struct Edges {
    pub providers: Slots<ProvCell>,
    pub consumers: Slots<ConsCell>,
    pub index: Index,
}

/// The providers whose write count is noted to have left zero, those for which it is noted to have reached zero, and
/// the withering geoms of which something can go: each carries a mark among all. And the geoms under their names.
#[derive(Drop)]
pub struct Notes {
    pub risen: Marks,
    pub fallen: Marks,
    pub going: Marks,
    pub named: geo_names::Names,
}

/// Geoms with their providers and consumers, how many geoms there are, and what finds a provider by its name, a noted
/// provider, a withering geom of which something can go and a geom by its name. There are fewer geoms than 2^32, so
/// that a rank fits its type.
#[derive(Drop)]
pub struct Tables<C> {
    pub geoms: Slots<GeomCell<C>>,
    pub edges: Edges,
    pub live: u64,
    pub names: Names,
    pub notes: Notes,
}

impl Notes {
    /// Keeps room for geoms and providers. All else stays, and where memory is wanting the room is no less.
    pub fn reserve(&mut self, geoms: u64, providers: u64) -> Result<(), NoMemory>
        ensures same { IsSameNotes self.old self.new }
        ensures room { OnOk result (HaveNoteRoom geoms providers self.new) }
        ensures room_stays { (g p : ℕ) → HaveNoteRoom g p self.old → HaveNoteRoom g p self.new }
        ensures had_room { HaveNoteRoom geoms providers self.old → IsOk result }
    {
        self.risen.reserve(providers)?;
        self.fallen.reserve(providers)?;
        self.going.reserve(geoms)?;
        self.named.reserve(geoms)?;
        Ok(())
    }
}

impl<C> Tables<C> {
    /// Keeps room for geoms, providers and consumers. All else stays, and where memory is wanting the room is no less.
    pub fn reserve(&mut self, geoms: u64, providers: u64, consumers: u64) -> Result<(), NoMemory>
        requires { IsWhole self.old }
        ensures same { IsRoomier self.old self.new }
        ensures whole { IsWhole self.new }
        ensures geoms { OnOk result (geoms ≤ self.new.geoms.spare) }
        ensures providers { OnOk result (providers ≤ self.new.edges.providers.spare) }
        ensures consumers { OnOk result (consumers ≤ self.new.edges.consumers.spare) }
        ensures geoms_most { self.new.geoms.spare ≤ max self.old.geoms.spare geoms }
        ensures providers_most { self.new.edges.providers.spare ≤ max self.old.edges.providers.spare providers }
        ensures consumers_most { self.new.edges.consumers.spare ≤ max self.old.edges.consumers.spare consumers }
        ensures had_room { geoms ≤ self.old.geoms.spare → providers ≤ self.old.edges.providers.spare
            → consumers ≤ self.old.edges.consumers.spare → IsOk result }
    {
        self.edges.index.reserve(geoms, providers, consumers)?;
        self.names.reserve(providers)?;
        self.notes.reserve(geoms, providers)?;
        self.geoms.reserve(geoms)?;
        self.edges.providers.reserve(providers)?;
        self.edges.consumers.reserve(consumers)?;
        Ok(())
    }

    /// The cell of a geom that lives.
    pub fn geom(&self, geom: GeomId) -> &GeomCell<C>
        requires { IsSome (geom_at (graph self.now) geom) }
        ensures { value_at self.now.geoms.rows geom ≡ Some result.now }
    {
        cell(&self.geoms, geom.number())
    }

    /// The cell of a provider that lives.
    pub fn provider(&self, prov: ProvId) -> &ProvCell
        requires { IsSome (provider_at (graph self.now) prov) }
        ensures { value_at self.now.edges.providers.rows prov ≡ Some result.now }
    {
        cell(&self.edges.providers, prov.number())
    }

    /// The cell of a consumer that lives.
    pub fn consumer(&self, cons: ConsId) -> &ConsCell
        requires { IsSome (consumer_at (graph self.now) cons) }
        ensures { value_at self.now.edges.consumers.rows cons ≡ Some result.now }
    {
        cell(&self.edges.consumers, cons.number())
    }

    /// The cell of a geom that lives, to be changed.
    pub fn geom_mut(&mut self, geom: GeomId) -> &mut GeomCell<C>
        requires { IsSome (geom_at (graph self.old) geom) }
        ensures* writes_back { sem 𝓛 (lends_geom C.row self.entry geom result) }
        ensures cell { value_at self.old.geoms.rows geom ≡ Some result.now }
        ensures rising { IsRising 1 self.old.geoms.rows self.old.geoms.next }
    {
        cell_mut(&mut self.geoms, geom.number())
    }

    /// The cell of a provider that lives, to be changed.
    pub fn provider_mut(&mut self, prov: ProvId) -> &mut ProvCell
        requires { IsSome (provider_at (graph self.old) prov) }
        ensures* writes_back { sem 𝓛 (lends_provider C.row self.entry prov result) }
        ensures cell { value_at self.old.edges.providers.rows prov ≡ Some result.now }
        ensures rising { IsRising 1 self.old.edges.providers.rows self.old.edges.providers.next }
    {
        let edges = &mut self.edges;
        cell_mut(&mut edges.providers, prov.number())
    }

    /// The cell of a consumer that lives, to be changed.
    pub fn consumer_mut(&mut self, cons: ConsId) -> &mut ConsCell
        requires { IsSome (consumer_at (graph self.old) cons) }
        ensures* writes_back { sem 𝓛 (lends_consumer C.row self.entry cons result) }
        ensures cell { value_at self.old.edges.consumers.rows cons ≡ Some result.now }
        ensures rising { IsRising 1 self.old.edges.consumers.rows self.old.edges.consumers.next }
    {
        let edges = &mut self.edges;
        cell_mut(&mut edges.consumers, cons.number())
    }
}

/// The notes of two geoms of these names that don't wither, and of no provider.
pub fn first_notes(alloc: Global, first: &Name, second: &Name) -> Result<Notes, NoMemory>
    ensures { IfOk result (AreFirstNotes first.now second.now) }
{
    let risen = Marks::new(alloc)?;
    let fallen = Marks::new(alloc)?;
    let going = two_marks(alloc)?;
    let named = two_names(alloc, first, second)?;
    Ok(Notes {
        risen,
        fallen,
        going,
        named,
    })
}

// Two numbers without a mark.
fn two_marks(alloc: Global) -> Result<Marks, NoMemory>
    ensures { IfOk result (λ m. m ≡ record { rows = (1, false) ∷ (2, false) ∷ []; next = 3; room = m.room }) }
{
    let mut marks = Marks::new(alloc)?;
    marks.reserve(2)?;
    marks.add();
    marks.add();
    Ok(marks)
}

// Two numbers with these names.
fn two_names(alloc: Global, first: &Name, second: &Name) -> Result<geo_names::Names, NoMemory>
    ensures { IfOk result (λ n. n
        ≡ record { rows = (1, first.now) ∷ (2, second.now) ∷ []; next = 3; room = n.room }) }
{
    let mut names = geo_names::Names::new(alloc);
    names.reserve(2)?;
    let _ = names.add(first);
    let _ = names.add(second);
    Ok(names)
}

// The cell under a number that has one.
fn cell<T>(cells: &Slots<T>, number: u64) -> &T
    requires { IsSome (value_at cells.now.rows number) }
    ensures { value_at cells.now.rows number ≡ Some result.now }
{
    match cells.get(number) {
        Some(cell) => cell,
        None => unreachable!(),
    }
}

/// The cell under a number that has one, to be changed.
pub fn cell_mut<T>(cells: &mut Slots<T>, number: u64) -> &mut T
    requires { IsSome (value_at cells.old.rows number) }
    ensures* writes_back { sem 𝓛 (lends_cell T.row cells.entry number result) }
    ensures cell { value_at cells.old.rows number ≡ Some result.now }
    ensures rising { IsRising 1 cells.old.rows cells.old.next }
{
    match cells.get_mut(number) {
        Some(cell) => cell,
        None => unreachable!(),
    }
}

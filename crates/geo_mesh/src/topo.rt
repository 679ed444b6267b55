//! The mesh: geoms, providers and consumers under their numbers.
ghost use Rattle.std.specs.Prelude.{◌≡◌, ◌≢◌, ◌≤◌, ◌<◌, ◌^◌, ◌+◌, ◌-◌, ◌==◌, [], true, false, Some, IsSome, IsOk, IfSome, IfOk, OnErr, OnOk, option_map, option_copied, length, not, ◌&&◌, nat_lt, IsSomeAnd, None, find, filter};
ghost use Rattle.geo_model.specs.Name.{is_name};
ghost use Rattle.geo_model.specs.Topology.{geom_at, provider_at, consumer_at, providers_of, consumers_of, attached_to, find_provider, is_name_taken, is_withering, set_error, set_size, set_withering, set_marks, set_config, note_started, attach, is_errored, detach};
ghost use Rattle.geo_model.specs.Words.{is_kind, same_name};
ghost use Rattle.geo_model.specs.Rank.{rank, attach_refusal};
ghost use Rattle.geo_slots.specs.Slots.{value_at};
ghost use Rattle.geo_mesh.specs.Topo.{first_mesh, with_geom, with_provider, with_consumer, without_geom, without_provider, without_consumer, with_topology, with_want, with_have, with_notes, with_active, with_geom_scratch, with_provider_scratch, with_consumer_scratch, first_geom, first_consumer, first_provider, is_provider_size, no_counts, IsButForRoom};
ghost use Rattle.geo_mesh.specs.Graph.{IsSoundGraph};
ghost use Rattle.geo_mesh.specs.Refusals.{IsAnswer};
ghost use Rattle.geo_mesh.specs.Going.{can_go};
ghost use Rattle.geo_mesh.specs.Cells.{geom_seen, provider_seen, consumer_seen, made_cell};

use crate::index::Index;
use crate::names::Names;
use crate::records::{
    AttachRefusal, ConsCell, ConsRec, GeomCell, GeomRec, ProvCell, ProvRec, Scratch,
};
use crate::tables::{self, Edges, Tables};
use crate::{going, named, ranks};
use geo_base::{ConsId, Counts, GeomId, Kind, Name, NoMemory, ProvId};
use geo_slots::Slots;
use std::alloc::Global;
use std::marker::Model;

/// The mesh: geoms, providers and consumers, generic in the configuration of a class (geom(4)). Contracts see the
/// graph, and beside it the counts, the requests that are out, the notes, the scratch and the room that is kept.
#[derive(Drop)]
pub struct Topo<C> {
    tables: Tables<C>,
}

impl<C> Model for Topo<C> {
    ghost use Rattle.geo_mesh.specs.Topo.{TopoView};

    ghost Value = { TopoView C };

    ghost use Rattle.geo_mesh.specs.Cells.{topo_view};
    ghost use Rattle.geo_mesh.specs.Whole.{IsWhole};

    ghost view = { λ t. topo_view t.tables };

    ghost invariant = { λ t. IsWhole t.tables };
}

// There are at most so many geoms: more would want more memory than there is.
const MOST_GEOMS: u64 = 4294967294;

const NO_SCRATCH: Scratch = Scratch {
    mark: 0,
    trial: NO_COUNTS,
};

const NO_COUNTS: Counts = Counts { r: 0, w: 0, e: 0 };

// What takes, gives back or drops a configuration.
impl<C: Drop> Topo<C> {
    /// The mesh that stands at first: geom 1 of class DEV and geom 2 of class TASTE, with these configurations.
    pub fn new(alloc: Global, dev: C, taste: C) -> Result<Topo<C>, NoMemory>
        ensures { IfOk result (λ topo. topo ≡ first_mesh dev taste topo.room) }
    {
        let first = fixed_name(b"dev");
        let second = fixed_name(b"taste");
        let mut geoms = Slots::new(alloc);
        geoms.reserve(2)?;
        let notes = tables::first_notes(alloc, &first, &second)?;
        let mut index = Index::new(alloc);
        if let Err(error) = index.reserve(2, 0, 0) {
            drop(index);
            drop(notes);
            drop(geoms);
            return Err(error);
        }
        geoms.insert(new_cell(Kind::Dev, first, dev, false));
        index.add_geom();
        geoms.insert(new_cell(Kind::Taste, second, taste, false));
        index.add_geom();
        let edges = Edges {
            providers: Slots::new(alloc),
            consumers: Slots::new(alloc),
            index,
        };
        Ok(Topo {
            tables: Tables {
                geoms,
                edges,
                live: 2,
                names: Names::new(alloc),
                notes,
            },
        })
    }

    /// A new geom of the class, with no provider and no consumer (g_new_geomf). After `NoMemory` nothing changed.
    pub fn new_geom(
        &mut self,
        kind: Kind,
        name: Name,
        config: C,
        automatic: bool,
    ) -> Result<GeomId, NoMemory>
        ensures number { IfOk result (λ id. id ≡ self.old.topology.next_geom) }
        ensures added { OnOk result (IsButForRoom self.new (with_geom self.old kind name config automatic)) }
        ensures same { OnErr result (IsButForRoom self.new self.old) }
        ensures room { self.old.room.geoms ≤ self.new.room.geoms + 1 }
        ensures other_room { self.new.room ≡ record self.old.room { geoms = self.new.room.geoms } }
        ensures had_room { 1 ≤ self.old.room.geoms → IsOk result }
        ensures sound { IsSoundGraph self.old.topology }
    {
        if MOST_GEOMS <= self.tables.live {
            return Err(NoMemory);
        }
        self.tables.reserve(1, 0, 0)?;
        let number = self
            .tables
            .geoms
            .insert(new_cell(kind, name, config, automatic));
        self.tables.edges.index.add_geom();
        self.tables.notes.going.add();
        let _ = self.tables.notes.named.add(&name);
        self.tables.live += 1;
        Ok(GeomId::new(number))
    }

    /// Takes away a geom, other than the first two, that has neither provider nor consumer.
    pub fn destroy_geom(&mut self, geom: GeomId)
        requires not_dev { geom ≢ 1 }
        requires not_taste { geom ≢ 2 }
        requires no_provider { providers_of self.old.topology geom ≡ [] }
        requires no_consumer { consumers_of self.old.topology geom ≡ [] }
        ensures removed { IsButForRoom self.new (without_geom self.old geom) }
        ensures room { self.old.room.geoms ≤ self.new.room.geoms }
        ensures other_room { self.new.room ≡ record self.old.room { geoms = self.new.room.geoms } }
    {
        if let Some(cell) = self.tables.geoms.remove(geom.number()) {
            self.tables.live -= 1;
            self.tables.edges.index.remove_geom(geom.number());
            self.tables.notes.going.remove(geom.number());
            self.tables
                .notes
                .named
                .remove(&cell.geom.name, geom.number());
        }
    }
}

impl<C> Topo<C> {
    /// Keeps room, so that so many geoms, providers and consumers can be made without want of memory.
    pub fn reserve(&mut self, geoms: u64, providers: u64, consumers: u64) -> Result<(), NoMemory>
        ensures same { IsButForRoom self.new self.old }
        ensures geoms { OnOk result (geoms ≤ self.new.room.geoms) }
        ensures providers { OnOk result (providers ≤ self.new.room.providers) }
        ensures consumers { OnOk result (consumers ≤ self.new.room.consumers) }
        ensures geoms_stay { self.old.room.geoms ≤ self.new.room.geoms }
        ensures providers_stay { self.old.room.providers ≤ self.new.room.providers }
        ensures consumers_stay { self.old.room.consumers ≤ self.new.room.consumers }
    {
        if MOST_GEOMS - self.tables.live < geoms {
            return Err(NoMemory);
        }
        self.tables.reserve(geoms, providers, consumers)
    }

    /// A new provider of the geom, with no counts (g_new_providerf). After `NoMemory` nothing changed.
    pub fn new_provider(
        &mut self,
        geom: GeomId,
        name: Name,
        size: u64,
        sector: u32,
    ) -> Result<ProvId, NoMemory>
        requires lives { IsSome (geom_at self.old.topology geom) }
        requires stays { is_withering self.old.topology geom ≡ false }
        requires not_dev { geom ≢ 1 }
        requires not_taste { geom ≢ 2 }
        requires size { is_provider_size size sector ≡ true }
        requires free { is_name_taken self.old.topology name ≡ false }
        ensures number { IfOk result (λ id. id ≡ self.old.topology.next_provider) }
        ensures added { OnOk result (IsButForRoom self.new (with_provider self.old geom name size sector)) }
        ensures same { OnErr result (IsButForRoom self.new self.old) }
        ensures room { self.old.room.providers ≤ self.new.room.providers + 1 }
        ensures other_room { self.new.room ≡ record self.old.room { providers = self.new.room.providers } }
        ensures had_room { 1 ≤ self.old.room.providers → IsOk result }
    {
        self.tables.reserve(0, 1, 0)?;
        let number = self.tables.edges.providers.insert(ProvCell {
            provider: ProvRec {
                geom,
                name,
                size,
                sector,
                errored: false,
                have: NO_COUNTS,
                risen: false,
                fallen: false,
            },
            scratch: NO_SCRATCH,
        });
        self.tables.names.add(&name, number);
        self.tables.notes.risen.add();
        self.tables.notes.fallen.add();
        self.tables.edges.index.add_provider(geom.number());
        Ok(ProvId::new(number))
    }

    /// A new consumer of the geom, attached to nothing and with no counts (g_new_consumer). After `NoMemory` nothing
    /// changed.
    pub fn new_consumer(&mut self, geom: GeomId) -> Result<ConsId, NoMemory>
        requires { IsSome (geom_at self.old.topology geom) }
        ensures number { IfOk result (λ id. id ≡ self.old.topology.next_consumer) }
        ensures added { OnOk result (IsButForRoom self.new (with_consumer self.old geom)) }
        ensures same { OnErr result (IsButForRoom self.new self.old) }
        ensures room { self.old.room.consumers ≤ self.new.room.consumers + 1 }
        ensures other_room { self.new.room ≡ record self.old.room { consumers = self.new.room.consumers } }
        ensures had_room { 1 ≤ self.old.room.consumers → IsOk result }
        ensures sound { IsSoundGraph self.old.topology }
    {
        self.tables.reserve(0, 0, 1)?;
        let number = self.tables.edges.consumers.insert(ConsCell {
            consumer: ConsRec {
                geom,
                prov: None,
                want: NO_COUNTS,
                active: 0,
                spoiled: false,
            },
            scratch: NO_SCRATCH,
        });
        self.tables.edges.index.add_consumer(geom.number());
        going::look_again(&mut self.tables, geom.number());
        Ok(ConsId::new(number))
    }

    /// The geom of a number.
    pub fn geom(&self, id: GeomId) -> Option<&GeomRec<C>>
        ensures geom { geom_at self.now.topology id ≡ option_map (geom_seen id) (option_copied result) }
        ensures sound { IsSoundGraph self.now.topology }
    {
        self.tables.geoms.get(id.number()).map(|cell| &cell.geom)
    }

    /// The provider of a number.
    pub fn provider(&self, id: ProvId) -> Option<&ProvRec>
        ensures provider { provider_at self.now.topology id ≡ option_map (provider_seen id) (option_copied result) }
        ensures have { value_at self.now.haves id ≡ option_map (λ x. x.have) (option_copied result) }
        ensures risen { value_at self.now.risen id ≡ option_map (λ x. x.risen) (option_copied result) }
        ensures fallen { value_at self.now.fallen id ≡ option_map (λ x. x.fallen) (option_copied result) }
        ensures sound { IsSoundGraph self.now.topology }
    {
        self.tables
            .edges
            .providers
            .get(id.number())
            .map(|cell| &cell.provider)
    }

    /// The consumer of a number.
    pub fn consumer(&self, id: ConsId) -> Option<&ConsRec>
        ensures consumer { consumer_at self.now.topology id ≡ option_map (consumer_seen id) (option_copied result) }
        ensures want { value_at self.now.wants id ≡ option_map (λ x. x.want) (option_copied result) }
        ensures active { value_at self.now.active id ≡ option_map (λ x. x.active) (option_copied result) }
        ensures sound { IsSoundGraph self.now.topology }
    {
        self.tables
            .edges
            .consumers
            .get(id.number())
            .map(|cell| &cell.consumer)
    }

    /// The least number of a geom that isn't below a number.
    pub fn next_geom(&self, from: u64) -> Option<GeomId>
        ensures first { result ≡ first_geom self.now.topology.geoms from }
        ensures sound { IsSoundGraph self.now.topology }
    {
        self.tables.geoms.first_from(from).map(GeomId::new)
    }

    /// The least number of a provider that isn't below a number.
    pub fn next_provider(&self, from: u64) -> Option<ProvId>
        ensures first { result ≡ first_provider self.now.topology.providers from }
        ensures sound { IsSoundGraph self.now.topology }
    {
        self.tables
            .edges
            .providers
            .first_from(from)
            .map(ProvId::new)
    }

    /// The least number of a consumer that isn't below a number.
    pub fn next_consumer(&self, from: u64) -> Option<ConsId>
        ensures first { result ≡ first_consumer self.now.topology.consumers from }
        ensures sound { IsSoundGraph self.now.topology }
    {
        self.tables
            .edges
            .consumers
            .first_from(from)
            .map(ConsId::new)
    }

    /// The number that the next consumer gets.
    pub fn coming_consumer(&self) -> ConsId
        ensures number { result ≡ self.now.topology.next_consumer }
        ensures sound { IsSoundGraph self.now.topology }
    {
        ConsId::new(self.tables.edges.consumers.next_number())
    }

    /// The number that the next provider gets.
    pub fn coming_provider(&self) -> ProvId
        ensures number { result ≡ self.now.topology.next_provider }
        ensures sound { IsSoundGraph self.now.topology }
    {
        ProvId::new(self.tables.edges.providers.next_number())
    }

    /// The least number of a provider of the geom that isn't below a number.
    pub fn provider_of(&self, geom: GeomId, from: u64) -> Option<ProvId>
        ensures first { result ≡ first_provider (providers_of self.now.topology geom) from }
        ensures sound { IsSoundGraph self.now.topology }
    {
        self.tables
            .edges
            .index
            .offered
            .first_from(geom.number(), from)
            .map(ProvId::new)
    }

    /// The least number of a consumer of the geom that isn't below a number.
    pub fn consumer_of(&self, geom: GeomId, from: u64) -> Option<ConsId>
        ensures first { result ≡ first_consumer (consumers_of self.now.topology geom) from }
        ensures sound { IsSoundGraph self.now.topology }
    {
        self.tables
            .edges
            .index
            .owned
            .first_from(geom.number(), from)
            .map(ConsId::new)
    }

    /// The least number of a consumer attached to the provider that isn't below a number.
    pub fn attached_to(&self, prov: ProvId, from: u64) -> Option<ConsId>
        ensures first { result ≡ first_consumer (attached_to self.now.topology prov) from }
        ensures sound { IsSoundGraph self.now.topology }
    {
        self.tables
            .edges
            .index
            .attached
            .first_from(prov.number(), from)
            .map(ConsId::new)
    }

    /// The least number, of the consumers attached to the provider that aren't DEV's, that isn't below a number. Those
    /// of DEV, one for each handle, cost nothing.
    pub fn above(&self, prov: ProvId, from: u64) -> Option<ConsId>
        ensures first { result
            ≡ first_consumer (filter (λ c. not (c.geom == 1)) (attached_to self.now.topology prov)) from }
        ensures sound { IsSoundGraph self.now.topology }
    {
        self.tables
            .edges
            .index
            .above
            .first_from(prov.number(), from)
            .map(ConsId::new)
    }

    /// The least number, of a withering geom of which something can go, that isn't below a number: a provider to which
    /// nothing is attached, a consumer that holds no count and through which no request is out, or the geom itself,
    /// where it has neither provider nor consumer (g_wither_geom(9)).
    pub fn next_going(&self, from: u64) -> Option<GeomId>
        ensures first { result ≡ first_geom (filter (can_go self.now) self.now.topology.geoms) from }
        ensures sound { IsSoundGraph self.now.topology }
    {
        self.tables.notes.going.first_from(from).map(GeomId::new)
    }

    /// The least number of a geom of the class and of the name that isn't below a number; withering ones count too.
    pub fn next_named(&self, kind: Kind, name: &Name, from: u64) -> Option<GeomId>
        ensures first { result
            ≡ first_geom (filter (λ g. is_kind g.kind kind && same_name g.name name.now) self.now.topology.geoms)
            from }
        ensures sound { IsSoundGraph self.now.topology }
    {
        named::first_of(
            &self.tables.geoms,
            &self.tables.notes.named,
            kind,
            name,
            from,
        )
        .map(GeomId::new)
    }

    /// The least provider whose write count is noted to have left zero.
    pub fn first_risen(&self) -> Option<ProvId>
        ensures first { result ≡ option_map (λ row. row.0) (find (λ row. row.1) self.now.risen) }
        ensures sound { IsSoundGraph self.now.topology }
    {
        self.tables.notes.risen.first_from(0).map(ProvId::new)
    }

    /// The least provider whose write count is noted to have reached zero.
    pub fn first_fallen(&self) -> Option<ProvId>
        ensures first { result ≡ option_map (λ row. row.0) (find (λ row. row.1) self.now.fallen) }
        ensures sound { IsSoundGraph self.now.topology }
    {
        self.tables.notes.fallen.first_from(0).map(ProvId::new)
    }

    /// The provider of the name that carries no error, else the one of the name with the greatest number.
    pub fn find(&self, name: &Name) -> Option<ProvId>
        ensures found { result ≡ find_provider self.now.topology name.now }
        ensures sound { IsSoundGraph self.now.topology }
    {
        match self.tables.names.sound(name) {
            Some(number) => Some(ProvId::new(number)),
            None => self.tables.names.newest(name).map(ProvId::new),
        }
    }

    /// Whether a provider without an error has the name.
    pub fn is_name_taken(&self, name: &Name) -> bool
        ensures { result ≡ is_name_taken self.now.topology name.now }
    {
        self.tables.names.sound(name).is_some()
    }

    /// Whether the geom is there and withers (g_wither_geom(9)).
    pub fn is_withering(&self, geom: GeomId) -> bool
        ensures { result ≡ is_withering self.now.topology geom }
    {
        self.tables
            .geoms
            .get(geom.number())
            .is_some_and(|cell| cell.geom.withering)
    }

    // Whether the provider is there and carries an error.
    fn is_errored(&self, prov: ProvId) -> bool
        ensures { result ≡ is_errored self.now.topology prov }
    {
        self.tables
            .edges
            .providers
            .get(prov.number())
            .is_some_and(|cell| cell.provider.errored)
    }

    /// The rank of a geom (geom(4)): 1 where nothing is attached below it, else one more than the highest rank below.
    pub fn rank(&self, geom: GeomId) -> Option<u32>
        ensures rank { result ≡ option_map (λ x. rank self.now.topology geom) (geom_at self.now.topology geom) }
        ensures sound { IsSoundGraph self.now.topology }
    {
        match self.tables.geoms.get(geom.number()) {
            Some(_) => {
                let rank = ranks::rank_from(&self.tables.geoms, &self.tables.edges, geom.number());
                Some(rank as u32)
            }
            None => None,
        }
    }

    /// The scratch of a geom.
    pub fn geom_scratch(&self, geom: GeomId) -> Scratch
        requires { IsSome (geom_at self.now.topology geom) }
        ensures { value_at self.now.scratches.geoms geom ≡ Some result }
    {
        self.tables.geom(geom).scratch
    }

    /// The scratch of a provider.
    pub fn provider_scratch(&self, prov: ProvId) -> Scratch
        requires { IsSome (provider_at self.now.topology prov) }
        ensures { value_at self.now.scratches.providers prov ≡ Some result }
    {
        self.tables.provider(prov).scratch
    }

    /// The scratch of a consumer.
    pub fn consumer_scratch(&self, cons: ConsId) -> Scratch
        requires { IsSome (consumer_at self.now.topology cons) }
        ensures { value_at self.now.scratches.consumers cons ≡ Some result }
    {
        self.tables.consumer(cons).scratch
    }

    /// Attaches the consumer, which isn't attached yet, to the provider (g_attach(9)); both live. It is refused where
    /// the provider carries an error, else where the geom would reach itself, else where a geom other than DEV and
    /// TASTE would get a rank above 32. Counts aren't touched: where a provider of the consumer's geom has a count
    /// already, the stored counts stay as they are, and only a later join of the counts makes them those of the new
    /// graph.
    pub fn attach(&mut self, cons: ConsId, prov: ProvId) -> Result<(), AttachRefusal>
        requires consumer { IsSomeAnd (consumer_at self.old.topology cons) (λ x. x.provider ≡ None) }
        requires provider { IsSome (provider_at self.old.topology prov) }
        ensures answer { IsAnswer result (attach_refusal self.old.topology cons prov) }
        ensures attached { OnOk result (self.new ≡ with_topology self.old (attach self.old.topology cons prov)) }
        ensures same { OnErr result (self.new ≡ self.old) }
    {
        if self.is_errored(prov) {
            return Err(AttachRefusal::Enxio);
        }
        let upper = ranks::user(&self.tables.edges, cons.number());
        let under = ranks::owner(&self.tables.edges, prov.number());
        if let Err(refusal) = ranks::admit(
            &mut self.tables.geoms,
            &self.tables.edges,
            upper,
            under,
        ) {
            return Err(refusal);
        }
        self.tables.consumer_mut(cons).consumer.prov = Some(prov);
        self.tables
            .edges
            .index
            .attach(cons.number(), prov.number(), upper);
        going::look_again(&mut self.tables, under);
        Ok(())
    }

    /// Takes the consumer off its provider (g_detach(9)). It holds no counts, and no request is out through it.
    pub fn detach(&mut self, cons: ConsId)
        requires lives { IsSome (consumer_at self.old.topology cons) }
        requires attached { IfSome (consumer_at self.old.topology cons) (λ x. IsSome x.provider) }
        requires no_counts { value_at self.old.wants cons ≡ Some no_counts }
        requires none_out { value_at self.old.active cons ≡ Some 0 }
        ensures { self.new ≡ with_topology self.old (detach self.old.topology cons) }
    {
        let cell = self.tables.consumer_mut(cons);
        let Some(prov) = cell.consumer.prov else {
            unreachable!()
        };
        let upper = cell.consumer.geom.number();
        cell.consumer.prov = None;
        self.tables.edges.index.detach(cons.number());
        let under = ranks::owner(&self.tables.edges, prov.number());
        if ranks::stored(&self.tables.geoms, under) + 1
            == ranks::stored(&self.tables.geoms, upper)
        {
            ranks::lower(&mut self.tables.geoms, &self.tables.edges, upper);
        }
        going::look_again(&mut self.tables, under);
    }

    /// The provider gets an error; its consumers stay attached.
    pub fn set_error(&mut self, prov: ProvId)
        requires { IsSome (provider_at self.old.topology prov) }
        ensures { self.new ≡ with_topology self.old (set_error self.old.topology prov) }
    {
        let old = self.tables.provider(prov).provider;
        self.tables.names.retire(&old.name, old.errored);
        self.tables.provider_mut(prov).provider.errored = true;
    }

    /// The provider gets another media size, in bytes: whole sectors of it, at most 2^60, and not below the old size.
    pub fn set_size(&mut self, prov: ProvId, size: u64)
        requires lives { IsSome (provider_at self.old.topology prov) }
        requires sectors { IfSome (provider_at self.old.topology prov) (λ x. is_provider_size size x.sector ≡ true) }
        requires grows { IfSome (provider_at self.old.topology prov) (λ x. x.size ≤ size) }
        ensures { self.new ≡ with_topology self.old (set_size self.old.topology prov size) }
    {
        self.tables.provider_mut(prov).provider.size = size;
    }

    /// The geom withers (g_wither_geom(9)).
    pub fn set_withering(&mut self, geom: GeomId)
        requires { IsSome (geom_at self.old.topology geom) }
        ensures { self.new ≡ with_topology self.old (set_withering self.old.topology geom) }
    {
        self.tables.geom_mut(geom).geom.withering = true;
        going::look_again(&mut self.tables, geom.number());
    }

    /// The consumer is marked as spoiled, or the mark is taken away.
    pub fn set_spoiled(&mut self, cons: ConsId, marked: bool)
        requires { IsSome (consumer_at self.old.topology cons) }
        ensures { self.new ≡ with_topology self.old (set_marks self.old.topology (λ x. x.number == cons) marked) }
    {
        self.tables.consumer_mut(cons).consumer.spoiled = marked;
    }

    /// Gives the geom another configuration. The old one comes back.
    pub fn swap_config(&mut self, geom: GeomId, config: C) -> C
        requires { IsSome (geom_at self.old.topology geom) }
        ensures swapped { self.new ≡ with_topology self.old (set_config self.old.topology geom config) }
        ensures old { option_map (λ x. x.config) (geom_at self.old.topology geom) ≡ Some result }
    {
        let cell = self.tables.geom_mut(geom);
        std::mem::replace(&mut cell.geom.config, config)
    }

    /// The geom started one more request.
    pub fn note_started(&mut self, geom: GeomId)
        requires lives { IsSome (geom_at self.old.topology geom) }
        requires few { IfSome (geom_at self.old.topology geom) (λ x. x.started < 2 ^ 63) }
        ensures { self.new ≡ with_topology self.old (note_started self.old.topology geom) }
    {
        self.tables.geom_mut(geom).geom.started += 1;
    }

    /// The counts of a consumer (g_access(9)).
    pub fn set_want(&mut self, cons: ConsId, want: Counts)
        requires { IsSome (consumer_at self.old.topology cons) }
        ensures { self.new ≡ with_want self.old cons want }
    {
        let cell = self.tables.consumer_mut(cons);
        cell.consumer.want = want;
        let geom = cell.consumer.geom.number();
        going::look_again(&mut self.tables, geom);
    }

    /// The counts of a provider (g_access(9)).
    pub fn set_have(&mut self, prov: ProvId, have: Counts)
        requires { IsSome (provider_at self.old.topology prov) }
        ensures { self.new ≡ with_have self.old prov have }
    {
        self.tables.provider_mut(prov).provider.have = have;
    }

    /// Whether the write count of a provider left zero, and whether it reached zero.
    pub fn set_noted(&mut self, prov: ProvId, risen: bool, fallen: bool)
        requires { IsSome (provider_at self.old.topology prov) }
        ensures { self.new ≡ with_notes self.old prov risen fallen }
    {
        let cell = self.tables.provider_mut(prov);
        // Most providers that an open passes keep their notes.
        if cell.provider.risen == risen && cell.provider.fallen == fallen {
            return;
        }
        cell.provider.risen = risen;
        cell.provider.fallen = fallen;
        self.tables.notes.risen.set(prov.number(), risen);
        self.tables.notes.fallen.set(prov.number(), fallen);
    }

    /// One more request is out through the consumer.
    pub fn note_active(&mut self, cons: ConsId)
        requires lives { IsSome (consumer_at self.old.topology cons) }
        requires few { IfSome (value_at self.old.active cons) (λ n. n < 2 ^ 63) }
        ensures { self.new ≡ with_active self.old cons (λ n. n + 1) }
    {
        let cell = self.tables.consumer_mut(cons);
        cell.consumer.active += 1;
        let geom = cell.consumer.geom.number();
        going::look_again(&mut self.tables, geom);
    }

    /// A request through the consumer is back.
    pub fn note_back(&mut self, cons: ConsId)
        requires lives { IsSome (consumer_at self.old.topology cons) }
        requires some_out { IfSome (value_at self.old.active cons) (λ n. 1 ≤ n) }
        ensures { self.new ≡ with_active self.old cons (λ n. n - 1) }
    {
        let cell = self.tables.consumer_mut(cons);
        cell.consumer.active -= 1;
        let geom = cell.consumer.geom.number();
        going::look_again(&mut self.tables, geom);
    }

    /// The scratch of a geom.
    pub fn set_geom_scratch(&mut self, geom: GeomId, scratch: Scratch)
        requires { IsSome (geom_at self.old.topology geom) }
        ensures { self.new ≡ with_geom_scratch self.old geom scratch }
    {
        self.tables.geom_mut(geom).scratch = scratch;
    }

    /// The scratch of a provider.
    pub fn set_provider_scratch(&mut self, prov: ProvId, scratch: Scratch)
        requires { IsSome (provider_at self.old.topology prov) }
        ensures { self.new ≡ with_provider_scratch self.old prov scratch }
    {
        self.tables.provider_mut(prov).scratch = scratch;
    }

    /// The scratch of a consumer.
    pub fn set_consumer_scratch(&mut self, cons: ConsId, scratch: Scratch)
        requires { IsSome (consumer_at self.old.topology cons) }
        ensures { self.new ≡ with_consumer_scratch self.old cons scratch }
    {
        self.tables.consumer_mut(cons).scratch = scratch;
    }

    /// Takes away a provider to which nothing is attached.
    pub fn destroy_provider(&mut self, prov: ProvId)
        requires { attached_to self.old.topology prov ≡ [] }
        ensures { self.new ≡ without_provider self.old prov }
    {
        if let Some(cell) = self.tables.edges.providers.remove(prov.number()) {
            self.tables
                .names
                .remove(&cell.provider.name, prov.number(), cell.provider.errored);
            self.tables.edges.index.remove_provider(prov.number());
            self.tables.notes.risen.remove(prov.number());
            self.tables.notes.fallen.remove(prov.number());
            going::look_again(&mut self.tables, cell.provider.geom.number());
        }
    }

    /// Takes away a consumer that is attached to nothing.
    pub fn destroy_consumer(&mut self, cons: ConsId)
        requires { IfSome (consumer_at self.old.topology cons) (λ x. x.provider ≡ None) }
        ensures { self.new ≡ without_consumer self.old cons }
    {
        if let Some(cell) = self.tables.edges.consumers.remove(cons.number()) {
            self.tables.edges.index.remove_consumer(cons.number());
            going::look_again(&mut self.tables, cell.consumer.geom.number());
        }
    }
}

// A geom that was just made, with nothing below it.
fn new_cell<C>(kind: Kind, name: Name, config: C, automatic: bool) -> GeomCell<C>
    ensures { result ≡ made_cell kind name config automatic }
{
    GeomCell {
        geom: GeomRec {
            kind,
            name,
            config,
            automatic,
            withering: false,
            started: 0,
        },
        rank: 1,
        scratch: NO_SCRATCH,
    }
}

// The name of these bytes.
fn fixed_name(bytes: &[u8]) -> Name
    requires { is_name bytes.now ≡ true }
    ensures { result ≡ bytes.now }
{
    Name::new(bytes).unwrap()
}

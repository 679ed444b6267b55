//! What a geom needs to place an offset, by its class.
ghost use Rattle.std.specs.Prelude.{◌≡◌, ◌≤◌, ◌==◌, false, true, None, Some, is_none, sum, IfOk, if◌then◌else◌};
ghost use Rattle.std.specs.List.{list_any};
ghost use Rattle.std.specs.Option.{option_to_list};
ghost use Rattle.geo_model.specs.Place.{component, components, disk_of};
ghost use Rattle.geo_model.specs.World.{Nothing, Disk, Mbr, Ebr, Label, Concat, Stripe, Nop};
ghost use Rattle.geo_class.specs.Assembly.{fail_of};
ghost use Rattle.geo_class.specs.Layout.{HasItsMap, IsConcatMap, IsStripeMap, config_of};
ghost use Rattle.geo_class.specs.Places.{ArePlaces, IsStriped};

use crate::concat::ConcatMap;
use crate::places::Places;
use crate::sizes::smallest;
use crate::stripe::StripeMap;
use geo_base::{ConsId, MAX_LINKS, MAX_MEDIA_BYTES, NoMemory};
use geo_model::{EbrPart, Slice};
use std::alloc::Global;
use std::marker::Model;

/// What a configuration keeps. `below` is the consumer at place 0.
#[derive(Debug, Drop)]
pub enum Layout {
    Nothing,
    Disk {
        disk: u32,
    },
    Mbr {
        below: Option<ConsId>,
        slices: [Option<Slice>; 4],
    },
    Ebr {
        below: Option<ConsId>,
        // In a box, since these are most of what any configuration would take.
        parts: Box<[Option<EbrPart>; MAX_LINKS]>,
    },
    Label {
        below: Option<ConsId>,
    },
    Concat {
        id: Option<u32>,
        places: Places,
        map: Option<ConcatMap>,
    },
    Stripe {
        id: Option<u32>,
        stripe: u32,
        places: Places,
        map: Option<StripeMap>,
    },
    Nop {
        below: Option<ConsId>,
        offset: u64,
        fail: u64,
    },
}

/// What a geom needs to place an offset, by its class. Contracts see the model's configuration.
#[derive(Debug, Drop)]
pub struct Config {
    layout: Layout,
}

impl Model for Config {
    ghost use Rattle.geo_model.specs.World.{Config as ConfigValue};
    ghost use Rattle.geo_class.specs.Assembly.{fail_of};
    ghost use Rattle.geo_class.specs.Layout.{HasItsMap, config_of};

    ghost Value = { ConfigValue };

    ghost view = { λ c. config_of c.layout };

    ghost invariant = { λ c. HasItsMap c.layout };
}

/// The consumer at place 0, where that place is meant.
fn at_zero(below: Option<ConsId>, place: u32) -> Option<ConsId>
    ensures { result ≡ (if place == 0 then below else None) }
{
    if place == 0 { below } else { None }
}

/// The consumer at place 0, if one fills it.
fn one_below(alloc: Global, below: Option<ConsId>) -> Result<Vec<ConsId>, NoMemory>
    ensures { IfOk result (λ consumers. consumers.items ≡ option_to_list below) }
{
    let mut consumers = Vec::new(alloc);
    if let Some(consumer) = below {
        consumers.push(consumer)?;
    }
    Ok(consumers)
}

/// The map of a concat whose places are all filled.
fn concat_map(places: &Places, sector: u32) -> Option<ConcatMap>
    requires { list_any is_none places.now.consumers ≡ false → sum places.now.sizes ≤ MAX_MEDIA_BYTES }
    ensures { IsConcatMap places.now result }
{
    if places.has_free() {
        return None;
    }
    Some(ConcatMap::new(places.sizes(), sector))
}

/// The map of a stripe whose places are all filled.
fn stripe_map(stripe: u32, places: &Places, sector: u32) -> Option<StripeMap>
    requires { list_any is_none places.now.consumers ≡ false → IsStriped stripe places.now.sizes }
    ensures { IsStripeMap stripe places.now result }
{
    if places.has_free() {
        return None;
    }
    let sizes = places.sizes();
    Some(StripeMap::new(sizes.len() as u32, stripe, smallest(sizes), sector))
}

impl Config {
    /// Of DEV and TASTE.
    pub fn nothing() -> Config
        ensures { result ≡ Nothing }
    {
        Config {
            layout: Layout::Nothing,
        }
    }

    /// Of the disk of this number in header order.
    pub fn disk(disk: u32) -> Config
        ensures { result ≡ Disk disk }
    {
        Config {
            layout: Layout::Disk { disk },
        }
    }

    /// The slices of a table, over the provider to which `below` is attached.
    pub fn mbr(below: Option<ConsId>, slices: [Option<Slice>; 4]) -> Config
        ensures { result ≡ Mbr below slices }
    {
        Config {
            layout: Layout::Mbr { below, slices },
        }
    }

    /// The partitions of a chain, in the order of its links, over the provider to which `below` is attached.
    pub fn ebr(
        alloc: Global,
        below: Option<ConsId>,
        parts: &[Option<EbrPart>; MAX_LINKS],
    ) -> Result<Config, NoMemory>
        ensures { IfOk result (λ config. config ≡ Ebr below parts.now) }
    {
        let parts = Box::new(alloc, *parts)?;
        Ok(Config {
            layout: Layout::Ebr { below, parts },
        })
    }

    /// Another name for the provider to which `below` is attached.
    pub fn label(below: Option<ConsId>) -> Config
        ensures { result ≡ Label below }
    {
        Config {
            layout: Layout::Label { below },
        }
    }

    /// The places of a concat, whose components have sectors of `sector` bytes. A complete one has a size that a
    /// provider may have.
    pub(crate) fn concat_of(id: Option<u32>, places: Places, sector: u32) -> Config
        requires { list_any is_none places.consumers ≡ false → sum places.sizes ≤ MAX_MEDIA_BYTES }
        ensures { result ≡ Concat id places.consumers places.sizes }
    {
        let map = concat_map(&places, sector);
        Config {
            layout: Layout::Concat { id, places, map },
        }
    }

    /// The places of a stripe, whose components have sectors of `sector` bytes. A complete one has a stripe size,
    /// and a size that a provider may have.
    pub(crate) fn stripe_of(id: Option<u32>, stripe: u32, places: Places, sector: u32) -> Config
        requires { list_any is_none places.consumers ≡ false → IsStriped stripe places.sizes }
        ensures { result ≡ Stripe id stripe places.consumers places.sizes }
    {
        let map = stripe_map(stripe, &places, sector);
        Config {
            layout: Layout::Stripe {
                id,
                stripe,
                places,
                map,
            },
        }
    }

    /// The places of a concat, of which one is free.
    pub(crate) fn partial_concat(id: Option<u32>, places: Places) -> Config
        requires { list_any is_none places.consumers ≡ true }
        ensures { result ≡ Concat id places.consumers places.sizes }
    {
        Config {
            layout: Layout::Concat {
                id,
                places,
                map: None,
            },
        }
    }

    /// The places of a stripe, of which one is free.
    pub(crate) fn partial_stripe(id: Option<u32>, stripe: u32, places: Places) -> Config
        requires { list_any is_none places.consumers ≡ true }
        ensures { result ≡ Stripe id stripe places.consumers places.sizes }
    {
        Config {
            layout: Layout::Stripe {
                id,
                stripe,
                places,
                map: None,
            },
        }
    }

    /// The places of a concat, and the sizes of their components with sectors of `sector` bytes. A complete one has
    /// a size that a provider may have.
    pub fn concat(
        id: Option<u32>,
        consumers: Vec<Option<ConsId>>,
        sizes: Vec<u64>,
        sector: u32,
    ) -> Config
        requires places { ArePlaces consumers.items sizes.items }
        requires fits { list_any is_none consumers.items ≡ false → sum sizes.items ≤ MAX_MEDIA_BYTES }
        ensures { result ≡ Concat id consumers.items sizes.items }
    {
        Config::concat_of(id, Places::new(consumers, sizes), sector)
    }

    /// The places of a stripe, and the sizes of their components with sectors of `sector` bytes. A complete one has
    /// a stripe size, and a size that a provider may have.
    pub fn stripe(
        id: Option<u32>,
        stripe: u32,
        consumers: Vec<Option<ConsId>>,
        sizes: Vec<u64>,
        sector: u32,
    ) -> Config
        requires places { ArePlaces consumers.items sizes.items }
        requires fits { list_any is_none consumers.items ≡ false → IsStriped stripe sizes.items }
        ensures { result ≡ Stripe id stripe consumers.items sizes.items }
    {
        Config::stripe_of(id, stripe, Places::new(consumers, sizes), sector)
    }

    /// A window from `offset` on, of which some requests fail by `fail`.
    pub fn nop(below: Option<ConsId>, offset: u64, fail: u64) -> Config
        ensures { result ≡ Nop below offset fail }
    {
        Config {
            layout: Layout::Nop {
                below,
                offset,
                fail,
            },
        }
    }

    /// What the configuration keeps.
    pub(crate) fn layout(&self) -> &Layout
        ensures seen { config_of result.now ≡ self.now }
        ensures kept { HasItsMap result.now }
    {
        &self.layout
    }

    /// The consumer at a place. None exactly where no consumer fills it.
    pub fn component(&self, place: u32) -> Option<ConsId>
        ensures { result ≡ component self.now place }
    {
        match &self.layout {
            Layout::Nothing => None,
            Layout::Disk { .. } => None,
            Layout::Mbr { below, .. } => at_zero(*below, place),
            Layout::Ebr { below, .. } => at_zero(*below, place),
            Layout::Label { below } => at_zero(*below, place),
            Layout::Concat { places, .. } => places.consumer(place),
            Layout::Stripe { places, .. } => places.consumer(place),
            Layout::Nop { below, .. } => at_zero(*below, place),
        }
    }

    /// The disk of a DISK geom.
    pub fn disk_of(&self) -> Option<u32>
        ensures { result ≡ disk_of self.now }
    {
        match &self.layout {
            Layout::Disk { disk } => Some(*disk),
            _ => None,
        }
    }

    /// Which requests of a NOP geom fail.
    pub fn fail(&self) -> Option<u64>
        ensures { result ≡ fail_of self.now }
    {
        match self.layout() {
            Layout::Nop { fail, .. } => Some(*fail),
            _ => None,
        }
    }

    /// The consumers that fill the geom's places, in the order of the places.
    pub fn components(&self, alloc: Global) -> Result<Vec<ConsId>, NoMemory>
        ensures { IfOk result (λ consumers. consumers.items ≡ components self.now) }
    {
        match self.layout() {
            Layout::Nothing => Ok(Vec::new(alloc)),
            Layout::Disk { .. } => Ok(Vec::new(alloc)),
            Layout::Mbr { below, .. } => one_below(alloc, *below),
            Layout::Ebr { below, .. } => one_below(alloc, *below),
            Layout::Label { below } => one_below(alloc, *below),
            Layout::Concat { places, .. } => places.consumers(alloc),
            Layout::Stripe { places, .. } => places.consumers(alloc),
            Layout::Nop { below, .. } => one_below(alloc, *below),
        }
    }
}

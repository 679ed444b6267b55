//! Assemblies of CONCAT and STRIPE whose places are filled one after another.
ghost use Rattle.std.specs.Prelude.{◌≡◌, ◌*◌, ◌/◌, ◌<◌, ◌≤◌, ◌||◌, not, length, sum, slice_get, is_none, is_some, IfOk};
ghost use Rattle.std.specs.List.{list_all};
ghost use Rattle.std.specs.Option.{option_flatten};
ghost use Rattle.geo_model.specs.Acceptance.{add_place, empty_concat, empty_stripe, fill_place, is_same_assembly, is_size, joined_size, places_of, smallest};
ghost use Rattle.geo_model.specs.World.{Concat, Stripe};
ghost use Rattle.geo_class.specs.Assembly.{CanGrow, allowed_size, standing};

use crate::config::{Config, Layout};
use crate::places::Places;
use crate::sizes::{concat_size, stripe_size};
use geo_base::{ConsId, MAX_COMPONENTS, NoMemory};
use geo_model::{ConcatRecord, StripeRecord};
use std::alloc::Global;

/// Whether a concat of these places can stand: one is free, or a provider may have its size.
#[tactic(auto, using(crate::proofs::AssemblyLemmas::size_is))]
fn can_stand_joined(places: &Places) -> bool
    ensures { result ≡ (not (list_all is_some places.now.consumers) || is_size (sum places.now.sizes)) }
{
    !places.are_all_filled() || concat_size(places.sizes()).is_some()
}

/// Whether a stripe of these places can stand: one is free, or a provider may have its size.
#[tactic(auto, using(crate::proofs::AssemblyLemmas::size_is))]
fn can_stand_striped(stripe: u32, places: &Places) -> bool
    ensures { result ≡ (not (list_all is_some places.now.consumers)
        || is_size (length places.now.sizes * ((smallest places.now.sizes / stripe) * stripe))) }
{
    !places.are_all_filled() || stripe_size(stripe, places.sizes()).is_some()
}

/// A concat of these places. None where its places are all filled and no provider may have its size.
#[tactic(auto, using(crate::proofs::AssemblyLemmas::concat_fits))]
fn standing_concat(id: Option<u32>, places: Places, sector: u32) -> Option<Config>
    ensures { result ≡ standing (Concat id places.consumers places.sizes) }
{
    if !can_stand_joined(&places) {
        return None;
    }
    Some(Config::concat_of(id, places, sector))
}

/// A stripe of these places. None where its places are all filled and no provider may have its size.
#[tactic(auto, using(crate::proofs::AssemblyLemmas::stripe_fits))]
fn standing_stripe(id: Option<u32>, stripe: u32, places: Places, sector: u32) -> Option<Config>
    ensures { result ≡ standing (Stripe id stripe places.consumers places.sizes) }
{
    if !can_stand_striped(stripe, &places) {
        return None;
    }
    Some(Config::stripe_of(id, stripe, places, sector))
}

impl Config {
    /// The assembly that a record of a concat names, while all its places are free.
    pub fn empty_concat(alloc: Global, found: &ConcatRecord) -> Result<Config, NoMemory>
        requires some { 1 ≤ found.now.count }
        requires few { found.now.count ≤ MAX_COMPONENTS }
        ensures { IfOk result (λ config. config ≡ empty_concat found.now) }
    {
        let places = Places::free(alloc, usize::from(found.count))?;
        Ok(Config::partial_concat(Some(found.id), places))
    }

    /// The assembly that a record of a stripe names, while all its places are free.
    pub fn empty_stripe(alloc: Global, found: &StripeRecord) -> Result<Config, NoMemory>
        requires some { 1 ≤ found.now.count }
        requires few { found.now.count ≤ MAX_COMPONENTS }
        ensures { IfOk result (λ config. config ≡ empty_stripe found.now) }
    {
        let places = Places::free(alloc, usize::from(found.count))?;
        Ok(Config::partial_stripe(Some(found.id), found.stripe, places))
    }

    /// Whether the other configuration is of the same assembly: the same class, id, count and stripe size.
    pub fn is_same_assembly(&self, other: &Config) -> bool
        ensures { result ≡ is_same_assembly self.now other.now }
    {
        match (self.layout(), other.layout()) {
            (
                Layout::Concat {
                    id: Some(a),
                    places,
                    ..
                },
                Layout::Concat {
                    id: Some(b),
                    places: others,
                    ..
                },
            ) => *a == *b && places.count() == others.count(),
            (
                Layout::Stripe {
                    id: Some(a),
                    stripe,
                    places,
                    ..
                },
                Layout::Stripe {
                    id: Some(b),
                    stripe: other_stripe,
                    places: others,
                    ..
                },
            ) => *a == *b && *stripe == *other_stripe && places.count() == others.count(),
            _ => false,
        }
    }

    /// Whether no consumer fills a place of the assembly.
    pub fn is_free(&self, place: u32) -> bool
        ensures { result ≡ is_none (option_flatten (slice_get (places_of self.now) place)) }
    {
        match self.layout() {
            Layout::Concat { places, .. } => places.consumer(place).is_none(),
            Layout::Stripe { places, .. } => places.consumer(place).is_none(),
            _ => true,
        }
    }

    /// Whether each place of the assembly is filled.
    pub fn is_whole(&self) -> bool
        ensures { result ≡ list_all is_some (places_of self.now) }
    {
        match self.layout() {
            Layout::Concat { places, .. } => places.are_all_filled(),
            Layout::Stripe { places, .. } => places.are_all_filled(),
            _ => true,
        }
    }

    /// The size of the provider of the assembly, as far as its components are known. None where no provider may
    /// have it.
    pub fn joined_size(&self) -> Option<u64>
        ensures { result ≡ allowed_size (joined_size self.now) }
    {
        match self.layout() {
            Layout::Concat { places, .. } => concat_size(places.sizes()),
            Layout::Stripe { stripe, places, .. } => stripe_size(*stripe, places.sizes()),
            _ => None,
        }
    }

    /// The assembly with a place filled by a consumer that has a component of `size` bytes in sectors of `sector`.
    /// None where it is complete by that and no provider may have its size.
    pub fn filled(
        &self,
        alloc: Global,
        place: u32,
        consumer: ConsId,
        size: u64,
        sector: u32,
    ) -> Result<Option<Config>, NoMemory>
        requires { place < length (places_of self.now) }
        ensures { IfOk result (λ config. config ≡ standing (fill_place self.now place consumer size)) }
    {
        match self.layout() {
            Layout::Concat { id, places, .. } => {
                let places = places.with_filled(alloc, place as usize, consumer, size)?;
                Ok(standing_concat(*id, places, sector))
            }
            Layout::Stripe {
                id,
                stripe,
                places,
                ..
            } => {
                let places = places.with_filled(alloc, place as usize, consumer, size)?;
                Ok(standing_stripe(*id, *stripe, places, sector))
            }
            _ => unreachable!(),
        }
    }

    /// The concat with one more place behind the others, filled by a consumer that has a component of `size` bytes
    /// in sectors of `sector`.
    pub fn with_place(
        &self,
        alloc: Global,
        consumer: ConsId,
        size: u64,
        sector: u32,
    ) -> Result<Config, NoMemory>
        requires { CanGrow self.now size }
        ensures { IfOk result (λ config. config ≡ add_place self.now consumer size) }
    {
        match self.layout() {
            Layout::Concat { id, places, .. } => {
                let places = places.with_more(alloc, consumer, size)?;
                Ok(Config::concat_of(*id, places, sector))
            }
            _ => unreachable!(),
        }
    }
}

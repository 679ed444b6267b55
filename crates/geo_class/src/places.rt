//! The places of a CONCAT or STRIPE geom.
ghost use Rattle.std.specs.Prelude.{◌≡◌, ◌≤◌, ◌<◌, [], ◌∷◌, ◌++◌, flat_map, length, replicate, slice_get, slice_set, None, Some, is_none, is_some, IfOk};
ghost use Rattle.std.specs.List.{list_all, list_any};
ghost use Rattle.std.specs.Option.{option_flatten, option_to_list};
ghost use Rattle.geo_class.specs.Places.{ArePlaces};

use geo_base::{ConsId, MAX_COMPONENTS, NoMemory};
use std::alloc::Global;
use std::marker::Model;

/// The consumers that fill the places, and the sizes of their components. Contracts see the two lists.
#[derive(Debug, Drop)]
pub struct Places {
    filled: Vec<Option<ConsId>>,
    cells: Vec<u64>,
}

impl Model for Places {
    ghost use Rattle.geo_class.specs.Places.{ArePlaces, PlacesView};

    ghost Value = { PlacesView };

    ghost view = { λ p. record { consumers = p.filled.items; sizes = p.cells.items } };

    ghost invariant = { λ p. ArePlaces p.filled.items p.cells.items };
}

impl Places {
    /// The places that these consumers fill, with the sizes of their components.
    pub fn new(consumers: Vec<Option<ConsId>>, sizes: Vec<u64>) -> Places
        requires { ArePlaces consumers.items sizes.items }
        ensures { result ≡ record { consumers = consumers.items; sizes = sizes.items } }
    {
        Places {
            filled: consumers,
            cells: sizes,
        }
    }

    /// The sizes of the components.
    pub fn sizes(&self) -> &[u64]
        ensures sizes { result.now ≡ self.now.sizes }
        ensures few { length result.now ≤ MAX_COMPONENTS }
    {
        self.cells.as_slice()
    }

    /// How many places there are.
    pub fn count(&self) -> usize
        ensures { result ≡ length self.now.consumers }
    {
        self.filled.len()
    }

    /// Whether a place is free.
    pub fn has_free(&self) -> bool
        ensures { result ≡ list_any is_none self.now.consumers }
    {
        self.filled.iter().any(|place| place.is_none())
    }

    /// Whether no place is free.
    pub fn are_all_filled(&self) -> bool
        ensures { result ≡ list_all is_some self.now.consumers }
    {
        self.filled.iter().all(|place| place.is_some())
    }

    /// The consumer that fills a place, if one does.
    pub fn consumer(&self, place: u32) -> Option<ConsId>
        ensures { result ≡ option_flatten (slice_get self.now.consumers place) }
    {
        self.filled.get(place as usize).copied().flatten()
    }

    /// So many places, all free.
    pub fn free(alloc: Global, count: usize) -> Result<Places, NoMemory>
        requires { count ≤ MAX_COMPONENTS }
        ensures { IfOk result (λ p. p ≡ record { consumers = replicate count None; sizes = replicate count 0 }) }
    {
        Ok(Places {
            filled: Vec::from_elem(alloc, None, count)?,
            cells: Vec::from_elem(alloc, 0, count)?,
        })
    }

    /// The same places, with one filled by a consumer that has a component of this size.
    pub fn with_filled(
        &self,
        alloc: Global,
        place: usize,
        consumer: ConsId,
        size: u64,
    ) -> Result<Places, NoMemory>
        requires { place < length self.now.consumers }
        ensures { IfOk result (λ p. p
            ≡ record {
              consumers = slice_set self.now.consumers place (Some consumer);
              sizes =
                  slice_set self.now.sizes place size;
            }) }
    {
        let mut filled = Vec::from_slice(alloc, &self.filled)?;
        let mut cells = Vec::from_slice(alloc, &self.cells)?;
        filled[place] = Some(consumer);
        cells[place] = size;
        Ok(Places { filled, cells })
    }

    /// The same places, and one more behind them, filled by a consumer that has a component of this size.
    pub fn with_more(&self, alloc: Global, consumer: ConsId, size: u64) -> Result<Places, NoMemory>
        requires { length self.now.sizes < MAX_COMPONENTS }
        ensures { IfOk result (λ p. p
            ≡ record { consumers = self.now.consumers ++ Some consumer ∷ []; sizes = self.now.sizes ++ size ∷ [] }) }
    {
        let mut filled = Vec::from_slice(alloc, &self.filled)?;
        filled.push(Some(consumer))?;
        let mut cells = Vec::from_slice(alloc, &self.cells)?;
        cells.push(size)?;
        Ok(Places { filled, cells })
    }

    /// The consumers that fill places, in the order of the places.
    pub fn consumers(&self, alloc: Global) -> Result<Vec<ConsId>, NoMemory>
        ensures { IfOk result (λ consumers. consumers.items ≡ flat_map option_to_list self.now.consumers) }
    {
        let mut consumers = Vec::new(alloc);
        for place in &self.filled {
            if let Some(consumer) = place {
                consumers.push(*consumer)?;
            }
        }
        Ok(consumers)
    }
}

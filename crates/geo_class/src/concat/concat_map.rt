//! Where a provider lies whose components stand one behind the other.
ghost use Rattle.std.specs.Prelude.{◌≡◌, ◌+◌, ◌^◌, ◌<◌, ◌≤◌, [], ◌∷◌, ◌++◌, length, sum, Some};
ghost use Rattle.geo_model.specs.Place.{concat_spot, concat_stretches, cut};
ghost use Rattle.geo_class.specs.concat.Growth.{KeepsPlaces};

use crate::address_map::AddressMap;
use crate::piece_list::PieceList;
use geo_base::{MAX_COMPONENTS, MAX_MEDIA_BYTES, NoMemory};
use geo_model::{Span, Stretch};
use std::alloc::Global;
use std::marker::Model;

/// The map of a CONCAT geom: the ranges of its components follow each other. Contracts see the components' sizes and
/// the sector size.
#[derive(Clone, Copy, Debug)]
pub struct ConcatMap {
    cells: [u64; MAX_COMPONENTS],
    count: usize,
    sector: u32,
}

impl Model for ConcatMap {
    ghost use Rattle.std.specs.Prelude.{ℕ, ◌-◌, ◌++◌, take, replicate, length};
    ghost use Rattle.geo_class.specs.concat.ConcatMap.{ConcatView};

    ghost Value = { ConcatView };

    ghost use Rattle.geo_class.specs.concat.Kept.{IsKept, sizes_kept_again};
    ghost use Rattle.geo_model.specs.TheConstants.{MAX_COMPONENTS};

    ghost view = { λ map. record { sizes = take map.count map.cells; sector = map.sector } };

    ghost invariant = { λ map. IsKept map.cells map.count };

    ghost inverse = { λ map. record {
      cells = map.sizes ++ replicate (MAX_COMPONENTS - length map.sizes) 0;
      count =
          length map.sizes;
      sector = map.sector;
    } };

    ghost inverse_ok = { λ map kept.
        sizes_kept_again
        (λ cells n. record { cells = cells; count = n; sector = map.sector }) map.cells map.count kept };
}

/// The component in which an offset lies, and the offset there.
fn place_in(sizes: &[u64], offset: u64) -> (u32, u64)
    requires few { length sizes.now ≤ MAX_COMPONENTS }
    requires inside { offset < sum sizes.now }
    ensures { concat_spot 0 sizes.now offset ≡ Some (record { component = result.0; offset = result.1 }) }
{
    let mut left = offset;
    for (component, size) in sizes.iter().enumerate() {
        if left < *size {
            return (component as u32, left);
        }
        left -= *size;
    }
    unreachable!()
}

/// Adds the parts of a range that lie in the components, in their order, in the room that was reserved.
fn push_parts(list: &mut PieceList, span: Span, sizes: &[u64])
    requires few { length sizes.now ≤ MAX_COMPONENTS }
    requires room { length sizes.now ≤ list.old.spare }
    requires fits { sum sizes.now ≤ MAX_MEDIA_BYTES }
    requires range_fits { span.offset + span.len < 2 ^ 64 }
    ensures { list.new.items ≡ list.old.items ++ cut span.offset span.len (concat_stretches 0 0 sizes.now) }
{
    let mut start = 0;
    for (component, size) in sizes.iter().enumerate() {
        list.push_part(
            span,
            Stretch {
                start,
                len: *size,
                component: component as u32,
                offset: 0,
            },
        );
        start += *size;
    }
}

impl ConcatMap {
    /// The components of these sizes, in their order, of which each has sectors of `sector` bytes.
    pub fn new(sizes: &[u64], sector: u32) -> ConcatMap
        requires few { length sizes.now ≤ MAX_COMPONENTS }
        requires fits { sum sizes.now ≤ MAX_MEDIA_BYTES }
        ensures { result ≡ record { sizes = sizes.now; sector = sector } }
    {
        let mut cells = [0u64; MAX_COMPONENTS];
        cells[..sizes.len()].copy_from_slice(sizes);
        ConcatMap {
            cells,
            count: sizes.len(),
            sector,
        }
    }

    /// A component of `size` bytes behind the others. Each offset before it keeps its place.
    pub fn add(&mut self, size: u64)
        requires few { length self.old.sizes < MAX_COMPONENTS }
        requires fits { sum self.old.sizes + size ≤ MAX_MEDIA_BYTES }
        ensures grown { self.new ≡ record self.old { sizes = self.old.sizes ++ size ∷ [] } }
        ensures places_stay { KeepsPlaces self.old self.new }
    {
        self.cells[self.count] = size;
        self.count += 1;
    }

    /// The components' sizes, at most 16, in order.
    pub fn sizes(&self) -> &[u64]
        ensures sizes { result.now ≡ self.now.sizes }
        ensures few { length result.now ≤ MAX_COMPONENTS }
        ensures fits { sum result.now ≤ MAX_MEDIA_BYTES }
    {
        &self.cells[..self.count]
    }
}

impl AddressMap for ConcatMap {
    ghost use Rattle.std.specs.Prelude.{sum};
    ghost use Rattle.geo_model.specs.Place.{concat_spot, concat_stretches};
    ghost use Rattle.geo_class.specs.concat.ConcatLaws.{concat-follow, concat-placed};

    ghost media = { λ map. sum map.sizes };

    ghost sector_size = { λ map. map.sector };

    ghost spot = { λ map. concat_spot 0 map.sizes };

    ghost stretches = { λ map _ _. concat_stretches 0 0 map.sizes };

    fn size(&self) -> u64 {
        self.sizes().iter().sum()
    }

    fn sector(&self) -> u32 {
        self.sector
    }

    fn place(&self, offset: u64) -> (u32, u64) {
        place_in(self.sizes(), offset)
    }

    fn split(&self, alloc: Global, span: Span) -> Result<PieceList, NoMemory> {
        let sizes = self.sizes();
        let mut list = PieceList::new(alloc);
        list.reserve(sizes.len() as u64)?;
        push_parts(&mut list, span, sizes);
        Ok(list)
    }

    ghost pieces_follow = { concat-follow };

    ghost pieces_are_placed = { concat-placed };
}

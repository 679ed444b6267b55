//! Address maps.
ghost use Rattle.std.specs.Prelude.{◌≡◌, ◌+◌, ◌<◌, ◌≤◌, IfOk, Some};
ghost use Rattle.geo_model.specs.Place.{cut};

use crate::piece_list::PieceList;
use geo_base::NoMemory;
use geo_model::Span;
use std::alloc::Global;

/// Where each offset of a provider lies below it: in a component, which is a place of its geom counted from 0, at an
/// offset of the provider there (geom(4)). Sizes and offsets are in bytes.
pub trait AddressMap {
    ghost use Rattle.std.specs.Prelude.{ℕ, List, Option, ◌+◌, ◌<◌, ◌≤◌};
    ghost use Rattle.std.specs.List.{AllByRecursion};
    ghost use Rattle.geo_model.specs.Place.{Spot, cut, Follow, PieceIsPlaced};
    ghost use Rattle.geo_model.specs.declared.span.Stretch.{Stretch};

    // The size of the provider, and of its sectors.
    ghost media: { Self → ℕ };

    ghost sector_size: { Self → ℕ };

    // Where an offset lies.
    ghost spot: { Self → ℕ → Option Spot };

    // The parts of the provider that a range can touch, each in one component.
    ghost stretches: { Self → ℕ → ℕ → List Stretch };

    /// The size of the provider.
    fn size(&self) -> u64
        ensures { result ≡ media self.now };

    /// The size of its sectors.
    fn sector(&self) -> u32
        ensures { result ≡ sector_size self.now };

    /// The component in which an offset lies, and the offset there. It takes no longer for a longer provider.
    fn place(&self, offset: u64) -> (u32, u64)
        requires { offset < media self.now }
        ensures { spot self.now offset ≡ Some (record { component = result.0; offset = result.1 }) };

    /// The pieces of a range, cut at the end of each component's part. It isn't empty and lies inside the size.
    fn split(&self, alloc: Global, span: Span) -> Result<PieceList, NoMemory>
        requires some_byte { 0 < span.len }
        requires inside { span.offset + span.len ≤ media self.now }
        ensures { IfOk result (λ list. list.items
            ≡ cut span.offset span.len (stretches self.now span.offset span.len)) };

    // The pieces follow each other from the beginning of the range to its end.
    ghost pieces_follow: { (m : Self) (o len : ℕ) → 0 < len → o + len ≤ media m
        → Follow 0 len (cut o len (stretches m o len)) };

    // Each byte of each piece lies where the map says.
    ghost pieces_are_placed: { (m : Self) (o len : ℕ)
        → AllByRecursion (PieceIsPlaced (spot m) o) (cut o len (stretches m o len)) };
}

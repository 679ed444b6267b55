//! Where a logical partition lies.
ghost use Rattle.std.specs.Prelude.{◌≡◌, ◌+◌, ◌*◌, ◌≤◌};
ghost use Rattle.geo_class.specs.ebr.MapLaws.{MapsAreTheModels};

use crate::address_map::AddressMap;
use crate::piece_list::PieceList;
use crate::window::Window;
use geo_base::{MAX_MEDIA_BYTES, NoMemory};
use geo_model::Span;
use std::alloc::Global;
use std::marker::Model;

/// The size of a sector.
const SECTOR: u64 = 512;

/// The map of one logical partition of an EBR geom: its provider is a part of component 0. Contracts see it as a
/// window.
#[derive(Clone, Copy, Debug, PartialEq, Eq)]
pub struct EbrMap {
    window: Window,
}

impl Model for EbrMap {
    ghost use Rattle.geo_class.specs.Window.{WindowView};

    ghost Value = { WindowView };

    ghost view = { λ map. map.window };

    ghost inverse = { λ window. record { window = window } };
}

impl EbrMap {
    /// The `count` sectors from sector `first` on, which have 512 bytes.
    pub fn new(first: u64, count: u32) -> EbrMap
        requires { (first + count) * 512 ≤ MAX_MEDIA_BYTES }
        ensures { result ≡ record { start = first * 512; size = count * 512; sector = 512 } }
    {
        EbrMap::sized(first, u64::from(count) * SECTOR)
    }

    /// The first `size` bytes from sector `first` on.
    pub fn sized(first: u64, size: u64) -> EbrMap
        requires { first * 512 + size ≤ MAX_MEDIA_BYTES }
        ensures { result ≡ record { start = first * 512; size = size; sector = 512 } }
    {
        EbrMap {
            window: Window::new(first * SECTOR, size, SECTOR as u32),
        }
    }
}

impl AddressMap for EbrMap {
    ghost use Rattle.geo_class.specs.Window.{window_spot, window_stretches};
    ghost use Rattle.geo_class.specs.WindowLaws.{window-follow, window-placed};

    ghost media = { λ map. map.size };

    ghost sector_size = { λ map. map.sector };

    ghost spot = { window_spot };

    ghost stretches = { window_stretches };

    fn size(&self) -> u64 {
        self.window.size()
    }

    fn sector(&self) -> u32 {
        self.window.sector()
    }

    fn place(&self, offset: u64) -> (u32, u64) {
        self.window.place(offset)
    }

    fn split(&self, alloc: Global, span: Span) -> Result<PieceList, NoMemory> {
        self.window.split(alloc, span)
    }

    ghost pieces_follow = { window-follow };

    ghost pieces_are_placed = { window-placed };
}

/// Each provider of an EBR geom lies as the map of its partition says.
#[tactic(auto, using(crate::proofs::EbrMapLemmas::maps_are_the_models))]
pub fn maps_are_the_models()
    ensures { MapsAreTheModels }
{}

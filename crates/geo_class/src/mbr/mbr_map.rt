//! Where a slice lies.
ghost use Rattle.std.specs.Prelude.{◌≡◌, ◌+◌, ◌*◌, ◌≤◌};

use crate::address_map::AddressMap;
use crate::piece_list::PieceList;
use crate::window::Window;
use geo_base::{MAX_MEDIA_BYTES, NoMemory};
use geo_model::{Slice, Span};
use std::alloc::Global;
use std::marker::Model;

/// The size of a sector.
const SECTOR: u64 = 512;

/// The map of one slice of an MBR geom: its provider is a part of component 0. Contracts see it as a window.
#[derive(Clone, Copy, Debug, PartialEq, Eq)]
pub struct MbrMap {
    window: Window,
}

impl Model for MbrMap {
    ghost use Rattle.geo_class.specs.Window.{WindowView};

    ghost Value = { WindowView };

    ghost view = { λ map. map.window };

    ghost inverse = { λ window. record { window = window } };
}

impl MbrMap {
    /// The sectors of the slice, which have 512 bytes.
    pub fn new(slice: &Slice) -> MbrMap
        ensures { result ≡ record { start = slice.now.first * 512; size = slice.now.count * 512; sector = 512 } }
    {
        let (first, count) = (u64::from(slice.first), u64::from(slice.count));
        MbrMap::over(first * SECTOR, count * SECTOR)
    }

    /// The first `size` bytes from where the slice begins.
    pub fn sized(slice: &Slice, size: u64) -> MbrMap
        requires { slice.now.first * 512 + size ≤ MAX_MEDIA_BYTES }
        ensures { result ≡ record { start = slice.now.first * 512; size = size; sector = 512 } }
    {
        MbrMap::over(u64::from(slice.first) * SECTOR, size)
    }

    // The `size` bytes from `start` on.
    fn over(start: u64, size: u64) -> MbrMap
        requires { start + size ≤ MAX_MEDIA_BYTES }
        ensures { result ≡ record { start = start; size = size; sector = 512 } }
    {
        MbrMap {
            window: Window::new(start, size, SECTOR as u32),
        }
    }
}

impl AddressMap for MbrMap {
    ghost use Rattle.geo_class.specs.Window.{window_spot, window_stretches};
    ghost use Rattle.geo_class.specs.WindowLaws.{window-follow, window-placed};

    ghost media = { λ map. map.size };

    ghost sector_size = { λ map. map.sector };

    ghost spot = { window_spot };

    ghost stretches = { window_stretches };

    fn size(&self) -> u64 {
        self.window.size()
    }

    fn sector(&self) -> u32 {
        self.window.sector()
    }

    fn place(&self, offset: u64) -> (u32, u64) {
        self.window.place(offset)
    }

    fn split(&self, alloc: Global, span: Span) -> Result<PieceList, NoMemory> {
        self.window.split(alloc, span)
    }

    ghost pieces_follow = { window-follow };

    ghost pieces_are_placed = { window-placed };
}

//! Where a window of a provider lies.
ghost use Rattle.std.specs.Prelude.{◌≡◌, ◌+◌, ◌≤◌};

use crate::address_map::AddressMap;
use crate::piece_list::PieceList;
use crate::window::Window;
use geo_base::{MAX_MEDIA_BYTES, NoMemory};
use geo_model::Span;
use std::alloc::Global;
use std::marker::Model;

/// The map of a NOP geom: its provider is a window of component 0. Contracts see the window.
#[derive(Clone, Copy, Debug, PartialEq, Eq)]
pub struct NopMap {
    window: Window,
}

impl Model for NopMap {
    ghost use Rattle.geo_class.specs.Window.{WindowView};

    ghost Value = { WindowView };

    ghost view = { λ map. map.window };

    ghost inverse = { λ window. record { window = window } };
}

impl NopMap {
    /// The `size` bytes from `offset` on, in sectors of `sector` bytes.
    pub fn new(offset: u64, size: u64, sector: u32) -> NopMap
        requires { offset + size ≤ MAX_MEDIA_BYTES }
        ensures { result ≡ record { start = offset; size = size; sector = sector } }
    {
        NopMap {
            window: Window::new(offset, size, sector),
        }
    }
}

impl AddressMap for NopMap {
    ghost use Rattle.geo_class.specs.Window.{window_spot, window_stretches};
    ghost use Rattle.geo_class.specs.WindowLaws.{window-follow, window-placed};

    ghost media = { λ map. map.size };

    ghost sector_size = { λ map. map.sector };

    ghost spot = { window_spot };

    ghost stretches = { window_stretches };

    fn size(&self) -> u64 {
        self.window.size()
    }

    fn sector(&self) -> u32 {
        self.window.sector()
    }

    fn place(&self, offset: u64) -> (u32, u64) {
        self.window.place(offset)
    }

    fn split(&self, alloc: Global, span: Span) -> Result<PieceList, NoMemory> {
        self.window.split(alloc, span)
    }

    ghost pieces_follow = { window-follow };

    ghost pieces_are_placed = { window-placed };
}

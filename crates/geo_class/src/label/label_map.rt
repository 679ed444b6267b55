//! Where a labelled provider lies.
ghost use Rattle.std.specs.Prelude.{◌≡◌, ◌≤◌};

use crate::address_map::AddressMap;
use crate::piece_list::PieceList;
use crate::window::Window;
use geo_base::{MAX_MEDIA_BYTES, NoMemory};
use geo_model::Span;
use std::alloc::Global;
use std::marker::Model;

/// The map of a LABEL geom: its provider is component 0 from its start on. Contracts see it as a window.
#[derive(Clone, Copy, Debug, PartialEq, Eq)]
pub struct LabelMap {
    window: Window,
}

impl Model for LabelMap {
    ghost use Rattle.geo_class.specs.Window.{WindowView};

    ghost Value = { WindowView };

    ghost view = { λ map. map.window };

    ghost inverse = { λ window. record { window = window } };
}

impl LabelMap {
    /// The first `size` bytes of the component, in sectors of `sector` bytes.
    pub fn new(size: u64, sector: u32) -> LabelMap
        requires { size ≤ MAX_MEDIA_BYTES }
        ensures { result ≡ record { start = 0; size = size; sector = sector } }
    {
        LabelMap {
            window: Window::new(0, size, sector),
        }
    }
}

impl AddressMap for LabelMap {
    ghost use Rattle.geo_class.specs.Window.{window_spot, window_stretches};
    ghost use Rattle.geo_class.specs.WindowLaws.{window-follow, window-placed};

    ghost media = { λ map. map.size };

    ghost sector_size = { λ map. map.sector };

    ghost spot = { window_spot };

    ghost stretches = { window_stretches };

    fn size(&self) -> u64 {
        self.window.size()
    }

    fn sector(&self) -> u32 {
        self.window.sector()
    }

    fn place(&self, offset: u64) -> (u32, u64) {
        self.window.place(offset)
    }

    fn split(&self, alloc: Global, span: Span) -> Result<PieceList, NoMemory> {
        self.window.split(alloc, span)
    }

    ghost pieces_follow = { window-follow };

    ghost pieces_are_placed = { window-placed };
}

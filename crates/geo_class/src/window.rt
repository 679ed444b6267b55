//! Maps of a provider that lies in one component as a whole.
ghost use Rattle.std.specs.Prelude.{◌≡◌, ◌+◌, ◌≤◌};

use crate::address_map::AddressMap;
use crate::piece_list::PieceList;
use geo_base::{MAX_MEDIA_BYTES, NoMemory};
use geo_model::{Piece, Span};
use std::alloc::Global;
use std::marker::Model;

/// A provider that lies in component 0, from an offset there, as those of MBR, LABEL and NOP do. Contracts see where it
/// starts, its size and its sector size.
#[derive(Clone, Copy, Debug, PartialEq, Eq)]
pub struct Window {
    start: u64,
    size: u64,
    sector: u32,
}

impl Model for Window {
    ghost use Rattle.std.specs.Prelude.{◌+◌, ◌≤◌};
    ghost use Rattle.geo_class.specs.Window.{WindowView};
    ghost use Rattle.geo_model.specs.TheConstants.{MAX_MEDIA_BYTES};

    ghost Value = { WindowView };

    ghost view = { λ w. record { start = w.start; size = w.size; sector = w.sector } };

    ghost invariant = { λ w. w.start + w.size ≤ MAX_MEDIA_BYTES };

    ghost inverse = { λ w. record { start = w.start; size = w.size; sector = w.sector } };
}

impl Window {
    /// The `size` bytes from `start` on.
    pub fn new(start: u64, size: u64, sector: u32) -> Window
        requires { start + size ≤ MAX_MEDIA_BYTES }
        ensures { result ≡ record { start = start; size = size; sector = sector } }
    {
        Window {
            start,
            size,
            sector,
        }
    }
}

impl AddressMap for Window {
    ghost use Rattle.geo_class.specs.Window.{window_spot, window_stretches};
    ghost use Rattle.geo_class.specs.WindowLaws.{window-follow, window-placed};

    ghost media = { λ w. w.size };

    ghost sector_size = { λ w. w.sector };

    ghost spot = { window_spot };

    ghost stretches = { window_stretches };

    fn size(&self) -> u64 {
        self.size
    }

    fn sector(&self) -> u32 {
        self.sector
    }

    fn place(&self, offset: u64) -> (u32, u64) {
        (0, self.start + offset)
    }

    fn split(&self, alloc: Global, span: Span) -> Result<PieceList, NoMemory> {
        let mut list = PieceList::new(alloc);
        list.reserve(1)?;
        list.push(Piece {
            child: 0,
            span: Span {
                offset: self.start + span.offset,
                len: span.len,
            },
            at: 0,
        });
        Ok(list)
    }

    ghost pieces_follow = { window-follow };

    ghost pieces_are_placed = { window-placed };
}

//! Lists of pieces.
ghost use Rattle.std.specs.Prelude.{◌≡◌, ◌+◌, ◌-◌, ◌≤◌, ◌^◌, ◌<◌, [], ◌∷◌, ◌++◌, IsOk, OnOk};
ghost use Rattle.std.specs.Option.{option_to_list};
ghost use Rattle.geo_model.specs.Place.{piece_in};

use geo_base::NoMemory;
use geo_model::{Piece, Span, Stretch};
use smallvec::SmallVec;
use std::alloc::Global;
use std::marker::Model;

/// Pieces, and the room for more. Most requests have one piece, which takes no memory. Contracts see the list of the
/// pieces and how many more have room.
#[derive(Debug, Drop)]
pub struct PieceList {
    pieces: SmallVec<Piece, 1>,
}

impl Model for PieceList {
    ghost use Rattle.std.specs.Prelude.{◌-◌, ◌≤◌, length};
    ghost use Rattle.geo_class.specs.PieceList.{PieceListView};

    ghost Value = { PieceListView };

    ghost view = { λ list. record { items = list.pieces.items; spare = list.pieces.capacity - length list.pieces.items } };

    ghost invariant = { λ list. length list.pieces.items ≤ list.pieces.capacity };
}

impl PieceList {
    /// No piece, and room for one. It takes no memory yet.
    pub fn new(alloc: Global) -> PieceList
        ensures { result ≡ record { items = []; spare = 1 } }
    {
        PieceList {
            pieces: SmallVec::new(alloc),
        }
    }

    /// Makes room for `count` pieces, so that as many pushes take no memory. The pieces stay, and the room is no less
    /// than it was, also where memory is wanting.
    pub fn reserve(&mut self, count: u64) -> Result<(), NoMemory>
        ensures pieces_stay { self.new.items ≡ self.old.items }
        ensures room_stays { self.old.spare ≤ self.new.spare }
        ensures room { OnOk result (count ≤ self.new.spare) }
        ensures had_room { count ≤ self.old.spare → IsOk result }
    {
        self.pieces.reserve(count as usize)?;
        Ok(())
    }

    /// Adds a piece at the end, in the room that was reserved. It takes no memory.
    pub fn push(&mut self, piece: Piece)
        requires { 1 ≤ self.old.spare }
        ensures { self.new ≡ record { items = self.old.items ++ piece ∷ []; spare = self.old.spare - 1 } }
    {
        self.pieces.push_reserved(piece);
    }

    /// Adds the part of a range that lies in a stretch, if there is any, in the room that was reserved.
    pub fn push_part(&mut self, span: Span, stretch: Stretch)
        requires room { 1 ≤ self.old.spare }
        requires range_fits { span.offset + span.len < 2 ^ 64 }
        requires stretch_fits { stretch.start + stretch.len < 2 ^ 64 }
        requires offset_fits { stretch.offset + stretch.len < 2 ^ 64 }
        ensures items { self.new.items ≡ self.old.items ++ option_to_list (piece_in span.offset span.len stretch) }
        ensures spare { self.old.spare ≤ self.new.spare + 1 }
    {
        let from = span.offset.max(stretch.start);
        let to = (span.offset + span.len).min(stretch.start + stretch.len);
        if from < to {
            self.push(Piece {
                child: stretch.component,
                span: Span {
                    offset: stretch.offset + (from - stretch.start),
                    len: to - from,
                },
                at: from - span.offset,
            });
        }
    }

    /// The pieces, in order.
    pub fn items(&self) -> &[Piece]
        ensures { result.now ≡ self.now.items }
    {
        self.pieces.as_slice()
    }
}

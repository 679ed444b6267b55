//! A seat's token.
ghost use Rattle.std.specs.Prelude.{◌≡◌, [], ◌∷◌, false, length};
ghost use Rattle.geo_lock.specs.View.{a_view};
ghost use Rattle.geo_lock.specs.Pass.{claim_of, IsGood};

use crate::logged::Logged;
use crate::view::View;
use atomic_table::Seat;
use std::marker::Model;

/// What one caller of a yard has seen of its log, and the entries that are its own.
///
/// Contracts see the yard, the start of its state, the pass's number, what it has seen, which is a
/// prefix of the log, its own entries, and for the pass 0 how many passes were made so far. At each
/// moment its own entries are the entries of what it has seen that have its number, in order, and what
/// it has seen is lawful from its start.
pub struct Pass<L: Logged> {
    pub(crate) number: u32,
    pub(crate) made: u32,
    // The length of what was seen of the log.
    pub(crate) len: u64,
    pub(crate) seat: Seat<Option<L>, View<L::Start, L::Entry>>,
}

impl<L: Logged> Model for Pass<L> {
    ghost use Rattle.std.specs.Prelude.{◌≡◌, [], length};
    ghost use Rattle.geo_lock.specs.Pass.{PassView, own_of, IsSound};

    ghost Value = { PassView L.Start L.Entry };

    ghost view = { λ p. record {
      yard = p.seat.table_id;
      start = p.seat.me.0.start;
      number = p.number;
      seen =
          p.seat.me.0.seen;
      own = own_of p.seat.me.0.claims;
      made = p.made;
    } };

    ghost invariant = { λ p. ((b : L.Start) × IsSound L.lawful L.seat_of b p.number p.made p.seat.me)
        × (p.len ≡ length p.seat.me.0.seen) };
}

impl<L: Logged> Pass<L> {
    /// The number of the pass, which is the seat of its entries. The pass is good at any moment,
    /// between calls too.
    pub fn number(&self) -> u32
        ensures number { result ≡ self.now.number }
        ensures good { IsGood L.lawful L.seat_of self.now }
    {
        self.number
    }

    /// How many entries of the log the pass has seen.
    pub fn len(&self) -> u64
        ensures { result ≡ length self.now.seen }
    {
        self.len
    }

    pub(crate) fn into_seat(self) -> Seat<Option<L>, View<L::Start, L::Entry>>
        ensures yard { result.table_id ≡ self.yard }
        ensures rests { result.me ≡ (a_view self.start self.seen (claim_of self ∷ []) self.made false, []) }
    {
        let Self {
            number: _,
            made: _,
            len: _,
            seat,
        } = self;
        seat
    }
}

impl<L: Logged> Drop for Pass<L> {
    fn drop(self) {
        let Self {
            number: _,
            made: _,
            len: _,
            seat: _,
        } = self;
    }
}

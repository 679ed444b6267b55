//! The rule of the lock, and the kinds of step that keep it.
use crate::logged::Logged;
use crate::view::View;
use atomic_table::{Join, Play, Split, TableRule};
use std::marker::PhantomData;
use std::snapshot::Snapshot;

/// The rule of a lock over L. It holds between any two steps of any threads.
pub struct Turns<L> {
    state: PhantomData<L>,
}

impl<L: Logged> TableRule<Option<L>, View<L::Start, L::Entry>, Snapshot<L>> for Turns<L> {
    ghost use Rattle.geo_lock.specs.Turns.{IsKept};
    ghost use Rattle.geo_lock.specs.View.{opening_view};

    ghost holds = { λ k. IsKept L.start L.log L.lawful L.seat_of (L.start k.value) };

    ghost first = { λ k. opening_view (L.start k.value) };
}

/// A pass takes the turn, and the state with it, where the word is still as it was found.
pub struct TakeTurn<L> {
    state: PhantomData<L>,
}

impl<L: Logged> Play<Option<L>, View<L::Start, L::Entry>> for TakeTurn<L> {
    ghost use Rattle.geo_lock.specs.Turns.{TakesTurn};

    ghost then = { TakesTurn L.start L.log L.lawful L.seat_of };
}

/// A pass gives the turn up, and the state goes home with it.
pub struct GiveTurn<L> {
    state: PhantomData<L>,
}

impl<L: Logged> Play<Option<L>, View<L::Start, L::Entry>> for GiveTurn<L> {
    ghost use Rattle.geo_lock.specs.Turns.{GivesTurn};

    ghost then = { GivesTurn L.log L.seat_of };
}

/// A new pass is split from the pass 0.
pub struct Another;

impl<B, E> Split<View<B, E>> for Another {
    ghost use Rattle.geo_lock.specs.View.{one_more, newcomer};

    ghost left = { one_more };

    ghost right = { newcomer };
}

/// A pass that ends is joined to the pass 0, which keeps its claim.
pub struct Ended;

impl<B, E> Join<View<B, E>> for Ended {
    ghost use Rattle.geo_lock.specs.View.{together, nobody};

    ghost both = { together };

    ghost spent = { nobody };
}

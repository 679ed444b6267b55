//! Passes in a row.
ghost use Rattle.std.specs.Prelude.{◌≡◌, ◌+◌, ◌<◌, ◌≤◌, [], ◌∷◌, ◌++◌, OnOk, IsOk};

use crate::logged::Logged;
use crate::pass::Pass;
use std::alloc::{AllocError, Global};
use std::marker::Model;

/// A list of passes, seen as its items and how many more can be pushed.
#[derive(Drop)]
pub struct PassList<L: Logged> {
    passes: Vec<Pass<L>>,
}

impl<L: Logged> Model for PassList<L> {
    ghost use Rattle.std.specs.Prelude.{◌-◌, vec_len, vec_capacity};
    ghost use Rattle.geo_lock.specs.PassList.{PassListView};

    ghost Value = { PassListView L.Start L.Entry };

    ghost view = { λ l. record { items = l.passes.items; spare = vec_capacity l.passes - vec_len l.passes } };
}

impl<L: Logged> PassList<L> {
    /// No pass. It takes memory in `reserve` alone.
    pub fn new(alloc: Global) -> PassList<L>
        ensures { result.items ≡ [] }
    {
        PassList {
            passes: Vec::new(alloc),
        }
    }

    /// Makes room for `count` more passes. Nothing else changes, and no room is lost where memory is wanting.
    pub fn reserve(&mut self, count: u64) -> Result<(), AllocError>
        ensures items { self.new.items ≡ self.old.items }
        ensures spare { OnOk result (count ≤ self.new.spare) }
        ensures kept { self.old.spare ≤ self.new.spare }
        ensures enough { count ≤ self.old.spare → IsOk result }
    {
        self.passes.reserve(count as usize)
    }

    /// Puts the pass at the end, in room that was reserved.
    pub fn push(&mut self, pass: Pass<L>)
        requires { 0 < self.old.spare }
        ensures items { self.new.items ≡ self.old.items ++ pass ∷ [] }
        ensures spare { self.old.spare ≤ self.new.spare + 1 }
    {
        let Ok(()) = self.passes.push(pass) else {
            unreachable!()
        };
    }

    pub(crate) fn into_passes(self) -> Vec<Pass<L>>
        ensures { result.items ≡ self.items }
    {
        let Self { passes } = self;
        passes
    }
}

//! Where the pieces of a request go.
ghost use Rattle.std.specs.Prelude.{◌≡◌, ◌-◌, ◌≤◌, [], ◌∷◌, ◌++◌, IsOk, OnOk};

use geo_base::{ConsId, NoMemory, ProvId};
use smallvec::SmallVec;
use std::alloc::Global;
use std::marker::Model;

/// For each piece of a request the consumer through which it goes down and the provider to which, and the room for
/// more. One pair takes no memory. Contracts see the list of the pairs and how many more have room.
#[derive(Debug, Drop)]
pub struct Targets {
    pairs: SmallVec<(ConsId, ProvId), 1>,
}

impl Model for Targets {
    ghost use Rattle.std.specs.Prelude.{◌-◌, ◌≤◌, length};
    ghost use Rattle.geo_bio.specs.Targets.{TargetsView};

    ghost Value = { TargetsView };

    ghost view = { λ list. record { items = list.pairs.items; spare = list.pairs.capacity - length list.pairs.items } };

    ghost invariant = { λ list. length list.pairs.items ≤ list.pairs.capacity };
}

impl Targets {
    /// No target, and room for one. It takes no memory yet.
    pub fn new(alloc: Global) -> Targets
        ensures { result ≡ record { items = []; spare = 1 } }
    {
        Targets {
            pairs: SmallVec::new(alloc),
        }
    }

    /// Makes room for `count` targets, so that as many pushes take no memory. The targets stay, and the room is no
    /// less than it was, also where memory is wanting.
    pub fn reserve(&mut self, count: u64) -> Result<(), NoMemory>
        ensures targets_stay { self.new.items ≡ self.old.items }
        ensures room_stays { self.old.spare ≤ self.new.spare }
        ensures room { OnOk result (count ≤ self.new.spare) }
        ensures had_room { count ≤ self.old.spare → IsOk result }
    {
        self.pairs.reserve(count as usize)?;
        Ok(())
    }

    /// Adds a target at the end, in the room that was reserved. It takes no memory.
    pub fn push(&mut self, target: (ConsId, ProvId))
        requires { 1 ≤ self.old.spare }
        ensures { self.new ≡ record { items = self.old.items ++ target ∷ []; spare = self.old.spare - 1 } }
    {
        self.pairs.push_reserved(target);
    }

    /// The targets, in order.
    pub fn items(&self) -> &[(ConsId, ProvId)]
        ensures { result.now ≡ self.now.items }
    {
        self.pairs.as_slice()
    }
}

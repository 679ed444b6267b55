//! What waits for a disk.
ghost use Rattle.std.specs.Prelude.{◌≡◌, [], ◌∷◌, ◌++◌, IfOk, IsTrue, OnErr, OnOk};
ghost use Rattle.std.specs.Option.{option_map};
ghost use Rattle.geo_headline.specs.Sweep.{candidates, next_of};
ghost use Rattle.geo_elev.specs.Lists.{are_below, one_at, taken_if};

use crate::lists::{Lists, Place, are_below, clear, next, none, put, take, turn};
use geo_base::{BioId, NoMemory};
use std::alloc::Global;
use std::marker::Model;

/// What waits for a disk. Contracts see it in order of the bios' numbers. A bio is put in, and the next one taken out,
/// by the logarithm of how many wait. What is next is found at once, if the queue was told where the head stands before
/// anything waited.
#[derive(Drop)]
pub struct Queue {
    lists: Lists,
}

impl Model for Queue {
    ghost use Rattle.std.specs.Prelude.{List};
    ghost use Rattle.geo_headline.specs.Sweep.{Waiting};
    ghost use Rattle.geo_elev.specs.Lists.{AreLists, all_waiting};

    ghost Value = { List Waiting };

    ghost view = { λ q. all_waiting q.lists.front q.lists.flush q.lists.later.items };

    ghost invariant = { λ q. AreLists q.lists.front q.lists.flush q.lists.later.items q.lists.last };
}

impl Queue {
    /// Nothing waits.
    pub fn new(alloc: Global) -> Queue
        ensures { result ≡ [] }
    {
        Queue { lists: none(alloc) }
    }

    /// Whether all that waits has smaller numbers.
    pub fn is_below(&self, bio: BioId) -> bool
        ensures { result ≡ are_below bio self.now }
    {
        are_below(&self.lists, bio.number())
    }

    /// Puts in a bio with a greater number than all. On `NoMemory` nothing is left.
    pub fn put(&mut self, bio: BioId, place: Place) -> Result<(), NoMemory>
        requires { IsTrue (are_below bio self.old) }
        ensures put { OnOk result (self.new ≡ self.old ++ one_at bio place ∷ []) }
        ensures lost { OnErr result (self.new ≡ []) }
    {
        put(&mut self.lists, bio.number(), place)
    }

    /// Takes out the bio that is next, if it is this one, whose place begins at a sector, and true; else false, and all
    /// stays. The head goes to that sector, but for a FLUSH. On `NoMemory` nothing is left.
    pub fn take(&mut self, bio: BioId, first: u64) -> Result<bool, NoMemory>
        ensures taken { IfOk result (λ b. self.new ≡ taken_if b bio self.old) }
        ensures lost { OnErr result (self.new ≡ []) }
    {
        take(&mut self.lists, bio.number(), first)
    }

    /// The head stands at a sector. It is noted where nothing may be taken next.
    pub fn turn(&mut self, head: u64)
        ensures { self.new ≡ self.old }
    {
        turn(&mut self.lists, head);
    }

    /// Takes out all, and the head stands at sector 0.
    pub fn clear(&mut self)
        ensures { self.new ≡ [] }
    {
        clear(&mut self.lists);
    }

    /// The bio that the disk takes next, with its head at a sector: a FLUSH that stands in front; else, of what stands
    /// before the first FLUSH and isn't behind the head, the one with the smallest first sector, or where all are
    /// behind it, of all; of several the one with the smallest number.
    pub fn next(&self, head: u64) -> Option<BioId>
        ensures { result ≡ option_map (λ x. x.bio) (next_of head (candidates self.now)) }
    {
        match next(&self.lists, head) {
            Some(bio) => Some(BioId::new(bio)),
            None => None,
        }
    }
}

//! Numbers of which some carry a mark, found without a walk over the others.
ghost use Rattle.std.specs.Prelude.{◌≡◌, ◌≤◌, ◌+◌, ◌-◌, [], ◌∷◌, ◌++◌, false, IsOk, OnOk, IfOk, IsSome};
ghost use Rattle.geo_slots.specs.Slots.{value_at, with_value, without};
ghost use Rattle.geo_mesh.specs.Marks.{no_marks, first_marked};

use geo_base::NoMemory;
use geo_family::Family;
use std::alloc::Global;
use std::marker::Model;

/// Numbers that count from 1 and aren't used again, of which some carry a mark. Those that do are the children of one
/// parent.
#[derive(Drop)]
pub struct Marks {
    family: Family,
}

impl Model for Marks {
    ghost use Rattle.geo_mesh.specs.Marks.{MarksView};

    ghost Value = { MarksView };

    ghost use Rattle.geo_mesh.specs.Marks.{marks_of, IsMarks};

    ghost view = { λ m. marks_of m.family };

    ghost invariant = { λ m. IsMarks m.family };
}

// The parent of the numbers that carry a mark.
const MARKED: u64 = 1;

impl Marks {
    /// No number.
    pub fn new(alloc: Global) -> Result<Marks, NoMemory>
        ensures { IfOk result (λ m. m ≡ no_marks m.room) }
    {
        let mut family = Family::new(alloc);
        family.reserve(1, 0)?;
        family.add_parent();
        Ok(Marks { family })
    }

    /// Keeps room for so many numbers. Where memory is wanting all stays, and the room is no less.
    pub fn reserve(&mut self, count: u64) -> Result<(), NoMemory>
        ensures same { self.new ≡ record self.old { room = self.new.room } }
        ensures room { OnOk result (count ≤ self.new.room) }
        ensures room_stays { self.old.room ≤ self.new.room }
        ensures had_room { count ≤ self.old.room → IsOk result }
    {
        self.family.reserve(0, count)?;
        Ok(())
    }

    /// The next number, without a mark.
    pub fn add(&mut self)
        requires { 1 ≤ self.old.room }
        ensures { self.new ≡ record {
          rows = self.old.rows ++ (self.old.next, false) ∷ [];
          next = self.old.next + 1;
          room = self.old.room - 1;
        } }
    {
        self.family.add_child();
    }

    /// Takes a number away.
    pub fn remove(&mut self, number: u64)
        ensures { self.new ≡ record self.old { rows = without self.old.rows number } }
    {
        self.family.remove_child(number);
    }

    /// Gives the number a mark, or takes it away.
    pub fn set(&mut self, number: u64, marked: bool)
        requires { IsSome (value_at self.old.rows number) }
        ensures { self.new ≡ record self.old { rows = with_value self.old.rows number marked } }
    {
        self.family.unlink(number);
        if marked {
            self.family.link(number, MARKED);
        }
    }

    /// The least number with a mark that isn't below a number.
    pub fn first_from(&self, number: u64) -> Option<u64>
        ensures { result ≡ first_marked self.now.rows number }
    {
        self.family.first_from(MARKED, number)
    }
}

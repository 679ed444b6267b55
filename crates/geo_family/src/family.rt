//! Children with parents.
ghost use Rattle.std.specs.Prelude.{◌≡◌, ◌≤◌, ◌+◌, ◌-◌, ◌==◌, [], ◌∷◌, ◌++◌, true, false, not, filter, Some, None, IsOk, OnOk};
ghost use Rattle.geo_slots.specs.Slots.{IsRising, value_at, with_value, without};
ghost use Rattle.geo_family.specs.Family.{is_parent, has_child, first_child, last_child};

use crate::links;
use geo_slots::Slots;
use std::alloc::{AllocError, Global};
use std::marker::Model;

/// Want of memory.
pub type NoMemory = AllocError;

/// The neighbours of a child among the children of its parent.
#[derive(Clone, Copy)]
pub struct Link {
    pub parent: Option<u64>,
    pub before: Option<u64>,
    pub after: Option<u64>,
}

/// The first and the last child of a parent.
#[derive(Clone, Copy)]
pub struct Ends {
    pub first: Option<u64>,
    pub last: Option<u64>,
}

const NO_LINK: Link = Link {
    parent: None,
    before: None,
    after: None,
};

const NO_ENDS: Ends = Ends {
    first: None,
    last: None,
};

/// Parents and children under numbers that count from 1 and aren't used again; a child has at most one parent, under
/// which its siblings stand in rising order.
///
/// Contracts see the parents, the children with their parents, the next numbers and the room.
#[derive(Drop)]
pub struct Family {
    links: Slots<Link>,
    ends: Slots<Ends>,
}

impl Model for Family {
    ghost use Rattle.std.specs.Prelude.{map};
    ghost use Rattle.geo_family.specs.Family.{FamilyView};
    ghost use Rattle.geo_family.specs.Links.{IsOrderly, child_rows};

    ghost Value = { FamilyView };

    ghost view = { λ t. record {
      parents = map (λ row. row.0) t.ends.rows;
      children = child_rows t.links.rows;
      next_parent = t.ends.next;
      next_child = t.links.next;
      parent_room = t.ends.spare;
      child_room = t.links.spare;
    } };

    ghost invariant = { λ t. IsOrderly t.links.rows t.links.next t.ends.rows };
}

impl Family {
    /// No parent and no child. It takes no memory yet.
    pub fn new(alloc: Global) -> Family
        ensures { result ≡ record {
          parents = [];
          children = [];
          next_parent = 1;
          next_child = 1;
          parent_room = 0;
          child_room = 0;
        } }
    {
        Family {
            links: Slots::new(alloc),
            ends: Slots::new(alloc),
        }
    }

    /// Keeps room for parents and children, so that as many take no memory. Where memory is wanting all stays, and the
    /// room is no less than it was.
    pub fn reserve(&mut self, parents: u64, children: u64) -> Result<(), NoMemory>
        ensures same { self.new ≡ record self.old {
          parent_room = self.new.parent_room;
          child_room =
              self.new.child_room;
        } }
        ensures parents { OnOk result (parents ≤ self.new.parent_room) }
        ensures children { OnOk result (children ≤ self.new.child_room) }
        ensures parents_stay { self.old.parent_room ≤ self.new.parent_room }
        ensures children_stay { self.old.child_room ≤ self.new.child_room }
        ensures had_room { parents ≤ self.old.parent_room → children ≤ self.old.child_room → IsOk result }
    {
        self.ends.reserve(parents)?;
        self.links.reserve(children)?;
        Ok(())
    }

    /// A new parent, of the next number. It takes no memory.
    pub fn add_parent(&mut self) -> u64
        requires { 1 ≤ self.old.parent_room }
        ensures number { result ≡ self.old.next_parent }
        ensures added { self.new ≡ record self.old {
          parents = self.old.parents ++ self.old.next_parent ∷ [];
          next_parent = self.old.next_parent + 1;
          parent_room = self.old.parent_room - 1;
        } }
    {
        self.ends.insert(NO_ENDS)
    }

    /// A new child, of the next number, without a parent. It takes no memory.
    pub fn add_child(&mut self) -> u64
        requires { 1 ≤ self.old.child_room }
        ensures number { result ≡ self.old.next_child }
        ensures added { self.new
            ≡ record self.old {
              children = self.old.children ++ (self.old.next_child, None) ∷ [];
              next_child =
                  self.old.next_child + 1;
              child_room = self.old.child_room - 1;
            } }
        ensures rising { IsRising 1 self.old.children self.old.next_child }
    {
        self.links.insert(NO_LINK)
    }

    /// A new child of a parent, of the next number. It takes no memory.
    pub fn add_child_of(&mut self, parent: u64) -> u64
        requires room { 1 ≤ self.old.child_room }
        requires parent { is_parent self.old.parents parent ≡ true }
        ensures number { result ≡ self.old.next_child }
        ensures added { self.new
            ≡ record self.old {
              children = self.old.children ++ (self.old.next_child, Some parent) ∷ [];
              next_child = self.old.next_child + 1;
              child_room = self.old.child_room - 1;
            } }
    {
        let child = self.add_child();
        self.link(child, parent);
        child
    }

    /// Takes away a parent that has no child.
    pub fn remove_parent(&mut self, parent: u64)
        requires { has_child self.old.children parent ≡ false }
        ensures { self.new ≡ record self.old { parents = filter (λ n. not (n == parent)) self.old.parents } }
    {
        let _ = self.ends.remove(parent);
    }

    /// Takes a child away, off its parent too.
    pub fn remove_child(&mut self, child: u64)
        ensures { self.new ≡ record self.old { children = without self.old.children child } }
    {
        self.unlink(child);
        let _ = self.links.remove(child);
    }

    /// Puts a child that has no parent under a parent.
    pub fn link(&mut self, child: u64, parent: u64)
        requires free { value_at self.old.children child ≡ Some None }
        requires parent { is_parent self.old.parents parent ≡ true }
        ensures { self.new ≡ record self.old { children = with_value self.old.children child (Some parent) } }
    {
        let before = links::last_below(&self.links, &self.ends, parent, child);
        let after = links::behind(&self.links, &self.ends, before, parent);
        links::set_after(&mut self.links, before, Some(child));
        links::set_before(&mut self.links, after, Some(child));
        links::set_first(&mut self.ends, before, parent, Some(child));
        links::set_last(&mut self.ends, after, parent, Some(child));
        links::set_link(
            &mut self.links,
            child,
            Link {
                parent: Some(parent),
                before,
                after,
            },
        );
    }

    /// Takes a child off its parent, if it has one.
    pub fn unlink(&mut self, child: u64)
        ensures { self.new ≡ record self.old { children = with_value self.old.children child None } }
    {
        let Some(parent) = links::parent_at(&self.links, child) else {
            return;
        };
        let before = links::before_at(&self.links, child);
        let after = links::after_at(&self.links, child);
        links::set_after(&mut self.links, before, after);
        links::set_before(&mut self.links, after, before);
        links::set_first(&mut self.ends, before, parent, after);
        links::set_last(&mut self.ends, after, parent, before);
        links::set_link(&mut self.links, child, NO_LINK);
    }

    /// The least child of a parent that isn't below a number, `None` exactly where there is none.
    pub fn first_from(&self, parent: u64, number: u64) -> Option<u64>
        ensures { result ≡ first_child self.now.children parent number }
    {
        links::first_from(&self.links, &self.ends, parent, number)
    }

    /// The greatest child of a parent, `None` exactly where it has none.
    pub fn last(&self, parent: u64) -> Option<u64>
        ensures { result ≡ last_child self.now.children parent }
    {
        links::last(&self.links, &self.ends, parent)
    }
}

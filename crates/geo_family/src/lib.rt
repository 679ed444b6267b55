//! Children with parents: which children a parent has, in rising order, found without a walk over those of others. So
//! a geom finds its consumers and its providers, and a provider who is attached to it (geom(4)).
//!
//! Contracts see a [`Family`] as its parents, its children with their parents in rising order, the next numbers and
//! the room (`FamilyView`). At run time siblings are linked.
//!
//! [`Family::first_from`] is the first child of a parent from a number on, and [`Family::last`] its last child.
//! Adding into kept room ([`Family::add_child_of`]), [`Family::link`], [`Family::unlink`] and removing take no memory
//! and change exactly the named child. That a walk goes over siblings alone is how it works; no clause says it.
//!
//! Why so: siblings are linked in tables, since std's ordered maps have no room that can be reserved. A child finds its
//! place from both ends at once, and from the number in front of its own, since marks come and go in the middle.
//!
//! Only tested, in geo_tests_low: that there is memory, and a family at work. geo_names, geo_mesh and geo_handles use
//! it. Read `specs/Family.antt` first.
#![tactic(auto)]

mod family;
mod links;

pub use family::{Family, NoMemory};

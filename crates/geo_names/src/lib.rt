//! Numbers that have names, found by their names: so the mesh finds a geom or a provider (geom(4)).
//!
//! Contracts see [`Names`] as rows, each a number with its name, in rising order, beside the next number and the room
//! (`NamesView`). Many numbers may have one name.
//!
//! [`Names::first_from`] is the least number of a name from a number on, and [`Names::last`] the greatest one, over
//! any adds and removals. [`Names::add`] takes no memory in room that was kept.
//!
//! geo_mesh finds its providers and its geoms by it. Tests stand in geo_tests_mesh. Read `src/names.rt` first.
#![tactic(auto)]

mod key;
mod names;

pub use key::Key;
pub use names::Names;

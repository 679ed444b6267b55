//! Handles of actors: what each `open` gave, found by number, by actor and name, and by consumer (g_access(9)).
//!
//! Contracts see [`Handles`] as the model's list of handles, the next number, a note for each number whether its
//! handle can be reaped, and the room (`HandlesView`).
//!
//! [`Handles::get`], [`Handles::by_name`] and [`Handles::of_consumer`] find exactly the handle that the model finds,
//! and no other handle has the consumer (`alone`). None walks over the others; no clause says that. [`Handles::open`]
//! puts one behind the others; [`Handles::kill`], [`Handles::release`] and [`Handles::remove`] are the model's
//! changes ([`laws::handles_are_of_world`]). [`Handles::first_ready`] is the first number that is noted: where just
//! those that can be reaped are noted ([`laws::notes_follow`]), the model's next to reap. Only [`Handles::reserve`]
//! takes memory, and after want of it nothing changed.
//!
//! Only tested: that there is memory, and two actors' handles, notes and want of room (geo_tests_bios,
//! geo_tests_state). geo_state keeps them; geo_moves looks them up. Read `src/handles.rt` first.
#![tactic(auto)]

mod handles;
mod key;
pub mod laws;
mod parts;
mod records;

pub use handles::Handles;
pub use records::HandleRec;

//! The topology lock: one state with a log, shared by threads that take turns at its steps.
//!
//! A [`Yard`] holds any [`Logged`] state. Each thread has a [`Pass`], which names its seat and remembers the log as
//! it last saw it. The state is never handed out: [`Yard::apply`] makes one step of it under the lock, and
//! [`Yard::close`] gives it back once every pass has come home.
//!
//! Contracts see a [`Yard`] as which one it is and the start of its state. A [`Pass`] is seen as its yard, its
//! number, what it has seen of the log, its own entries, and how many passes were made of it (`PassView`).
//!
//! After [`Yard::apply`] what the pass had seen is a prefix of what it has seen now (`longer`). On Ok that ends with
//! its entry, and its own entries gained just this one (`made`). A refusal is the state's, at exactly what the pass
//! has seen (`refused`). What it has seen is lawful from its start (`good`). [`Yard::close`] gives the state with the
//! whole log, of which each pass's entries are those of its number (`ok`); it is never refused (`sure`). Each entry
//! has the number of a pass, so it is one of that pass's own ([`each_entry_is_own`]).
//!
//! [`Tally`] is the smallest such state, for tests; geo_core's mesh is the real one. geo_tests_threads has two
//! threads on one yard, of a sum and of a mesh. geo_jobs makes steps by it, and opens and closes the yard. Read `src/yard.rt`
//! first; docs/ARCHITECTURE.md tells the rule (`IsKept`).
//!
//! Why so: that a state is lawful is a condition of [`Yard::create`] and kept from there, since a law over each value
//! of a type can't use the type's invariant. Closing and splitting take no memory (`sure`); their answers for want of
//! it stay for a form that takes some.
//!
//! Nothing is promised of progress, fairness or time.
#![tactic(auto)]

mod claim;
mod logged;
mod pass;
mod pass_list;
mod tally;
mod turns;
mod view;
mod whole;
mod yard;

pub use logged::Logged;
pub use pass::Pass;
pub use pass_list::PassList;
pub use tally::{Added, Tally, TallyRefusal};
pub use whole::each_entry_is_own;
pub use yard::{CloseFault, CreateFault, Yard};

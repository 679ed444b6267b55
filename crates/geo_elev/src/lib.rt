//! The elevator order (geom(4)): the step that is due in it, and the mesh driven to rest by it. What waits for each
//! disk and where its head stands is kept beside a mesh, so that the next Take is found without a walk over all
//! requests.
//!
//! Contracts see a [`Queue`] as the list of what waits for a disk, in order of numbers. They see [`Heads`] as a head
//! and a queue for each disk, and how much of the log was noted. [`Queue::put`] adds one behind all, [`Queue::take`]
//! takes out the one that is next, and tells where it isn't. [`Queue::next`] is the next one of the elevator order for
//! a head. Two heaps hold what may be taken next: of what lies ahead of the head, and of what lies behind it. So the
//! next one is at the top of a heap, while the queue is told by [`Queue::turn`] where the head stands before anything
//! waits; else it is looked for among all. No clause says how long either takes.
//!
//! After [`Heads::note`] the heads are those of the mesh (`noted`: `AreHeads`): each head is where the log left it,
//! and each queue is what waits in the mesh's world. `note` follows the log entry by entry where requests come in
//! order of their numbers, each is noted before the next one comes, and each disk takes the one that is next. Else it
//! gathers all anew, by the log and one walk over the requests. No clause says which it does. After `NoMemory`
//! nothing is known, as with an empty log (`forgot`). [`Heads::next_take`] is the Take of the first disk in header
//! order for which something waits, the next one there by the elevator order (`next`).
//!
//! [`pick_sweep`] is the step that is due (`picked`), none exactly at rest. It is enabled and lowers the measure
//! (`falls`). [`sweep_to_rest`] is geo_drain's `run_to_rest` in this order (`sweep_order`), with all that that call
//! says. That the order comes to rest, and passes no FLUSH, are laws of geo_laws_sweep.
//!
//! geo_run calls it for the word `sweep`, and stands on geo_drain by it. Read `src/sweep.rt` and `src/elevator.rt`
//! first.
#![tactic(auto)]

mod disks;
mod elevator;
mod front;
mod gathering;
mod heads;
mod lists;
mod queue;
mod sweep;

pub use disks::DiskHead;
pub use elevator::Heads;
pub use geo_drain::{ApplyRefusal, DrainRefusal, FixedOrder, Mesh, run_to_rest};
pub use lists::Place;
pub use queue::Queue;
pub use sweep::{pick_sweep, sweep_to_rest};

//! The mesh and its steps: what a plan begins, what each step does to it, and the log of all steps (geom(4),
//! g_bio(9), g_event(9)).
//!
//! Contracts see a [`Mesh`] as what it began with (plan, sizes of the disks) and its log (`MeshView`). Its world is
//! the replay of the log from the opening (`world_of`).
//!
//! - [`Mesh::begin`]: the plan's opening, and an empty log.
//! - [`Mesh::apply`]: on Ok it is the model's step and outcome, and the log gained exactly this entry (`answer`:
//!   `Applies`). `NotEnabled` comes exactly where the step isn't enabled, with what was found. `LogFull` comes
//!   exactly where it is, and the log with its entry and the places then owed would pass 2^32. `NoMemory` comes only
//!   else. After each refusal the mesh is as before. A Deliver that is enabled, and a Go of a close that is answered
//!   ok, are never refused (`sure`: `IsSure`). The log is legal, and keeps all that a history does (`history`:
//!   `IsHistory`).
//! - [`Mesh::make`]: the same without the outcome, so that no bytes are copied.
//! - [`Mesh::enabled`], [`Mesh::at_rest`], [`Mesh::listing`]: `is_enabled`, `is_at_rest` and `listing` of the mesh's
//!   world.
//! - [`Mesh::first_up`], [`Mesh::first_down`]: the Up of the smallest bio that is Up, the Start of the smallest that
//!   is Down. [`Mesh::first_to_take`]: where no bio is Busy, the Take of the smallest that can be taken.
//! - [`Mesh::next_bio`]: the bio with the smallest number from a given one on. [`Mesh::sent`]: where a bio goes that
//!   waits for its disk. [`Mesh::room`]: how many bytes a READ of a bio gives, 0 for another command, or if there is
//!   no such bio. [`Mesh::next_line`]: the line of an actor's next command. [`Mesh::actors`]: how many actors there
//!   are.
//! - [`Mesh::plan`], [`Mesh::log`], [`Mesh::into_log`]: what it began with, and the log.
//!
//! It is a state with a log that geo_lock can lock (`Logged`): want of memory aside, what a step is answered is a
//! function of what the mesh began with and the log ([`answers_tell`], [`made_is_answered`]). An enabled Deliver
//! takes no memory ([`delivers_are_sure`]), nor does a close that is answered ok. A pass that is good for the lock is
//! one of the model ([`passes_are_good`]).
//!
//! Why so: a step is decided first, and what its outcome will have is copied or shared ahead of it, since nothing may
//! fail behind it. What is left of an actor's commands is a place in the plan, so none is copied.
//!
//! Tested by lists of steps (geo_tests_program) and by two threads (geo_tests_threads). geo_drain and geo_verify
//! drive it on one thread, geo_jobs under the lock. Read `src/mesh.rt` and `specs/Mesh.antt` first.
#![tactic(auto)]

mod admit;
mod apply;
mod carry;
mod found;
mod left;
mod logged;
mod mesh;
mod owed;
mod refusal;
mod rest;
mod running;
mod sent;
mod twin;

pub use geo_log::{DiskFacts, Log};
pub use geo_moves::Spot;
pub use logged::{MeshStart, answers_tell, delivers_are_sure, made_is_answered, passes_are_good};
pub use mesh::Mesh;
pub use refusal::ApplyRefusal;

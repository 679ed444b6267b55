//! The top call: a script is read, its disks are taken, its mesh goes to rest, and the report is written; or a trace
//! is read, and what is found of it is written.
//!
//! [`run`] is for all words. [`run_alone`] is for words that don't ask for threads, and starts none. Both hold over
//! any source, sink and shelf, by their views, and [`run`] over any gate and any runtime besides. Both have two
//! clauses. `keeps`: there are a mode, a plan and an ending such that the call keeps `KeepsAll`. `complete`:
//! `IsComplete`, which says when a status has to be one of few. docs/PROVED.md tells both clause by clause.
//!
//! [`threads_of`] tells exactly whether the words ask for threads, and by which word. [`without_memory`] writes the
//! line `out of memory`, with its status, or a part of it and 4 where one write failed, the last. [`program`] is all
//! of this for a process that ends with it: its answer is the status of a call that keeps all (`status`).
//!
//! The layers: `src/top.rt` writes what is due, and `src/source_run.rt` reads the source, or makes its text.
//! `src/opened.rt` parses, takes the disks and opens the mesh. `src/alone.rt` or `src/threaded.rt` makes the steps,
//! and `src/script_run.rt` gives the disks back and says what is due. What each layer keeps of the headline stands in
//! `specs/Calls.antt`, `Ends.antt`, `Runners.antt` and `Lending.antt`.
//!
//! Why so: a word that isn't UTF-8 is none of the program's. The log isn't taken apart at the end, since its memory
//! goes with the process. A `ram` disk is made where its line stands among the `disk` lines, so want of memory for it
//! is told in that order.
//!
//! geo_tests_program and `tests/` test it; docs/PROVED.md says what only they show. geomrun calls it. Read
//! `src/top.rt` first.
#![tactic(auto)]

mod alone;
mod due;
mod finish;
mod lent;
mod opened;
mod read;
mod rest;
mod runner;
mod script_run;
mod source_run;
mod stop;
mod threaded;
mod threaded_report;
mod top;
mod verify_run;
mod whole;
mod words;

pub use geo_jobs::{ApplyRefusal, Gate, GatePlace, Mesh, OpenGate};
pub use top::{Ended, run, run_alone, without_memory};
pub use whole::program;
pub use words::{Threaded, threads_of};

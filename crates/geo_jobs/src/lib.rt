//! The jobs of a run in threads (geom(4)): a client for each actor, an event worker, a down worker, an up worker and
//! two disk workers, over a mesh under the topology lock; how they start, what a turn of each does, and how they end.
//! Beside them a view of the mesh that is read without waiting.
//!
//! Passes are seen as geo_lock has them, by what they have seen, and passes of lanes as geo_lane has them.
//!
//! - **One step** (`tried.rt`, `taking.rt`, `putting.rt`): `try_step` makes a step as the seat of a pass. If it is
//!   made, its entry ends what the pass has seen now, and stands behind all that it had seen; else nothing is added,
//!   and the answer is what the definitions find there (`DidTry`). `take` gives the request besides (`DidTake`), and
//!   `deliver` is never refused (`CanDeliver`). `put` puts the next ticket of a pass into its lane, or the lane held
//!   1,024 at a moment of the call, and then the ticket is dropped (`PutsOne`).
//! - **One turn** (`client.rt`, `events.rt`, `down.rt`, `up.rt`, `disk_job.rt`): each tells by its answer what was done
//!   (`DidClient`, `DidEvents`, `DidDown`, `DidUp`, `DidDiskTurn`). A disk worker that worked added just the Take and
//!   the Deliver of one bio, and its drive was asked exactly this request and answered so. The disk is called outside
//!   the lock; no clause says so. A [`Gate`] may hold a job and promises nothing; [`OpenGate`] holds none.
//! - **A job** (`job.rt`, `run.rt`): [`Job::go`] makes turns, and says why it ended (`EndedBy`) and that all which it
//!   added is of its kind (`JobRan`). [`run_jobs`] says this of each of its workers (`WorkerRan`).
//! - **A run** (`threads.rt`, `start.rt`, `deal.rt`, `close.rt`): [`run_threads`] takes a mesh that has made no step,
//!   and gives back the mesh, the drives in header order, and how the jobs ended ([`Left`]), by `ThreadsRan`. The log
//!   is a history, each entry is of a job and of its kind, no bio is Busy, and the drives did what the log says. On
//!   `Err` memory was wanting before the first job, and the drives come back as they were.
//! - **The view** (`publisher.rt`, `watcher.rt`, `keeping.rt`): one publisher shows the mesh as it is printed, and one
//!   watcher looks. A look gives the listing of the world after what some good pass had seen, which begins with all that
//!   this watcher saw before and was told of (`list`, `later`, `moment`). A publisher that learns what the watcher saw
//!   knows that it begins what was shown last (`begins`). So the last look of a run gives the listing after a beginning
//!   of its log (`shows`). A look takes no handle of the runtime, and a publish one for memory alone, so neither can
//!   wait. The view is three slots, and a publish and a look change slots by one swap.
//!
//! Why so: a shown list carries a snapshot of its pass, so a watcher learns from its type of which log it is the
//! listing. A disk worker makes room for the longest READ ahead of its Take, since nothing may fail behind that. A bio
//! whose number fits no ticket gets none.
//!
//! docs/PROVED.md tells each answer, and what no clause says; docs/ARCHITECTURE.md who has which pass, lane and drive.
//! Tests stand in geo_tests_jobs and geo_tests_threads. geo_run calls it for the words `run`, `watch` and `trace`, and
//! then makes what the jobs left. Read `src/threads.rt`, `src/job.rt` and `src/client.rt` in this order.
#![tactic(auto)]

mod client;
mod close;
mod crew;
mod deal;
mod disk_job;
mod disk_laws;
mod down;
mod drive_list;
mod events;
mod gate;
mod job;
mod keeping;
mod known;
mod lanes;
mod left;
mod passes;
mod publisher;
mod putting;
mod role;
mod room;
mod run;
mod shown;
mod start;
mod taking;
mod threads;
mod told;
mod tried;
mod turn;
mod up;
mod view_laws;
mod watch;
mod watcher;

pub use client::ClientJob;
pub use disk_job::DiskJob;
pub use down::DownJob;
pub use drive_list::DriveList;
pub use events::EventJob;
pub use gate::{Gate, GatePlace, OpenGate};
pub use geo_core::{ApplyRefusal, Mesh};
pub use job::{Job, JobParts, Role};
pub use lanes::Lanes;
pub use left::{JobsEnd, Left, Seen};
pub use publisher::{Publisher, view_create};
pub use run::{Worker, run_jobs};
pub use threads::run_threads;
pub use tried::{Tried, try_step};
pub use turn::Turn;
pub use up::UpJob;
pub use watcher::Watcher;

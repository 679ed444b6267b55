//! A session with a client of NBD over a source and a sink, at a live mesh with its disks (nbd-server(1)): the greeting,
//! the handshake, and requests until the client ends it.
//!
//! - [`serve`] is the whole session. What was read and what was written are the bytes of its steps, one behind the other
//!   (`Course`): from the greeting on each step reads what is awaited there, writes what is said for it, and leads to
//!   the next one (`Step`). Bytes of requests are written at one kind of step alone, a turn that says a reply; which
//!   reply that is, geo_connection says (`Gives`, `Goes`, `MeetsAs`).
//! - It is over where the client says so, or where it sends what is no option or no request, or too long. It halts
//!   ([`Halt`], `HaltsAt`) where the client is gone, a read fails, a write fails, or memory is wanting: what was read
//!   and written is a course up to there, and of the step that wasn't made only first bytes.
//! - A request is brought to its end before the next one is read, so replies come in the order of their requests.
//! - [`handle_at`]: each export is open under a handle of the mesh, which has its place as its name.
//! - [`ask_disk`]: a disk of the mesh is asked, and the mesh is given its answer. Only what lies inside the disk, isn't
//!   too long and has its bytes is asked of it; all else is answered as failed.
//!
//! Not said: what a disk answered, and how the mesh was made. Read `specs/Steps.antt`, `specs/Courses.antt` and
//! `src/session.rt` first.
#![tactic(auto)]

mod client;
mod desk;
mod disks;
mod exported;
mod halt;
mod serving;
mod session;
mod streams;
mod talk;

pub use client::{Client, Doing};
pub use desk::{Desk, ask_disk};
pub use exported::{MAX_EXPORTS, handle_at, handle_of};
pub use halt::Halt;
pub use session::serve;
pub use talk::{Chosen, Talk};

//! The requests of a client of NBD (nbd-server(1)): which commands of a mesh are made for each, and its reply as
//! bytes. Nothing here reads or writes a stream, and no mesh stands below.
//!
//! - [`judge`]: by its head a request ends the session, fails with an error, or is a command. A range that is empty,
//!   too long or past the end fails, and so does a kind or a flag that isn't known. [`data_len`] says how many bytes
//!   follow, and None for a write of more than 32 MiB, which ends the session.
//! - [`next_command`]: the next command of a request that is on its way ([`Asked`]): 32,768 bytes at the most, from
//!   where the last one ended.
//! - [`go_on`]: what becomes of it by the mesh's reply. The first refusal ends it with that error. Behind the last
//!   command FUA asks for a flush; then it ends without an error.
//! - [`add_reply`], [`add_failed`]: its reply, simple or structured, with its own cookie and this error. A read has
//!   exactly the bytes that the mesh gave, and as many as were asked for; if they were other than so many, it fails.
//!
//! Each is what one definition says (`specs/Judging.antt`, `specs/Serving.antt`). `NoMemory` comes from calls that
//! take memory, and their answer is lost then.
//!
//! TRIM and WRITE_ZEROES both leave zeros. Read `specs/Serving.antt` and `src/serving.rt` first.
#![tactic(auto)]

mod asked;
mod further;
mod gathered;
mod judging;
mod replies;
mod service;
mod serving;

pub use asked::Asked;
pub use gathered::Gathered;
pub use judging::{Judged, MAX_TRANSFER, data_len, judge};
pub use replies::{add_failed, add_reply};
pub use service::{Begun, Lost, Replied, Service};
pub use serving::{Going, go_on, next_command};

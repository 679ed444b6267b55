//! A client of NBD at a live mesh (nbd-server(1)): what is read of the client next, what is sent, what the mesh is given
//! and which disk is asked. Nothing here reads or writes a stream or a disk.
//!
//! - The handshake: a [`Stage`] says what is read next, and [`awaited`] how many bytes that is. [`hear`] gives what is
//!   sent for them, and the next stage: each is what `specs/Stages.antt` says.
//! - Requests: [`meet`] takes one with its bytes. By its head the session ends, it is replied to at once, or its first
//!   command is to be given to the mesh (`MeetsAs`).
//! - Turns: [`give`] gives the mesh a command, and [`next`] makes the step of the mesh that is due. Either tells what is
//!   to be done then, a [`Turn`]: a command is to be given, bytes are to be sent, or a disk is to be asked, whose answer
//!   the mesh is given by [`TaggedSession::answer`].
//!
//! Each turn is what the mesh said and nothing else (`Gives`, `Goes`): bytes are sent only where the mesh replied under
//! a token, and they are the reply of the request that is out under it, with its own cookie, and with the error or the
//! bytes that the mesh replied. `NoMemory` ends the session: what is lost then isn't said.
//!
//! Read `specs/Turns.antt` and `src/turn.rt` first.
#![tactic(auto)]

mod meeting;
mod stage;
mod turn;

pub use geo_server::{Begun, Service};
pub use geo_tags::TaggedSession;
pub use meeting::{Met, meet};
pub use stage::{Heard, Stage, awaited, hear};
pub use turn::{Turn, give, next};

//! A live mesh whose requests carry a token of their caller: many are on their way at once, and each reply comes back
//! with the token of its request (g_bio(9), blk-mq).
//!
//! A *tag* is the number of a request that waits for its reply: the line of its command in the model, 32 bits, used
//! again once the reply was handed out. A *token* is the caller's own number of 64 bits. Contracts see a
//! [`TaggedSession`] as its live mesh, the token of each tag, and the tag of the next request (`TaggedView`).
//!
//! - [`TaggedSession::begin`]: the live mesh of a plan's header; no tag waits.
//! - [`TaggedSession::submit`]: a command is made, and nothing else. It is replied to at once, or the next tag has its
//!   token (`Submits`). After a refusal all is as before. A close that is answered ok is never refused while there is a
//!   next tag, since it needs no room for a token (`sure`).
//! - [`TaggedSession::next`]: the step that is due in the fixed order is made, and nothing else (`Nexts`): a disk is
//!   asked, a reply is handed out with the token of its tag, which has none then, the mesh moved, or its graph may have
//!   changed, with its generation then: that exactly after a step that the session counts as one of the graph. Idle
//!   exactly where no step is due.
//! - [`TaggedSession::answer`]: what a disk answers is delivered exactly where that is enabled (`Delivers`).
//! - [`TaggedSession::each_waits`]: a line is unanswered once where its tag has a token, and else not at all
//!   (`EachWaits`). So no reply is lost, and none comes twice or with another's token.
//! - [`TaggedSession::session`], [`TaggedSession::waiting`]: the live mesh, and how many tags wait.
//!
//! Tested by requests that are out at once and answered out of order (geo_tests_session). Read `src/tagged.rt`,
//! `specs/Tags.antt` and `specs/Calls.antt` first.
#![tactic(auto)]

mod calls;
mod due;
mod tagged;
mod tokens;

pub use due::Due;
pub use geo_log::DiskFacts;
pub use geo_session::{Session, SessionRefusal};
pub use tagged::TaggedSession;

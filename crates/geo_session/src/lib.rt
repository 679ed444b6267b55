//! A live mesh: its commands are given one at a time, as they come, and it keeps neither a plan nor a log (geom(4),
//! g_bio(9), g_event(9)).
//!
//! Contracts see a [`Session`] as its world, in which no actor has a command left, how many steps it has made, and how
//! many of them were of the graph (`SessionView`). The world is the one for which its state stands over an empty log; a
//! bio holds itself the bytes that it waits to hand up.
//!
//! - [`Session::begin`]: the opening of a plan's header (its disks, its actors), whose commands aren't made.
//! - [`Session::step`]: on Ok it is the model's step and outcome, and one step more is counted (`answer`: `Answers`).
//!   `NotEnabled` comes exactly where the step isn't enabled, with what was found; `NoMemory` only else. After each
//!   refusal the mesh is as before. A Deliver that is enabled is never refused (`sure`). A Go never is enabled.
//! - [`Session::command`]: a command is made at once or refused. It is the model's Go in the world in which its actor
//!   has this command left, and nothing else (`answer`: `Commands`). After a refusal it is gone, so a sync or a settle
//!   that has to wait is given again. A close that is answered ok is never refused (`sure`).
//! - [`Session::history`]: at any moment there is a legal history from an opening to this world, and it keeps all that
//!   histories keep (`HasHistory`): counts are sums of open demands, no writer stands beside another's exclusive
//!   right, a request is answered once and from exactly its sectors, and a geom is let go only closed, detached and
//!   idle. So the world is sound, steady and fitting.
//! - [`Session::enabled`], [`Session::at_rest`], [`Session::listing`]: `is_enabled`, `is_at_rest` and `listing` of the
//!   world.
//! - [`Session::first_up`], [`Session::first_to_take`], [`Session::first_down`]: the Up of the smallest bio that is Up,
//!   the Take of the smallest that can be taken, the Start of the smallest that is Down. One bio of each disk may be
//!   Busy.
//! - [`Session::pick`]: the step that is due in the fixed order, the model's `pick`; none is a Go, since no actor has a
//!   command left ([`Session::no_commands`]).
//! - [`Session::next_bio`]: the bio with the smallest number from a given one on. [`Session::sent`]: where a bio goes
//!   that waits for its disk. [`Session::room`]: how many bytes a READ of a bio gives. [`Session::bios`],
//!   [`Session::handles`], [`Session::actors`], [`Session::steps`]: how many there are.
//! - [`Session::generation`]: how many steps were of the graph (`is_of_graph`), that is, may have changed geoms,
//!   providers, consumers, their counts or handles. It is counted by kind of step: events, judgments, reaps and washes
//!   are of the graph, so are all commands but requests, sync, settle and mesh, and the Up that brings a taste's read
//!   back. That no other step changes the listing no clause says.
//!
//! Laws: [`plans_may_grow`], with one more command at its end a plan opens as before, but that the command's actor has
//! it left too, and each legal log stays legal and leads to the same world but for that. [`histories_go_on`], what is
//! answered ok leads each history of the old world to one of the new, with exactly its entry more, and for a command
//! with the plan that has the command at its end.
//!
//! Tested by scripts whose commands are given one at a time (geo_tests_session). Read `src/session.rt` and
//! `specs/Session.antt` first.
#![tactic(auto)]

ghost use Rattle.geo_session.specs.Growth.{PlansMayGrow};
ghost use Rattle.geo_session.specs.Going.{HistoriesGoOn};

mod found;
mod generation;
mod live;
mod making;
mod opened;
mod picking;
mod refusal;
mod session;
mod takes;

pub use geo_log::DiskFacts;
pub use geo_moves::Spot;
pub use refusal::SessionRefusal;
pub use session::Session;

/// A plan that gets one more command: its opening, and each legal log.
#[tactic(auto, using(crate::proofs::Logs::plans_may_grow))]
pub fn plans_may_grow()
    ensures { PlansMayGrow }
{}

/// What is answered ok leads each history of the mesh before to one of the mesh after, by its entry.
#[tactic(auto, using(crate::proofs::Histories::histories_go_on))]
pub fn histories_go_on()
    ensures { HistoriesGoOn }
{}

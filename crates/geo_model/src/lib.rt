//! The mesh as a model (geom(4)). `src/` has the plain types that code and definitions share: commands, steps,
//! outcomes, entries of the log, events and phases. `specs/` has the definitions that a reader must believe.
//!
//! Definitions compute. `World` is the whole state, `opening` the world of a plan, and `step` the whole behaviour: a
//! step of a seat isn't enabled, or leads to a world with an outcome. `Legal` says which logs are histories. `Sound`,
//! `Steady` and `Fitting` say what holds at each moment. Lists of names and of lines are seen as lists.
//!
//! Of the definitions alone is proved, each in [`laws`]: in a mesh without a loop counts are sums over consumers, and
//! a rank is one more than the highest below ([`laws::counts_are_sums`], [`laws::ranks_are_highest`]). Two logs in a
//! row are one ([`laws::logs_join`]). Pieces of a request follow each other over all of it, and each byte lies where
//! the address map says ([`laws::pieces_are_placed`]). A Deliver, and a close that is answered ok, always have a
//! place in the log ([`laws::owed_places_are_kept`]). The error of a finished request is the first that it met
//! ([`laws::errors_are_first`]). At rest the fixed order gives no step ([`laws::pick_ends_at_rest`]). Records that
//! are written are read ([`laws::records_are_read`]). A Start is the way that the graph tells, and what then becomes
//! of the bios ([`laws::starts_are_in_parts`]).
//!
//! docs/MODEL.md is the guide to all files, and says on which of them the headline doesn't rest. Read `src/step.rt`
//! and `specs/World.antt` first. Nearly all crates stand on it.
#![tactic(auto)]

mod class;
mod command;
pub mod laws;
mod listing;
mod span;
mod step;

pub use class::{
    ConcatRecord, EbrPart, EbrTable, Facts, Judged, LabelRecord, MbrTable, Shape, Slice,
    StripeRecord, Verdict,
};
pub use command::{Cause, Command, DiskDecl, DiskKind, LineCommand, NameList};
pub use geo_base::{
    BioCmd, BioId, Block, ConsId, Counts, DeclineCause, Declined, Errno, GeomId, Kind,
    MAX_COMPONENTS, MAX_LINKS, MAX_MEDIA_BYTES, MAX_RANK, MAX_STRIPE_BYTES, Name, NoMemory, ProvId,
    SharedBytes,
};
pub use listing::{ConsLine, ConsLines, GeomLine, MeshList, ProvLine, ProvLines};
pub use span::{Piece, Span, Stretch};
pub use step::{
    BioResult, DeviceResult, Entry, Event, Found, Outcome, Owner, Phase, Reply, Request, Step,
    WashWork,
};

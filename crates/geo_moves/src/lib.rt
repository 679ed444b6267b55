//! What each step does to the running mesh (geom(4)): commands of lines, requests on their way, events, tastes, washes
//! and reaps.
//!
//! All is said of geo_state's `State`: each call is the model's step, or command, of the world that the state stands
//! for (`made`, `does`), in a firm world, and keeps `Holds` (`kept`). Where memory is wanting the world stays the same
//! (`same`). After each step the places that bios name are in the log, where they were (`logged`), so a mesh may as
//! well keep no log: it steps over the log without entries. What is against a step is told by a call of its own, which
//! changes nothing: `open_refusal`, [`wait_found`], [`start_found`], [`take_found`], [`deliver_found`], [`up_found`],
//! [`event_found`], [`judge_found`], [`wash_found`], [`reap_found`].
//!
//! - **Commands** (`dispatch.rt`, one arm a command): [`do_command`] is the model's command of the line. [`decide`]
//!   tells what refuses an open, and whether a close is answered ok; such a close takes no memory (`no_memory`).
//!   [`places_owed`] is how many places of the log are owed, and [`owed_after`] how many are after a command.
//! - **Handles** (`opens.rt`, `closes.rt`, `reaps.rt`; g_access(9), g_attach(9), g_detach(9)): what refuses an open is
//!   decided before its consumer exists; one that is refused after its provider was found uses up a number. A close
//!   and a [`reap`] take no memory. Each ticks at most one step for each consumer below the provider (`bound`).
//! - **Requests** (`requests.rt`, `starts.rt`, `serve.rt`, `ups.rt`; g_bio(9)): a request through a handle is refused
//!   exactly as the definitions say, in their order, and else becomes one bio. At a [`start`] it goes exactly the way
//!   that the graph tells: back with an error, counted and failed at a NOP, to its disk, or in pieces of which none is
//!   lost. At a [`take`] a seat asks the disk for it. A [`deliver`] takes no memory and is never refused; a READ's
//!   bytes are those of the log's entry that comes. [`deliver_kept`] is a Deliver where no log is kept: the bio holds
//!   its bytes itself. At an [`up`] a child counts in its parent, which goes up with its last one; the root of a line
//!   is the reply to its line, and the read of a taste is handed to the taste.
//! - **Geoms made and ended** (`stands.rt`, `inserts.rt`, `destroys.rt`, `nops.rt`, `assemblies.rt`, `appends.rt`;
//!   disk(9), gnop(8), gconcat(8), gstripe(8), g_wither_geom(9), g_resize_provider(9)): each is refused exactly as the
//!   model has it. A pull and a destroy take no memory. An append ticks at most one step for each consumer below the
//!   provider, and two more (`bound`).
//! - **Steps that no actor asks for** (`events.rt`, `judges.rt`, `washes.rt`; g_event(9)): [`event`] does the head of
//!   the queue, [`judge`] is one step of the taste under way, [`wash`] lets the first part go that can. A judge ticks
//!   at most one step for each consumer below the provider (`bound`); only a taste that begins takes memory.
//! - **What begins** (`begins.rt`): [`opening`] is the state of a plan's opening, disk by disk.
//! - **What is read** (`geoms.rt`, `disk.rt`, `spots.rt`, `waits.rt`): [`listing`] is exactly the model's lines of the
//!   mesh as it is printed, in one pass over the geoms; [`disk_at`], [`disk_of`] and [`sector_at`] tell the disk of a
//!   provider, that of a bio, and the size of its sectors; [`spot_in`] where a bio goes that waits for its disk,
//!   [`bytes_read`] how many bytes it gives, and [`is_unsettled`] whether something is due.
//!
//! Why so: what is decided of a command is decided once and handed on to its step. A judge asks for all its memory
//! first. A close posts into places that the state owes it.
//!
//! There are no tests of its own: geo_tests_program and `tests/` run it. geo_core calls it, and what a live mesh needs
//! of it is there. Read `src/dispatch.rt`, `src/starts.rt` and `src/events.rt` first.
#![tactic(auto)]

mod above;
mod appends;
mod asked;
mod assemblies;
mod begins;
mod below;
mod closes;
mod cut;
mod decisions;
mod destroys;
mod disk;
mod disks;
mod dispatch;
mod events;
mod found;
mod founds;
mod gate;
mod geoms;
mod growths;
mod handle;
mod handles;
mod holders;
mod inserts;
mod joins;
mod judges;
mod makes;
mod mark;
mod marks;
mod names;
mod nops;
mod opens;
mod parts;
mod reads;
mod reaps;
mod refusals;
mod reply;
mod requests;
mod returns;
mod serve;
mod spots;
mod stands;
mod starts;
mod ups;
mod uses;
mod waits;
mod washes;
mod way;
mod withered;

pub use begins::opening;
pub use decisions::{Decision, decide, owed_after, places_owed};
pub use disk::{disk_at, disk_of, sector_at};
pub use dispatch::do_command;
pub use events::event;
pub use found::{deliver_found, start_found, take_found, up_found};
pub use founds::{event_found, judge_found, wash_found};
pub use geoms::listing;
pub use judges::judge;
pub use reaps::{reap, reap_found};
pub use serve::{deliver, deliver_kept, take};
pub use spots::{Spot, bytes_read, spot_in};
pub use stands::stand;
pub use starts::start;
pub use ups::up;
pub use waits::{is_unsettled, wait_found};
pub use washes::wash;

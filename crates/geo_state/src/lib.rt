//! What the mesh is at one moment: all its parts, and what is kept beside them so that nothing has to be searched.
//!
//! [`State`] is a plain struct with open fields. The world that they stand for is `world`, and what holds of them
//! together is `Holds`. It keeps the counts, and how many requests are out through each consumer; which handles can
//! be reaped, and each actor's own requests. Of each disk it keeps the geom and the request at it, and besides the
//! taste's read and how many providers there are. And the queue has a place for each event that may not fail.
//!
//! Requests are submitted, bounced, split and go up ([`submit_line`], [`bounce`], [`split`], [`up`]). Each call keeps
//! `Holds` and changes these parts alone (`OnlyBios`); after want of memory they are as before. So does
//! [`Traffic::send`] by itself. [`Traffic::take`], [`Traffic::deliver`] and [`Traffic::end`] keep it together with
//! [`set_busy`], which notes what is at the disk; by `end` the bio holds a READ's bytes itself, where no log keeps
//! them. [`empty`] is the state before any disk stands. [`reserve_events`] makes
//! room for a step's events, [`reserve_bio`] for one more request. [`own_bio`] is the request for which a sync waits.
//!
//! [`Traffic`] is seen as geo_bio's table is, with its clauses. [`Traffic::first_up`], [`Traffic::first_sent`] and
//! [`Traffic::first_down`] are the first bio of the list in the phase, [`Traffic::busy`] counts the Busy ones and
//! [`Traffic::len`] all. Each reads one field, kept by a cursor for each phase; no clause says so. What the bios are
//! in a world says [`shown_laws`]: what is found among them is the same ([`shown_laws::shown_are_found`]), and each
//! step of the model does there what the calls do in the table ([`shown_laws::world_shows_bios`],
//! [`shown_laws::deliveries_are_shown`]). A Deliver's place is its answer ([`shown_laws::place_is_answer`]), a log
//! that grew shows the same bios ([`shown_laws::grown_log_shows_the_same`]), and each call leaves only places that
//! the log has ([`shown_laws::places_stay_logged`]).
//!
//! [`laws`]: what is kept is what the definitions search for ([`laws::states_show`]). All is kept after opens,
//! refused opens, closes and reaps ([`laws::kept_with_handles`]), after geoms, providers and consumers came or went
//! ([`laws::kept_with_sites`]), and after effects ([`laws::holds_after_effects`]). Grants follow
//! ([`laws::grants_follow`]). The queue owes at most two places for each provider, of which a close gives up as many
//! as it needs ([`laws::places_are_owed`]).
//!
//! Why so: a phase has a cursor and no list of links, which would cost look-ups and a row for each child. A step's
//! events want 128 places more than three a provider, since a chain makes 32 providers at once.
//!
//! Only tested: that there is memory, what is due in a few examples (geo_tests_bios), READs that pass over each
//! other, and a Deliver after more room was refused (geo_tests_state). Else it has no tests of its own:
//! geo_tests_program and `tests/` run it. geo_moves and geo_core work on it. Read `src/state.rt` and
//! `specs/Holds.antt` first.
#![tactic(auto)]

mod bios;
mod cursor;
mod handles;
pub mod laws;
mod oldest;
mod opening;
mod own;
mod seats;
pub mod shown_laws;
mod splits;
mod state;
mod traffic;
mod ups;

pub use bios::{NewBio, bounce, submit_line, submit_read};
pub use geo_bio::{Bio, Held, LogBytes, Risen, Targets};
pub use geo_class::Config;
pub use geo_model::{BioResult, Owner, Phase, Span};
pub use handles::kill;
pub use oldest::own_bio;
pub use opening::{empty, reserve_bio, reserve_events};
pub use seats::{set_busy, set_geom};
pub use splits::split;
pub use state::{DiskSeat, OwnBios, State};
pub use traffic::Traffic;
pub use ups::up;

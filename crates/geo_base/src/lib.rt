//! Plain values that every crate speaks of: errors as in errno(2), classes (geom(4)), commands of requests
//! (g_bio(9)), access counts (g_access(9)), numbers, names and bytes. Beside them the limits of the profile, each
//! stated once.
//!
//! Contracts see a number as itself, and a [`Name`], a [`Block`] and a [`SharedBytes`] as the list of its bytes,
//! whoever else holds them.
//!
//! [`Name::new`] and [`Name::with_tail`] answer a name exactly where the bytes are one (`name_of`).
//! [`SharedBytes::share`] and [`SharedBytes::copy`] leave the bytes as they are; [`SharedBytes::part`] gives so many
//! from a place on. [`runs_text`] gives the one text of 1 to 65,536 bytes. [`read_runs`] reads exactly the texts of
//! runs (`IsRuns`), and else says how many bytes at the front begin one (`IsRunsRefusal`). What was written is read
//! back ([`runs_are_read_back`], [`runs_have_one_reading`]). No clause says that shared bytes take no memory of their
//! own: docs/MEASURED.md has what was measured.
//!
//! Nearly all crates use it. Its tests stand in geo_tests_low. Read `src/name.rt` and `src/runs.rt` first.
#![tactic(auto)]

mod block;
mod calls;
mod decline;
mod errno;
mod id;
mod kind;
mod limits;
mod name;
mod request;
mod runs;
mod shared;

pub use block::{Block, NoMemory};
pub use calls::Calls;
pub use decline::{DeclineCause, Declined};
pub use errno::Errno;
pub use id::{BioId, ConsId, GeomId, HandleId, ProvId};
pub use kind::Kind;
pub use limits::{
    LANE_TICKETS, MAX_ACCESS_COUNT, MAX_ACTORS, MAX_COMPONENTS, MAX_DISKS, MAX_DRAWN_LINES,
    MAX_IMAGE_BYTES, MAX_LINE_BYTES, MAX_LINKS, MAX_LOG_ENTRIES, MAX_MEDIA_BYTES,
    MAX_MEMORY_DISK_BYTES, MAX_RANK, MAX_REQUEST_BYTES, MAX_RUNS_BYTES, MAX_SCRIPT_BYTES,
    MAX_SCRIPT_LINES, MAX_START, MAX_STRIPE_BYTES, MAX_TRACE_BYTES, MAX_WRITE_LINE_BYTES,
    UNTASTED_RANK,
};
pub use name::{BadName, Name};
pub use request::{BioCmd, Counts};
pub use runs::{RunsRefusal, read_runs, runs_are_read_back, runs_have_one_reading, runs_text};
pub use shared::SharedBytes;

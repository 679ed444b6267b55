//! Traces: the run of a mesh as a text, which is written, made again, and verified.
//!
//! A trace has all that a run was made of: who made which steps, and what disks answered. Each of its lines ends with
//! a line feed. They are, in this order:
//!
//! - the lines of a script. No line of a script begins with `%`, and each line behind it does.
//! - `% disk SECTORS`, for each disk of the shelf in the order of the script: 1 or more, and at most 2^40 bytes.
//! - `% SEAT STEP`, for each entry of the log. STEP is `go ACTOR`, `event`, `judge`, `reap`, `wash`, `start BIO`,
//!   `take DISK BIO`, `up BIO`, or `deliver BIO` with what the disk answered. That is `done`, `failed SECTORS` with
//!   how many it had done by then, or `bytes RUNS` with what it had read, as `write` has bytes in a script.
//! - `% report`. All that stands behind it, to the end of the text, is the report, byte by byte.
//!
//! Words are separated by one space. Numbers are decimal, actors and disks counted from 0 in the order of the script;
//! those of bios are below 2^64, all others below 2^32. A trace has one text alone for each text of its script.
//!
//! [`verify`] answers exactly what the definitions find of a text (`verified`). Of a trace that is whether its steps
//! can be made, end at rest and have its report, with the line of the first step that isn't enabled. Of another text
//! it is the first fault, that of its script first. Only want of memory is free. [`replay`] makes the steps up to the
//! first that isn't enabled. [`trace_text`] gives the text of a log's trace (`text`), and that text is a trace
//! (`trace`). What a yes means is a law (geo_laws_traces).
//!
//! Why so: most lines are those of a Start, a Take or an Up. They are read in one pass (`src/short.rt`), and all others
//! word by word.
//!
//! geo_run calls [`verify`] for the word `verify` and [`trace_text`] for `trace`. Read `src/finding.rt` and
//! `src/write.rt` first.
#![tactic(auto)]

mod answer;
mod cut;
mod finding;
mod line;
mod make;
mod number;
mod place;
mod refusal;
mod replaying;
mod short;
mod sizes;
mod step;
mod steps;
mod write;

pub use finding::verify;
pub use geo_headline::Verified;
pub use refusal::VerifyRefusal;
pub use replaying::{Replayed, replay};
pub use write::trace_text;

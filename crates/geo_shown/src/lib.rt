//! The listing that a log shows last. The client of the first actor shows each listing that it is replied, and who
//! watches has seen the last of them in the end.
//!
//! Such a listing is the mesh as it is printed after the log up to its own entry, so what was seen last can be
//! printed from the log alone. The report of a run that was watched prints what the watcher saw where that is the
//! same line by line, else the listing of the log.
//!
//! [`watched_report`] prints exactly the report and, behind it, `view N` and the mesh after the first N entries, as
//! the definitions have it (`view_text`), of each legal log: its clause is `IsWatchedReport`. [`last_shown`] gives
//! the last listing that the first actor's client was replied, with N, exactly where there is one (`number`,
//! `listed`). [`same_lists`] answers yes exactly where two listings are the same. [`replies_are_listings`]: a listing
//! that an entry of a legal log was replied, whatever its step, is that of the world after the log up to that entry.
//!
//! geo_run prints by it for the word `watch`; geo_jobs shows the listings while the jobs run. Read `src/watched.rt`
//! first.
#![tactic(auto)]

mod last;
mod laws;
mod same;
mod watched;

pub use last::last_shown;
pub use laws::replies_are_listings;
pub use same::same_lists;
pub use watched::watched_report;

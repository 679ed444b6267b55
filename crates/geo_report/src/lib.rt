//! What is printed of a plan, its log and the mesh: the report, and for a script that was made from a number the
//! summary.
//!
//! [`report`] and [`summary`] give exactly the texts of a plan, a log and a listing of the mesh (`text`). These are
//! the model's `report` and `summary` for each world from which the log leads to that listing (clauses `report` and
//! `summary`: `IsReport`, `IsSummary`). They ask nothing of the log. One pass over it finds where the replies stand
//! (`ArePlaces`), so that no line searches it.
//!
//! Why so: bytes that are all the same are compared many at a time. The table of replies is by line number, since there
//! are at most 4,096.
//!
//! [`add_mesh`] puts the lines of the mesh behind a text, and [`add_runs`] some bytes as runs. geo_run prints by this
//! crate, geo_shown and geo_verify by its parts. Read `src/print.rt` first; the texts are those of `Report.antt` in
//! geo_model.
#![tactic(auto)]

mod lines;
mod mesh;
mod places;
mod print;
mod runs;
mod tally;

pub use mesh::add_mesh;
pub use print::{report, summary};
pub use runs::add_runs;

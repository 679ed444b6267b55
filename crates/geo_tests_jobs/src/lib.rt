//! Tests of what the jobs of a run do, over the parts that they share.
//!
//! The jobs of a small script go one after another on one thread, and at once (`jobs.rt`); what they leave seat 0 makes
//! (`drain.rt`). They show what no clause says: that the jobs do the work where nothing is in their way, and what
//! becomes of the others where a lane has no place for a ticket, which is then dropped (`fill.rt`). `made.rt` makes
//! each kind of job, and takes it apart.
#![tactic(auto)]

#[cfg(test)]
mod bench;
#[cfg(test)]
mod drain;
#[cfg(test)]
mod fill;
#[cfg(test)]
mod jobs;
#[cfg(test)]
mod made;
mod rooms;
#[cfg(test)]
mod start;

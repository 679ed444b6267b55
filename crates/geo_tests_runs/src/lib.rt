//! Tests of runs on one thread: a mesh over one disk in memory that is driven to rest, what is printed of it, and the
//! trace that is written, made again and verified.
//!
//! They show what no clause says: that there is memory, and each call at work on a worked case. `orders.rt` drives in
//! the fixed order and in the elevator order, where the disk's fifth call fails too; `traces.rt` has a trace step by
//! step; `made.rt` the script that is made from a number. `bench.rt` makes a mesh, and drives it.
#![tactic(auto)]

#[cfg(test)]
mod bench;
#[cfg(test)]
mod made;
#[cfg(test)]
mod orders;
#[cfg(test)]
mod same;
#[cfg(test)]
mod traces;

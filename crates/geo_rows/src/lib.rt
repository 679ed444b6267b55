//! Worked runs of the model, computed from the definitions. No proof needs them: they show that the definitions say
//! what was meant.
//!
//! Twenty-eight runs in the fixed order give their reports ([`rows`], [`growth`]), beside faults of scripts, lists of
//! steps in other orders, towers of concats, labels of both versions, and what is made from a number. [`chains`] has
//! chains of logical partitions, with each cause of a decline. [`words`] has three runs in the elevator order, what a
//! watcher sees, and traces with what is found of them. At each moment of each run in the fixed order the mesh passes
//! tests of being sound, steady and fitting, and each step lowers the measure. These tests are proved to decide
//! `Steady` and `Fitting`, and `Sound` but for offsets inside a sector ([`fitting`]).
//!
//! Thirty-three kinds of wrong programs are proved not to keep `KeepsAll` ([`wrong`]). Such a program always answers a
//! status without its cause, loses an image, invents a disk or its size, takes another disk first, or tries a call
//! that failed again. Another asks a disk something else than it says, leaves all work to one thread, says yes to a
//! trace that doesn't hold, or works on words that aren't accepted. One right call is proved to keep it.
//!
//! No crate stands on this one. Read `src/rows.rt` first, then the scripts in `specs/Scripts.antt`.
#![tactic(auto)]

pub mod chains;
pub mod fitting;
pub mod growth;
pub mod rows;
pub mod words;
pub mod wrong;

//! What a whole run of the program keeps: the words that it is asked by, what it finds outside and leaves there, how
//! it ends, and the promise of it all. These are definitions alone, which a reader must believe beside those of
//! geo_model.
//!
//! `KeepsAll` is the promise of a call, in four parts: `KeepsTexts`, `KeepsEnding`, `KeepsLog` and `KeepsOutside`.
//! `IsComplete` says when the status has to be 0, 6 or 7, and of a trace 0, 2, 6, 8 or 9. `Outside` is source, sink
//! and shelf at one moment, made of the views of geo_io's and geo_disk's traits. `Sweep.antt` has the elevator order,
//! `Traces.antt` and `Verifying.antt` what a trace is and what is found of it, `Viewing.antt` what the word `watch`
//! prints. [`Verified`] is the one type of the code here: what is found of a trace.
//!
//! Read Modes, Outside, Endings and Headline in this order, with docs/MODEL.md beside. The contract of geo_run's
//! `run` is said in these words. docs/PROVED.md tells them clause by clause, and geo_rows shows which programs don't
//! keep them.
#![tactic(auto)]

mod verified;

pub use verified::Verified;

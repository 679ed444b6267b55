//! Laws of what is owed: a place of the log for the close of each handle, and one for the Deliver of each Busy bio.
//! There is no code: each contract is a law.
//!
//! Each step owes just the places more that it begins to owe, and just those less that it pays
//! ([`steps_change_what_is_owed`]). A lawful log stays lawful with an entry that has its place, and a legal log is
//! within its limit exactly if each entry had its place ([`logs_stay_lawful`]). Where a step has no place, the log
//! with what is owed is at its limit but for one, and that sum never falls ([`full_logs_stay_long`]).
//!
//! geo_moves needs them, geo_jobs for the answer of a job that found the log full, and geo_laws_traces. Read
//! `specs/OwedLaws.antt` first.
#![tactic(auto)]

ghost use Rattle.geo_laws_owed.specs.FullLaws.{FullLogsAreLong, OwedNeverFalls};
ghost use Rattle.geo_laws_owed.specs.OwedLaws.{LogsFitExactly, LogsStayLawful, OwedChanges};

/// Each step owes just the places more that it begins to owe, and just the places less that it pays.
pub fn steps_change_what_is_owed()
    ensures { OwedChanges }
{}

/// A lawful log stays lawful with an entry whose step has its place; a legal log from an opening is within its limit
/// exactly if each entry had its place.
pub fn logs_stay_lawful()
    ensures stay { LogsStayLawful }
    ensures exactly { LogsFitExactly }
{}

/// Where a step has no place in the log, the log with the places that are owed is at its limit but for one place; and
/// the length with the places that are owed doesn't fall as the log grows.
#[tactic(auto, using(crate::proofs::Full::full_logs_are_long, crate::proofs::Full::owed_never_falls))]
pub fn full_logs_stay_long()
    ensures long { FullLogsAreLong }
    ensures never { OwedNeverFalls }
{}

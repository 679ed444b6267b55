//! Laws of traces. There is no code: each function has an empty body, and its contract is the law.
//!
//! Who made which steps determines a legal log: its steps make it again ([`steps_make_a_log_again`]), and what steps
//! make is legal ([`what_steps_make_is_legal`]). A trace is read as it was written, and only so
//! ([`what_is_written_is_read`], [`what_is_read_was_written`]), and is a script with sizes and steps that fit
//! ([`what_is_read_fits`]). A yes is said exactly of a trace whose steps make a whole log that ends at rest and has
//! its report ([`yes_is_said_of_what_is_verified`]); the trace of each such log gets it
//! ([`traces_of_legal_logs_are_verified`]).
//!
//! Two laws are for the code: each Deliver of bytes has no more than a request can ask for ([`delivers_are_short`]),
//! and a legal log owes no more places than it has entries ([`steps_owe_few_places`]).
//!
//! geo_verify needs them all. Read `specs/TraceLaws.antt` first; what a trace is says `Traces.antt` of geo_headline.
#![tactic(auto)]

ghost use Rattle.geo_headline.specs.Verifying.{MadeAgain, MadeIsLegal};
ghost use Rattle.geo_laws_traces.specs.TraceLaws.{DeliversAreShort, LegalIsVerified, OwesFew, OwesOneMore, ReadFits, ReadIsWritten, WrittenIsRead, YesIsVerified};

/// The steps of a legal log make it again.
#[tactic(auto, using(crate::proofs::MadeAgain::made_again))]
pub fn steps_make_a_log_again()
    ensures { MadeAgain }
{}

/// What steps make is legal.
#[tactic(auto, using(crate::proofs::MadeAgain::made_is_legal))]
pub fn what_steps_make_is_legal()
    ensures { MadeIsLegal }
{}

/// What is written as a trace is read as it, whatever report it has.
#[tactic(auto, using(crate::proofs::Written::written_is_read))]
pub fn what_is_written_is_read()
    ensures { WrittenIsRead }
{}

/// What is read as a trace was written as it, so that a trace has one text for each text of its script.
#[tactic(auto, using(crate::proofs::Told::read_is_written))]
pub fn what_is_read_was_written()
    ensures { ReadIsWritten }
{}

/// What is read as a trace is a script, with sizes that fit its plan and steps whose numbers are within their ranges.
pub fn what_is_read_fits()
    ensures { ReadFits }
{}

/// Yes is said exactly of a trace whose steps make a whole log that ends at rest and has the trace's report.
#[tactic(auto, using(crate::proofs::YesMeans::yes_is_verified))]
pub fn yes_is_said_of_what_is_verified()
    ensures { YesIsVerified }
{}

/// A trace of a legal log that ends at rest, with its report, is verified.
#[tactic(auto, using(crate::proofs::YesMeans::legal_is_verified))]
pub fn traces_of_legal_logs_are_verified()
    ensures { LegalIsVerified }
{}

/// In a legal log each Deliver of bytes has at least one and no more than a request can ask for.
#[tactic(auto, using(crate::proofs::Delivers::delivers_are_short))]
pub fn delivers_are_short()
    ensures { DeliversAreShort }
{}

/// A step begins to owe at most one place of the log, and a legal log owes no more places than it has entries.
#[tactic(auto, using(crate::proofs::Owes::owes_one_more, crate::proofs::Owes::owes_few))]
pub fn steps_owe_few_places()
    ensures one { OwesOneMore }
    ensures few { OwesFew }
{}

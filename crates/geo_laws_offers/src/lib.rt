//! Laws of single steps that destroy nothing, and of what they offer for taste. There is no code: each contract is a
//! law.
//!
//! [`offering::steps_only_add`]: the steps of bios, an Event, and a Go of a command of geoms destroy nothing, and
//! what they offer lives: it has no error, and its geom stands and doesn't wither.
//! [`offering::judges_and_washes_offer_living`] says this of Judge and Wash, but that a Judge which ends a taste
//! takes its consumer. [`offering::stays_frees_nothing`]: where each part is still there, what is destroyed was idle.
//!
//! geo_laws_handles and geo_laws_steps need them. Read `specs/OfferingLaws.antt` first.
#![tactic(auto)]

pub mod offering;

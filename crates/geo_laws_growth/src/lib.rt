//! Laws of growth: a consumer that comes to a provider while its geom is open, for any configuration of a class; and
//! what a provider keeps that grows (g_attach(9), g_access(9), g_resize_provider(9)). There is no code: each contract
//! is a law.
//!
//! [`joins`] answers what a consumer that joins does to counts ([`joins::joining_gains`], [`joins::joining_raises`]).
//! Only what is below changes ([`joins::joining_changes_below`]), and no loop comes of it where its geom wouldn't
//! reach itself ([`joins::joins_make_no_loop`]). A walk downwards decides what refuses it
//! ([`joins::joins_are_allowed`]).
//!
//! [`growth`] answers what stands after an append ([`growth::grown_is_found`], [`growth::appends_hold`]), and whether
//! growth moves bytes: each old offset lies where it lay ([`growth::concats_grow`], [`growth::flat_stays`]).
//!
//! geo_access needs the first for its `join`, geo_moves both for `append`, and geo_laws_making for the step of an
//! append. Read `specs/JoinLaws.antt` first.
#![tactic(auto)]

pub mod growth;
pub mod joins;

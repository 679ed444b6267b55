//! Laws of the bios (g_bio(9)): their four steps leave a mesh sound, steady and fitting, and no piece of a request is
//! lost. There is no code: each function has an empty body, and its contract is the law.
//!
//! [`ups::bio_steps_stay_firm`] is the law of all four: Start, Take, Deliver and Up leave a firm mesh firm, by any
//! seat, whether they are enabled or not. [`starts`], [`steps`] and [`ups`] have it by the way that a bio goes:
//! bounced, failed at a NOP, sent, split, and up to a line, a taste or a parent.
//! [`splits::firm_meshes_lose_no_piece`]: each piece has its consumer, and pieces follow each other over the whole
//! request. [`frames`] answers what a change of bios or of commands alone leaves ([`frames::bios_are_apart`],
//! [`frames::commands_are_apart`]); [`ups::sources_serve_all`] whether bios have still their counts where grants fall.
//!
//! The laws of handles, maps, steps, what is owed, rest, requests, the elevator order and traces need them; so do
//! geo_moves and geo_drain. Read `specs/BioStepLaws.antt` first.
#![tactic(auto)]

pub mod frames;
pub mod splits;
pub mod starts;
pub mod steps;
pub mod ups;

//! Laws of a mesh that opens, and of one that loses parts: both stay firm, which is sound, steady and fitting
//! together (g_event(9), g_wither_geom(9)). There is no code: each contract is a law.
//!
//! [`opening::openings_are_sound`]: the opened world of each plan with which a mesh can begin, with facts that fit it,
//! is sound, steady and fitting. [`losing::less_is_firm`] answers what to show of a graph that has come to less, and
//! [`effects::changes_make_less`] which changes are such. The other laws of [`effects`] are for errors, marks,
//! queues, handles that die, announcements, and what events do. [`events::event_steps_keep_firm`] and
//! [`washes::wash_steps_keep_firm`] are the steps: Event keeps a firm world firm, and so does Wash, which takes only
//! what was closed, detached and idle.
//!
//! The laws of handles, making, maps, all steps, rest, the elevator order and traces need them; so do geo_taste,
//! geo_moves, geo_core and geo_rows. Read `specs/LessLaws.antt` first.
#![tactic(auto)]

pub mod effects;
pub mod events;
pub mod losing;
pub mod opening;
pub mod washes;

//! Laws of every step and of every legal log. There is no code: each function has an empty body, and its contract is
//! the law.
//!
//! [`all_steps::steps_stay_firm`]: each of the nine steps, by any seat, enabled or not, leaves a mesh sound, steady
//! and fitting that was so. So it is after every prefix of every legal log of every plan with which a mesh can begin
//! ([`all_steps::legal_logs_stay_firm`]), whatever the lines of its commands. In each such log opens and appends are
//! answered by what the mesh forbids ([`all_steps::opens_and_appends_are_answered`]), and no piece of a request is
//! lost ([`all_steps::no_piece_is_lost`]). Only what was closed, detached and idle is destroyed, and only what lives
//! is offered for taste ([`all_steps::legal_logs_free_only_idle`], over [`freeing`]). No step, by any seat, changes
//! the map of a provider to which a request goes, an append included ([`ways::steps_keep_used`],
//! [`ways::ways_keep_maps`]). [`inheriting::steps_inherit`] answers what a step leaves of each part.
//!
//! The laws of what is owed, rest, requests, the elevator order and traces stand on these. Read `src/all_steps.rt`
//! first.
#![tactic(auto)]

pub mod all_steps;
pub mod freeing;
pub mod inheriting;
pub mod ways;

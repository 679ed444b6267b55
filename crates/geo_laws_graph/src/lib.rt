//! Laws of the graph, most of them for any configuration of a class: look-ups before and after one change, and ranks
//! (geom(4), g_attach(9)). There is no code: each function has an empty body, and its contract is the law.
//!
//! - [`lookups`]: what is found after a thing is added, removed or changed ([`lookups::added_is_found`],
//!   [`lookups::removed_is_gone`], [`lookups::changed_geom_is_found`] ..); whether lists stay in order, parts go on
//!   living, and a walk meets all ([`lookups::walks_meet_all`]).
//! - [`ranks`]: what a rank is ([`ranks::ranks_are_determined`]), which edges make it, and that only DEV and TASTE
//!   may be deeper than the limit.
//! - [`rank_changes`]: which changes keep ranks ([`rank_changes::ranks_stay`]), and when an attach makes a loop
//!   ([`rank_changes::attaches_are_ranked`]).
//!
//! geo_mesh, geo_access, geo_life and the steps above need them, since the graph that the code keeps is the model's;
//! so do nearly all crates of laws. Read `specs/LookupLaws.antt` and `specs/RankLaws.antt` first.
#![tactic(auto)]

pub mod lookups;
pub mod rank_changes;
pub mod ranks;

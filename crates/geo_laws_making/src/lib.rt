//! Laws of a mesh that comes to more: geoms that commands make and grow, and those that classes make of what they
//! taste (geom(4), g_new_geomf, g_new_providerf, g_new_consumer). Each is kept firm. There is no code: each contract
//! is a law.
//!
//! [`growing::more_is_firm`] and [`makes::makes_keep_firm`] answer what to show of a new geom with consumers and
//! providers. [`geoms`] has a law for each command of geoms, [`appends::geom_commands_stay_firm`] all of them,
//! appends too. [`accepting::accepts_stay_firm`] is for what a class makes of what it accepts: slices, partitions,
//! labels and places of assemblies ([`places`], [`assemblies`]). [`tasting::tastes_stay_firm`] and
//! [`judges::judges_stay_firm`] are the step of a taste; [`judges::links_stay_in_order`] keeps its chain.
//!
//! geo_taste and geo_moves need them, and the laws of all steps and of rest. Read `specs/MoreLaws.antt` and
//! `specs/MakingLaws.antt` first.
#![tactic(auto)]

pub mod accepting;
pub mod appends;
pub mod assemblies;
pub mod geoms;
pub mod growing;
pub mod judges;
pub mod makes;
pub mod places;
pub mod tasting;

//! Laws of rest: each step lowers the measure, and the fixed order goes on until nothing is left to do. There is no
//! code: each function has an empty body, and its contract is the law.
//!
//! [`rest::steps_lower`]: each enabled step of a firm mesh lowers the measure, a Take together with a Deliver that
//! fits, but for a Wash of a consumer while a taste is under way or to come. [`measure`], [`losses`] and [`judging`]
//! have it step by step. [`rest::fixed_order_goes_on`]: where a legal log leads without a Busy bio, and not to rest,
//! the fixed order gives an enabled step that lowers it. No run lowers it for ever
//! ([`rest::measures_do_not_fall_for_ever`]). So from a firm mesh without a Busy bio the fixed order comes to an end,
//! whatever disks answer, where each Take is followed by a Deliver that fits ([`rest::fixed_order_ends`]). So does
//! every order that goes on and ends at rest ([`rest::orders_end`]). [`others::others_leave_commands`]: what an actor
//! has left changes by its own Goes alone.
//!
//! geo_drain needs them for its run to rest, geo_jobs for clients that stopped, geo_laws_sweep for the elevator
//! order. Read `specs/RestLaws.antt` first.
#![tactic(auto)]

pub mod judging;
pub mod losses;
pub mod measure;
pub mod others;
pub mod rest;

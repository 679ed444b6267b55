//! The log of a mesh: what was done, in order, with the types of steps, outcomes and lists that it holds.
//!
//! Contracts see a [`Log`] as its list of entries and its room, and [`DiskFacts`] as its list of sizes and its room.
//!
//! [`Log::push`] into room takes no memory, and the bytes of a Deliver are moved with it. [`Log::bytes_at`] gives
//! exactly what the entry of a place delivered. That stays while the log grows ([`laws::places_stay`]), and a bio
//! that names the place has the model's result ([`laws::delivered_has_place`], [`laws::delivered_is_result`]).
//!
//! geo_core keeps the log of a mesh, geo_moves reads delivered bytes, geo_report, geo_shown and geo_verify read
//! the whole. Tests stand in geo_tests_bios and geo_tests_state. Read `src/log.rt`.
#![tactic(auto)]

mod facts;
pub mod laws;
mod log;

pub use facts::DiskFacts;
pub use geo_model::{
    ConsLine, ConsLines, DeviceResult, Entry, GeomLine, MeshList, Outcome, ProvLine, ProvLines,
    Reply, Request, Step,
};
pub use log::Log;

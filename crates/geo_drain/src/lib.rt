//! The mesh driven to rest by one thread: the step that is due in an order is made, and each Take is served by its
//! disk and followed by its Deliver (geom(4), g_bio(9)).
//!
//! [`Order`] is a trait with the proof that it goes on: where a legal log leads without a Busy bio, and not to rest,
//! it gives an enabled step. It is seen by ghost members: what is due in a world after a log (`due`), and what it
//! knows of that (`knows`). [`FixedOrder`] is the order of `step`, and knows nothing.
//!
//! In a mesh without a Busy bio [`pick`] is the step that the fixed order has due (`picked`), and there is none
//! exactly at rest (`rest`). It is enabled and lowers the measure (`falls`). From such a mesh [`run_to_rest`] makes the steps of its order until all is at rest
//! (`rest`). What it added to the log follows the order, with the Take of each of its Delivers, and each drive served
//! just that (`runs`: `Runs`). `LogFull` comes only where the step that is due has no place (`full`). That it ends is
//! proved for every order that goes on. An order may keep what it needs of what the mesh did: it notes that after
//! each turn, and at the end what it knows is right for the whole log (`known`).
//!
//! geo_run drives by the fixed order, also what threads left; geo_elev by the elevator order. Read `src/drain.rt` and
//! `src/order.rt` first.
#![tactic(auto)]

mod drain;
mod order;
mod picking;
mod refusal;
mod turn;

pub use drain::run_to_rest;
pub use geo_core::{ApplyRefusal, Mesh, Spot};
pub use order::{FixedOrder, Order};
pub use picking::{earliest, if_enabled, pick};
pub use refusal::DrainRefusal;

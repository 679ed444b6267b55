//! How geoms are made over providers and offered for taste, and the taste of a provider by the classes, a step at a
//! time (geom(4)).
//!
//! All is said of the views of geo_mesh's `Topo`, of an `EventQueue` and of geo_class's `Taste`: the whole mesh and
//! the events afterwards (`AreBoth`). After want of memory nothing changed (`same`).
//!
//! - [`build`]: the geom of a command over its providers, or of a disk over none, with its provider, which is offered
//!   for taste.
//! - [`accept`]: what a class makes of a provider that it accepts: slices, partitions, a label, a place of an
//!   assembly with its completion where it is the last. Or it declines after all, and then nothing changed.
//! - [`is_tasted`]: the model's test whether the provider is tasted now. [`begin`]: the model's taste begins, with
//!   its consumer attached. [`hand_back`]: the read's count is given back, and the taste has the result. [`abort`]:
//!   the taste's consumer goes, and nothing else.
//! - [`judge_step`]: in a mesh that is sound, steady and fitting the step is the model's, with the mesh, the events
//!   and the taste after it (`judged`).
//!
//! These are the model's `build` and `accept` ([`making_laws::makes_as_the_model`]). In a firm mesh
//! `accept` can be called with what a class accepted, and its answer is the model's
//! ([`making_laws::firm_meshes_accept`]); so can `judge_step` ([`laws::firm_meshes_judge`]). All running counts stay
//! the model's sums (`settled`): after something was made, in such a mesh. A refused grant ends the class.
//! [`judge_step`] and [`hand_back`] tick at most one step for each consumer below the tasted provider (`bound`).
//!
//! Why so: [`accept`] and [`judge_step`] can be called in any mesh and are exact in a firm one, so the facts of such a
//! mesh are premises of a clause and no condition. The geom of an assembly is sought by its class and name.
//!
//! Only tested: that there is memory; how geoms are made at concrete names and sizes (geo_tests_making); tastes of
//! hostile tables, chains and records, and of a disk that is pulled at each moment (geo_tests_core). geo_moves calls
//! it. Read `src/step.rt` and `src/shapes.rt` first.
#![tactic(auto)]

mod ask;
mod commands;
mod join;
mod judge;
mod label;
pub mod laws;
pub mod making_laws;
mod member;
mod names;
mod offer;
mod over;
mod parts;
mod place;
mod raise;
mod shapes;
mod standing;
mod step;
mod tables;
mod taster;

pub use commands::build;
pub use offer::Offer;
pub use raise::NewGeom;
pub use shapes::{Accepted, accept};
pub use step::judge_step;
pub use taster::{abort, begin, hand_back, is_tasted};

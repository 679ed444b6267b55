//! Tests of the mesh's parts, over geo_mesh and geo_names: the graph, and numbers under names.
//!
//! They show what no clause says: that there is memory, and the mesh at a concrete type. A geom that would reach
//! itself and one of rank 33 aren't attached, a tower falls by a storey, and geoms, providers and numbers are found
//! by their names. What is noted of a part stands there alone (`parts.rt`), and what was made goes again.
#![tactic(auto)]

#[cfg(test)]
mod mesh;
#[cfg(test)]
mod names;
#[cfg(test)]
mod parts;
#[cfg(test)]
mod same;

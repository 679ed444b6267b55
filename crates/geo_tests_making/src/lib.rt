//! Tests of how geoms are made, over geo_taste and a mesh at concrete names and sizes.
//!
//! They show what no clause says: that there is memory, and slices, partitions, labels and assemblies whose places
//! come in one order and in another. A taken name, one that is too long, a filled place, another id and another
//! sector size are declined.
#![tactic(auto)]

#[cfg(test)]
mod making;
#[cfg(test)]
mod same;

//! Tests of the core's parts: access counts over the mesh, classes, and the taste of providers.
//!
//! They show what no clause says: that there is memory, and that meshes can be built so far that the calls decide
//! something. `access.rt` has a diamond that is read and not written, thirty concats each over the one below twice,
//! one more that is too much, and an open concat that grows. `holds.rt` has a handle that comes and goes, and one at a
//! concat over a disk and its NOP. `taste.rt` has whole tastes of sectors in memory: hostile tables and chains, refused
//! reads, and a disk that is pulled at each moment of its taste. Meshes are made by `built.rt`, sectors by `media.rt`.
#![tactic(auto)]

#[cfg(test)]
mod access;
#[cfg(test)]
mod built;
#[cfg(test)]
mod class;
#[cfg(test)]
mod holds;
#[cfg(test)]
mod media;
#[cfg(test)]
mod same;
#[cfg(test)]
mod taste;

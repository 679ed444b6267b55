//! Tests of the life of providers and geoms, over geo_life and a mesh at a concrete type.
//!
//! They show what no clause says: that there is memory, marks and spoils of a first writer, an orphan under a handle,
//! and a tower that is washed in order once no request is out.
#![tactic(auto)]

#[cfg(test)]
mod life;

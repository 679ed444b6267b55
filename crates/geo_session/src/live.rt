//! What a live mesh holds.

use geo_state::State;

/// What a live mesh holds. Its fields are open: what holds of them together is `IsSession`.
#[derive(Drop)]
pub struct Live {
    pub state: State,
    /// How many actors there are.
    pub actors: u32,
    /// How many steps were made, counted up to 2^64 and then from 0 again.
    pub steps: u64,
    /// How many of them were of the graph, counted the same way.
    pub generation: u64,
}

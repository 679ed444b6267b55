//! What a mesh holds.

use crate::left::Left;
use geo_log::{DiskFacts, Log};
use geo_script::Plan;
use geo_state::State;

/// What a mesh holds. Its fields are open: what holds of them together is `IsMesh`.
#[derive(Drop)]
pub struct Running {
    pub plan: Plan,
    pub facts: DiskFacts,
    pub left: Left,
    pub state: State,
    pub log: Log,
}

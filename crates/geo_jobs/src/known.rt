//! What an end of a view knows.
use crate::role::Role;
use geo_core::Mesh;
use geo_lock::Pass;
use geo_model::Entry;
use std::collections::LinkedList;

/// What an end of a view knows, or what is told. No value of it is made: it costs no memory and no time.
///
/// `of` is the pass with which the view began, and none only of a note that was learned. `seen` is what that pass had
/// seen when it showed the list that this end showed last, saw last or tells of. `told` is what it was told of since.
pub struct Known {
    pub role: Role,
    pub of: Option<Pass<Mesh>>,
    pub seen: LinkedList<Entry>,
    pub told: LinkedList<LinkedList<Entry>>,
}

//! What the threads of a run leave.
use geo_core::Mesh;
use geo_disk::Drive;
use geo_model::MeshList;

/// How the jobs of a run ended.
#[derive(Clone, Copy, Debug, PartialEq, Eq)]
pub enum JobsEnd {
    /// Each client made its last command or waited, and each other job had nothing to do.
    Idle,
    /// A job found no place in the log for the step that it tried, and no job lacked memory.
    LogFull,
    /// Memory was wanting to a job.
    NoMemory,
}

/// What was seen last of a mesh that was shown.
#[derive(Debug, Drop)]
pub enum Seen {
    /// Nobody looked.
    Nothing,
    /// The mesh as it is printed.
    List(MeshList),
    /// Memory was wanting for the list.
    NoMemory,
}

/// What the threads of a run left: the mesh with all their entries, the drives in header order, how the jobs ended, and
/// what was seen last, if the mesh was shown.
#[derive(Drop)]
pub struct Left<D> {
    pub mesh: Mesh,
    pub drives: Vec<Drive<D>>,
    pub ended: JobsEnd,
    pub seen: Seen,
}

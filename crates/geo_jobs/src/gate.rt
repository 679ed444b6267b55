//! Places at which a job can be held.
use geo_base::BioId;

/// Where a job stands when it asks its gate.
#[derive(Clone, Copy, Debug, PartialEq, Eq)]
pub enum GatePlace {
    /// A client before its next step. `line` is the line of its last step that was made, and 0 before the first.
    ClientNext { actor: u32, line: u32 },
    /// A disk worker between the Take of a bio and the call of the disk.
    DiskCall { worker: u32, bio: BioId },
    /// A disk worker after the Deliver of a bio.
    Delivered { worker: u32, bio: BioId },
}

/// What holds jobs at places, for as long as it likes. It promises nothing.
pub trait Gate {
    /// Returns once the job may go on.
    fn hold(&self, at: GatePlace);
}

/// The gate that holds no job.
#[derive(Clone, Copy, Debug)]
pub struct OpenGate;

impl Gate for OpenGate {
    fn hold(&self, _at: GatePlace) {}
}

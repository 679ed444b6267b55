//! What is due after a step.

use geo_base::BioId;
use geo_model::{Reply, Request};

/// What is due after a step.
#[derive(Debug, Drop)]
pub enum Due {
    /// A disk is asked, for a bio: its answer is to be given for that.
    Ask {
        disk: u32,
        bio: BioId,
        request: Request,
    },
    /// The reply to the request that carries this token.
    Reply {
        token: u64,
        reply: Reply,
    },
    /// A step of requests was made inside the mesh: its graph is as before.
    Moved,
    /// A step was made inside the mesh that may have changed its geoms, providers, consumers, their counts or handles.
    /// This is the generation of its graph now.
    Changed {
        generation: u64,
    },
    /// No step is due, and none was made: disks have to answer, or commands to come.
    Idle,
}

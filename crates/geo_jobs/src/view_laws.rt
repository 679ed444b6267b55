//! What can be shown.
ghost use Rattle.geo_jobs.specs.Replies.{RepliesCanBeShown};

/// A listing that a pass is replied can be shown: it is the mesh as it is printed after what the pass has seen then.
#[tactic(auto, using(crate::proofs::Replies::replies_can_be_shown))]
pub fn replies_can_be_shown()
    ensures { RepliesCanBeShown }
{}

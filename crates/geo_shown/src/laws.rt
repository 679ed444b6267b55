//! What the listings of a log are.
ghost use Rattle.geo_shown.specs.Replies.{RepliesAreListings};

/// A listing that an entry of a legal log was replied is the mesh as it is printed after the log up to that entry.
#[tactic(auto, using(crate::proofs::Replies::replies_are_listings))]
pub fn replies_are_listings()
    ensures { RepliesAreListings }
{}

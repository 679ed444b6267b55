//! Laws of drives along legal logs: what a Take asks its disk can serve, each answer that fits can be delivered, and a
//! drive that serves what it is asked holds and tells what the log says (g_bio(9)).
ghost use Rattle.geo_laws_disks.specs.DriveLaws.{DrivesFollow, TakesAreServable};

/// What a Take of a firm mesh asks, a drive of the disk's sizes can serve, a READ asks for as many bytes as its bio,
/// and each answer that fits the request can be delivered at once.
#[tactic(auto, using(crate::proofs::Takes::takes_are_servable))]
pub fn takes_are_servable()
    ensures { TakesAreServable }
{}

/// A drive that serves what it is asked serves along the log with one entry more.
#[tactic(auto, using(crate::proofs::Drives::drives_follow))]
pub fn drives_follow()
    ensures { DrivesFollow }
{}

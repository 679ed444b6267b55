//! Laws of disks by the seats that serve them, and of logs in two parts (g_bio(9)).
ghost use Rattle.geo_laws_disks.specs.SeatLaws.{PartsDeliver, PartsServe, SeatsDeliver, SeatsServe};

/// Where each disk has a seat, the entries of the seat deliver of the disk what the whole log does; and what a drive
/// did by the entries of its seat it did by the log.
#[tactic(auto, using(crate::proofs::Seats::seats_deliver))]
pub fn seats_serve_their_disks()
    ensures deliver { SeatsDeliver }
    ensures serve { SeatsServe }
{}

/// Two parts of a log, the second of which has the Takes of its Delivers, deliver of a disk what both do; and a drive
/// that served the one and then the other served both.
#[tactic(auto, using(crate::proofs::Seats::parts_deliver))]
pub fn parts_are_served_as_one()
    ensures deliver { PartsDeliver }
    ensures serve { PartsServe }
{}

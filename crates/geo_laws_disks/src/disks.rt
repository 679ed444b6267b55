//! Laws of disks along legal logs: what a disk is asked lies inside it, what it holds after a log is what each part
//! of the log makes of it, and a request that was taken can be answered (g_bio(9)).
ghost use Rattle.geo_model.specs.Laws.{TakenCanBeDelivered};
ghost use Rattle.geo_laws_disks.specs.DiskLaws.{ContentsFollow, DisksAreAsked};

/// In each legal log each Take asks a disk of the header for sectors that are its own, a WRITE with their bytes, and
/// a FLUSH alone for none; the disks of the header and their sizes stay.
#[tactic(auto, using(crate::proofs::Inside::disks_are_asked))]
pub fn disks_are_asked()
    ensures { DisksAreAsked }
{}

/// What a disk holds after a legal log in two parts is what the second part makes of what it held after the first;
/// a bio is delivered only after it was taken.
#[tactic(auto, using(crate::proofs::Joined::contents_follow))]
pub fn contents_follow()
    ensures { ContentsFollow }
{}

/// In each legal log an answer that fits can be delivered by the seat whose last entry is the Take of the bio,
/// whatever other seats did since.
pub fn taken_can_be_delivered()
    ensures { TakenCanBeDelivered }
{}

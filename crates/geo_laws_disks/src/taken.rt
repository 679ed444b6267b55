//! Laws of what a seat took: it stands as it was taken, and can be answered, until the seat answers (g_bio(9)).
ghost use Rattle.geo_laws_disks.specs.TakenLaws.{DeliversStayEnabled, OthersLeaveIt, TakenCanBeAnswered};

/// A step of another seat leaves a bio that a seat took as it was taken: Busy at the seat, of the same command and
/// length, and with the same sector size.
#[tactic(auto, using(crate::proofs::TakenStands::others_leave_it))]
pub fn others_leave_it()
    ensures { OthersLeaveIt }
{}

/// A Deliver that is enabled for a seat is enabled for it after a step of another seat.
#[tactic(auto, using(crate::proofs::Answerable::delivers_stay_enabled))]
pub fn delivers_stay_enabled()
    ensures { DeliversStayEnabled }
{}

/// In each legal log an answer that fits the request of a Take can be delivered by the seat that took the bio, as long
/// as the Take is that seat's last entry, whatever other seats did since.
#[tactic(auto, using(crate::proofs::Answered::taken_can_be_answered))]
pub fn taken_can_be_answered()
    ensures { TakenCanBeAnswered }
{}

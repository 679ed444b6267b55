//! Laws of histories: a result that the log told stays, and so do the leaves of a finished bio (g_bio(9)).
ghost use Rattle.geo_laws_requests.specs.Arrivals.{BiosStayOrArrive};
ghost use Rattle.geo_laws_requests.specs.Histories.{HistoriesKeep};

/// The result of a finished bio, and the requests to disks that it came to, stay whatever is done later.
#[tactic(auto, using(crate::proofs::Finished::finished_stay))]
pub fn finished_stay()
    ensures { HistoriesKeep }
{}

/// A Go, an Event, a Judge, a Reap and a Wash change no bio: all stay, and at most one arrives, with the next number.
#[tactic(auto, using(crate::proofs::Arrivals::bios_stay_or_arrive))]
pub fn bios_stay_or_arrive()
    ensures { BiosStayOrArrive }
{}

//! A law of what disks owe: once all that was taken is delivered, no bio is at a disk (g_bio(9)).
ghost use Rattle.geo_laws_requests.specs.DeliveredLaws.{AllDeliveredNoneBusy};

/// Where each bio that was taken was delivered, a legal log leads to a mesh without a Busy bio.
#[tactic(auto, using(crate::proofs::AllDelivered::all_delivered_none_busy))]
pub fn none_is_busy_where_all_is_delivered()
    ensures { AllDeliveredNoneBusy }
{}

//! Laws of the steps of handles: what they destroy was closed and idle, what they offer for taste lives, and what an
//! open answers (g_access(9), g_detach(9)).
ghost use Rattle.geo_laws_handles.specs.FactLaws.{HandlesFreeIdle, HandlesOfferLiving, OpensAreAnsweredRight};

/// What a command of a handle and a reap destroy was closed and idle.
#[tactic(auto, using(crate::proofs::Idle::handles_free_idle))]
pub fn handles_free_idle()
    ensures { HandlesFreeIdle }
{}

/// What a command of a handle and a reap offer for taste lives.
#[tactic(auto, using(crate::proofs::Offered::handles_offer_living))]
pub fn handles_offer_living()
    ensures { HandlesOfferLiving }
{}

/// An open is answered by what the mesh forbids.
#[tactic(auto, using(crate::proofs::Answered::opens_are_answered_right))]
pub fn opens_are_answered_right()
    ensures { OpensAreAnsweredRight }
{}

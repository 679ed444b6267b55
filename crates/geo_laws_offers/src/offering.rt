//! Laws of single steps that destroy nothing, and of what they offer for taste: each such provider has no error, and
//! its geom stands and doesn't wither (g_event(9), g_wither_geom(9)).
ghost use Rattle.geo_laws_offers.specs.OfferingLaws.{StepsOnlyAdd, JudgesAndWashesOfferLiving, StaysFreesNothing};

/// The steps of bios, an event, and a Go of a command of geoms destroy nothing, and what they offer for taste lives.
#[tactic(auto, using(crate::proofs::Steps::steps_only_add))]
pub fn steps_only_add()
    ensures { StepsOnlyAdd }
{}

/// A Judge destroys nothing, unless it ends a taste, and what it offers for taste lives; a Wash offers nothing.
#[tactic(auto, using(crate::proofs::Steps::judges_and_washes_offer_living))]
pub fn judges_and_washes_offer_living()
    ensures { JudgesAndWashesOfferLiving }
{}

/// Where each geom, provider and consumer is still there after an entry, what it destroys was idle: nothing goes.
#[tactic(auto, using(crate::proofs::Steps::stays_frees_nothing))]
pub fn stays_frees_nothing()
    ensures { StaysFreesNothing }
{}

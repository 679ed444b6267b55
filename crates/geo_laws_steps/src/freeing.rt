//! Laws of single steps: what a step destroys was closed, detached and idle, and what it offers for taste lives
//! (g_event(9), g_wither_geom(9)).
ghost use Rattle.geo_laws_steps.specs.FreeingLaws.{StepsFreeOnlyIdle, StepsOfferOnlyLiving};

/// What a step destroys was closed, detached and idle.
pub fn steps_free_only_idle()
    ensures { StepsFreeOnlyIdle }
{}

/// What a step offers for taste lives.
pub fn steps_offer_only_living()
    ensures { StepsOfferOnlyLiving }
{}

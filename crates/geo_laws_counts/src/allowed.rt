//! Laws of demands that aren't refused, and of write counts that leave zero or come to it.
ghost use Rattle.geo_laws_counts.specs.AllowedLaws.{ChangedAreEnoughForExclusive, ChangedAreEnoughForLimit, ComingRisesBelow, FallenAmongChanged, FallingGrantsFallBelow, GoingFallsBelow, GoingStaysExclusive, GoingStaysLimited, GrantsAreAllowed, NoneFalls, NoneRises, OpenedStaysAllowed, OpensAreAllowed, RisenAmongChanged, RisingGrantsRiseBelow};

/// A demand, or an open, isn't refused just where with it there is no error below, no writer stands beside another's
/// exclusive count, and no count is above the limit.
#[tactic(auto, using(crate::proofs::Openers::demands_are_allowed))]
pub fn demands_are_allowed<C>()
    ensures grants { GrantsAreAllowed C }
    ensures opens { OpensAreAllowed C }
    ensures opened { OpenedStaysAllowed C }
{}

/// Where only some providers change, it is enough to look at these for exclusiveness and the limit.
#[tactic(auto, using(crate::proofs::LimitFacts::changed_exclusive, crate::proofs::LimitFacts::changed_limit))]
pub fn changed_are_enough<C>()
    ensures exclusive { ChangedAreEnoughForExclusive C }
    ensures limit { ChangedAreEnoughForLimit C }
{}

/// After a demand goes, neither exclusiveness nor the limit begins to fail.
pub fn going_stays_allowed<C>()
    ensures exclusive { GoingStaysExclusive C }
    ensures limit { GoingStaysLimited C }
{}

/// No write count leaves zero where no count rises, and none comes to zero where none falls; what does so is among
/// what changes.
#[tactic(auto, using(crate::proofs::LimitFacts::rises_and_falls_are_among_changes))]
pub fn rises_and_falls_are_among_changes<C>()
    ensures none_rises { NoneRises C }
    ensures none_falls { NoneFalls C }
    ensures risen { RisenAmongChanged C }
    ensures fallen { FallenAmongChanged C }
{}

/// Where a demand comes, what rises is reached downwards from its provider, and nothing falls; where one goes, what
/// falls is reached, and nothing rises.
pub fn rises_and_falls_are_below<C>()
    ensures rising_grants { RisingGrantsRiseBelow C }
    ensures falling_grants { FallingGrantsFallBelow C }
    ensures coming { ComingRisesBelow C }
    ensures going { GoingFallsBelow C }
{}

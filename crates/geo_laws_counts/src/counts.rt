//! Laws of the counts of one state.
ghost use Rattle.geo_laws_counts.specs.CountLaws.{CountersAreCounts, CountsAreSums, CountsDependOnAbove, EnoughLevels, GrantsAreWanted, NextNumbersAreFree, NothingAbove, NothingAttached, RisingNumbersDiffer, RisingNumbersLead, WantsNothing};

/// In a graph without loops the counts of a provider are the sum of what its consumers want, and enough levels are
/// enough.
#[tactic(auto, using(crate::proofs::Sums::have_is_sum, crate::proofs::Sums::enough_levels))]
pub fn counts_are_sums<C>()
    ensures sums { CountsAreSums C }
    ensures levels { EnoughLevels C }
{}

/// Counters that keep the sums are the counts, so a layer that keeps counters has to keep the sums alone.
pub fn counters_are_counts<C>()
    ensures { CountersAreCounts C }
{}

/// Counts depend only on what stands above the provider.
#[tactic(auto, using(crate::proofs::Reach::same_above))]
pub fn counts_depend_on_above<C, D>()
    ensures { CountsDependOnAbove C D }
{}

/// Who wants nothing: a provider with nothing attached has no counts; a consumer of DEV or TASTE wants its grant;
/// another one wants nothing where nothing above has a count, and but for one of a disk only there.
#[tactic(auto, using(crate::proofs::Reach::nothing_above, crate::proofs::Reach::wants_nothing))]
pub fn nothing_is_wanted<C>()
    ensures attached { NothingAttached C }
    ensures granted { GrantsAreWanted C }
    ensures above { NothingAbove C }
    ensures only_there { WantsNothing C }
{}

/// Where numbers rise, as they do in a sound mesh, each leads to its own provider, no two consumers share one, and
/// the next one is free: what the laws of counts ask of numbers.
pub fn rising_numbers_lead<C>()
    ensures lead { RisingNumbersLead C }
    ensures differ { RisingNumbersDiffer C }
    ensures free { NextNumbersAreFree C }
{}

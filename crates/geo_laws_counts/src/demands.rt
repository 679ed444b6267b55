//! Laws of a demand that comes or goes at a provider.
ghost use Rattle.geo_laws_counts.specs.DemandLaws.{BelowBeginsAtIt, BelowIsClosed, ComesQuietly, ComingChangesBelow, ComingConsumersGain, ComingKeepsBelow, ComingKeepsErrors, ComingProvidersGain, ComingRaises, ConsumersGain, GoesQuietly, GoingChangesBelow, GoingConsumersLose, GoingKeepsBelow, GoingLowers, GoingProvidersLose, GrantsChangeBelow, ProvidersGain, WantsDependOnCounts};

/// Where grants rise, a provider gains the sum of what its consumers gain, and a consumer what its class makes of
/// what its geom's providers gain: partition tables, labels, concats and stripes add an exclusive count at the first
/// demand above. Read backwards, where grants fall, they lose as much, and the exclusive count goes with the last
/// demand.
#[tactic(auto, using(crate::proofs::Sums::have_gains, crate::proofs::Sums::want_gains))]
pub fn grants_gain<C>()
    ensures providers { ProvidersGain C }
    ensures consumers { ConsumersGain C }
{}

/// A consumer wants the same where its class, its grant and its geom's providers, with their counts, are the same.
pub fn wants_depend_on_counts<C, D>()
    ensures { WantsDependOnCounts C D }
{}

/// What is reached downwards from a provider is the provider and all to which a consumer of a reached geom is attached.
pub fn below_is_closed<C>()
    ensures begins { BelowBeginsAtIt C }
    ensures closed { BelowIsClosed C }
{}

/// Another grant of one consumer changes only what is reached downwards from its provider.
pub fn grants_change_below<C>()
    ensures { GrantsChangeBelow C }
{}

/// A consumer of DEV or TASTE that comes with a grant: no count falls, and only those reached downwards rise, each by
/// the sum of what its consumers gain.
pub fn demand_comes<C>()
    ensures quietly { ComesQuietly C }
    ensures raises { ComingRaises C }
    ensures changes_below { ComingChangesBelow C }
    ensures keeps_below { ComingKeepsBelow C }
    ensures keeps_errors { ComingKeepsErrors C }
    ensures providers { ComingProvidersGain C }
    ensures consumers { ComingConsumersGain C }
{}

/// A consumer of DEV or TASTE that goes with its grant: no count rises, and only those reached downwards fall, each
/// by the sum of what its consumers lose.
#[tactic(auto, using(crate::proofs::Openers::demand_goes))]
pub fn demand_goes<C>()
    ensures quietly { GoesQuietly C }
    ensures lowers { GoingLowers C }
    ensures changes_below { GoingChangesBelow C }
    ensures keeps_below { GoingKeepsBelow C }
    ensures providers { GoingProvidersLose C }
    ensures consumers { GoingConsumersLose C }
{}

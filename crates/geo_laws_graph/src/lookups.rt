//! Laws of look-ups, for any configuration of a class.
ghost use Rattle.geo_laws_graph.specs.LookupLaws.{AddedConsumerIsFound, AddedGeomIsFound, AddedProviderIsFound, AttachedIsFound, ConfigIsFound, DetachedIsFound, EachIsFound, ErrorIsFound, MarksAreFound, PartsStayAlive, RemovedConsumerIsGone, RemovedGeomIsGone, RemovedProviderIsGone, SeenGeomIsFound, SizeIsFound, SoundIsInOrder, StartIsFound, SteadyPartsLive, TwoChangesAreOne, WalksMeetAll, WhatIsFoundLives, WitheringIsFound};

/// In lists in order of numbers each thing is what is found at its number.
pub fn each_is_found<C>()
    ensures { EachIsFound C }
{}

/// A new thing is found at its number, and all others as before.
pub fn added_is_found<C>()
    ensures geom { AddedGeomIsFound C }
    ensures provider { AddedProviderIsFound C }
    ensures consumer { AddedConsumerIsFound C }
{}

/// A thing that is removed isn't found any more, and all others are as before.
pub fn removed_is_gone<C>()
    ensures geom { RemovedGeomIsGone C }
    ensures provider { RemovedProviderIsGone C }
    ensures consumer { RemovedConsumerIsGone C }
{}

/// A consumer that is attached, detached or marked is found so, and all others as before.
pub fn changed_consumer_is_found<C>()
    ensures attached { AttachedIsFound C }
    ensures detached { DetachedIsFound C }
    ensures marks { MarksAreFound C }
{}

/// A consumer that is made and attached is made attached, and one that is detached and removed is removed.
pub fn two_changes_are_one<C>()
    ensures { TwoChangesAreOne C }
{}

/// A provider with an error is found so, and all others as before.
pub fn error_is_found<C>()
    ensures { ErrorIsFound C }
{}

/// A provider of another media size is found so; errors, names and all others are as before.
#[tactic(auto, using(crate::proofs::Found::size_found))]
pub fn size_is_found<C>()
    ensures { SizeIsFound C }
{}

/// A geom that withers, is configured anew or starts a request is found so, and all others as before.
pub fn changed_geom_is_found<C>()
    ensures withering { WitheringIsFound C }
    ensures config { ConfigIsFound C }
    ensures started { StartIsFound C }
{}

/// In a graph whose configurations are seen otherwise each geom is found so.
#[tactic(auto, using(crate::proofs::Found::seen_found))]
pub fn seen_geom_is_found<C, D>()
    ensures { SeenGeomIsFound C D }
{}

/// A walk over a list in order of numbers, each time to the first number that isn't below one more than the last,
/// meets each item once.
pub fn walks_meet_all<X>()
    ensures { WalksMeetAll X }
{}

/// What a look-up finds lives, and what is found by a name has it.
#[tactic(auto, using(crate::proofs::Finding::found_lives))]
pub fn found_lives<C>()
    ensures { WhatIsFoundLives C }
{}

/// What the parts of the graph name goes on living.
pub fn parts_stay_alive<C>()
    ensures { PartsStayAlive C }
{}

/// A sound world's lists stand in order, and what the parts of a steady one name lives.
pub fn sound_graphs_are_in_order()
    ensures order { SoundIsInOrder }
    ensures parts { SteadyPartsLive }
{}

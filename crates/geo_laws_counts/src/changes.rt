//! Laws of the changes of one thing that leave all counts as they are.
ghost use Rattle.geo_laws_counts.specs.ChangeLaws.{ConfigsAreNotSeen, ErrorsAreNotSeen, GoneGeomsChangeNothing, GoneProvidersChangeNothing, GrantsOfConsumers, MarksAreNotSeen, NewConsumersChangeNothing, NewGeomsChangeNothing, NewProvidersChangeNothing, NextNumbersAreNotSeen, OtherConfigsAreNotSeen, QuietConsumersCome, QuietConsumersGo, QuietConsumersMove, SeenIsAll, SizesAreNotSeen, StartsAreNotSeen, WitheringIsNotSeen};

/// Demand depends on numbers, classes and who is attached where, and on nothing else of a graph.
#[tactic(auto, using(crate::proofs::Unseen::seen_stays, crate::proofs::Unseen::unseen_configs))]
pub fn seen_is_all<C, D>()
    ensures seen { SeenIsAll C D }
    ensures configs { OtherConfigsAreNotSeen C D }
{}

/// So errors, media sizes, withering, marks, configurations, started requests and the next numbers leave it.
#[tactic(auto, using(crate::proofs::Unseen::little_is_seen, crate::proofs::Unseen::seen_stays))]
pub fn little_is_seen<C>()
    ensures errors { ErrorsAreNotSeen C }
    ensures sizes { SizesAreNotSeen C }
    ensures withering { WitheringIsNotSeen C }
    ensures marks { MarksAreNotSeen C }
    ensures configs { ConfigsAreNotSeen C }
    ensures started { StartsAreNotSeen C }
    ensures numbers { NextNumbersAreNotSeen C }
{}

/// Only the grants of the consumers that stand matter.
#[tactic(auto, using(crate::proofs::Stays::grants_agree))]
pub fn grants_are_of_consumers<C>()
    ensures { GrantsOfConsumers C }
{}

/// Geoms without parts and providers with nothing attached come and go without any count changing.
#[tactic(auto, using(crate::proofs::Stays::geom_came, crate::proofs::Stays::provider_came, crate::proofs::Stays::provider_went))]
pub fn bare_parts_change_nothing<C>()
    ensures new_geom { NewGeomsChangeNothing C }
    ensures gone_geom { GoneGeomsChangeNothing C }
    ensures new_provider { NewProvidersChangeNothing C }
    ensures gone_provider { GoneProvidersChangeNothing C }
{}

/// Consumers that want nothing come, are attached and detached, and go without any count changing.
#[tactic(auto, using(crate::proofs::Stays::quiet_consumers_change_nothing))]
pub fn quiet_consumers_change_nothing<C>()
    ensures unattached { NewConsumersChangeNothing C }
    ensures come { QuietConsumersCome C }
    ensures attach { QuietConsumersMove C }
    ensures go { QuietConsumersGo C }
{}

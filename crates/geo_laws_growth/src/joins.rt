//! Laws of a consumer that joins a provider while its geom is open.
ghost use Rattle.geo_laws_growth.specs.JoinLaws.{JoiningChangesBelow, JoiningGains, JoiningKeepsBelow, JoiningRaises, JoiningRisesBelow, JoinsAreAllowed, JoinsWithoutLoop};

/// A consumer joins without a loop where its geom wouldn't reach itself.
#[tactic(auto, using(crate::proofs::Joining::joins_without_loop))]
pub fn joins_make_no_loop<C>()
    ensures { JoinsWithoutLoop C }
{}

/// With a consumer that joins no count and no want falls.
#[tactic(auto, using(crate::proofs::Joining::joining_raises))]
pub fn joining_raises<C>()
    ensures { JoiningRaises C }
{}

/// What is reached downwards from the provider stays the same.
#[tactic(auto, using(crate::proofs::JoiningBelow::joining_keeps_below))]
pub fn joining_keeps_below<C>()
    ensures { JoiningKeepsBelow C }
{}

/// Only what is reached downwards changes, and the consumer itself wants what it wanted.
#[tactic(auto, using(crate::proofs::JoiningBelow::joining_changes_below))]
pub fn joining_changes_below<C>()
    ensures { JoiningChangesBelow C }
{}

/// The provider gains the want of the consumer; each one below gains the sum of what its consumers gain, and a consumer
/// what its class makes of what its geom's providers gain.
#[tactic(auto, using(crate::proofs::JoiningGains::joining_gains))]
pub fn joining_gains<C>()
    ensures { JoiningGains C }
{}

/// What rises is reached downwards, and nothing falls.
#[tactic(auto, using(crate::proofs::JoiningAllowed::joining_rises_below))]
pub fn joining_rises_below<C>()
    ensures { JoiningRisesBelow C }
{}

/// A walk downwards from the provider decides what refuses a consumer that joins.
#[tactic(auto, using(crate::proofs::JoiningAllowed::joins_are_allowed))]
pub fn joins_are_allowed<C>()
    ensures { JoinsAreAllowed C }
{}

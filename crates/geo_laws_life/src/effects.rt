//! Effects of steps on a firm world.
ghost use Rattle.geo_laws_life.specs.EffectLaws.{AnnouncesKeepFirm, ChangesMakeLess, ErrorsKeepFirm, EventsKeepFirm, KillsKeepFirm, MarksKeepFirm, QueuesKeepFirm};

/// A graph comes to less by an error, by a geom that withers or starts a request, and by marks.
#[tactic(auto, using(crate::proofs::Less::changes_make_less))]
pub fn changes_make_less()
    ensures { ChangesMakeLess }
{}

/// A firm world stays firm with another queue of events of providers that live.
#[tactic(auto, using(crate::proofs::Begun::queues_keep))]
pub fn queues_keep_firm()
    ensures { QueuesKeepFirm }
{}

/// A firm world stays firm where handles become dead.
#[tactic(auto, using(crate::proofs::Begun::kills_keep))]
pub fn kills_keep_firm()
    ensures { KillsKeepFirm }
{}

/// A firm world stays firm where consumers are marked that aren't of DEV, and where marks are taken.
#[tactic(auto, using(crate::proofs::Begun::marks_keep))]
pub fn marks_keep_firm()
    ensures { MarksKeepFirm }
{}

/// A firm world stays firm where a provider that lives is orphaned, where a geom withers that isn't DEV or TASTE, and
/// where a geom starts a request.
#[tactic(auto, using(crate::proofs::Begun::errors_keep))]
pub fn errors_keep_firm()
    ensures { ErrorsKeepFirm }
{}

/// A firm world stays firm with what follows a change of write counts: offers for taste, spoils, and so after an open
/// and a close.
#[tactic(auto, using(crate::proofs::Begun::announces_keep))]
pub fn announces_keep_firm()
    ensures { AnnouncesKeepFirm }
{}

/// A firm world stays firm with what a spoil, an orphan and a resize do to the graph and the queue.
#[tactic(auto, using(crate::proofs::Begun::events_keep))]
pub fn events_keep_firm()
    ensures { EventsKeepFirm }
{}

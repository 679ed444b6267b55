//! Laws of events: a taste that begins, each event and the step of an event keep a firm world firm, one that is
//! sound, steady and fitting (g_event(9)).
ghost use Rattle.geo_laws_life.specs.EventLaws.{EventStepKeepsFirm};

/// A taste that begins, each event, and the step of an event keep a firm world firm.
#[tactic(auto, using(crate::proofs::Begun::event_step_keeps))]
pub fn event_steps_keep_firm()
    ensures { EventStepKeepsFirm }
{}

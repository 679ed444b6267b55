//! Laws of a handle that goes: a close and a reap leave a mesh sound, steady and fitting (g_access(9), g_detach(9)).
ghost use Rattle.geo_laws_handles.specs.CloseLaws.{ClosesStayFirm, ReapsStayFirm};

/// A firm mesh stays firm where a handle is closed.
#[tactic(auto, using(crate::proofs::Closed::closes_stay_firm))]
pub fn closes_stay_firm()
    ensures { ClosesStayFirm }
{}

/// A firm mesh stays firm where the consumer of a dead handle is reaped.
#[tactic(auto, using(crate::proofs::Reaped::reaps_stay_firm))]
pub fn reaps_stay_firm()
    ensures { ReapsStayFirm }
{}

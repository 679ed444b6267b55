//! Laws of washes: what goes was closed, detached and idle, and a firm world, one that is sound, steady and fitting,
//! stays firm (g_wither_geom(9)).
ghost use Rattle.geo_laws_life.specs.WashLaws.{WashStepKeepsFirm, WashesKeepFirm};

/// A firm world stays firm where a wash removes what it finds, which was closed, detached and idle.
#[tactic(auto, using(crate::proofs::Washed::washes_keep))]
pub fn washes_keep_firm()
    ensures { WashesKeepFirm }
{}

/// The step of a wash keeps a firm world firm, and what it destroys was closed, detached and idle.
#[tactic(auto, using(crate::proofs::Washed::wash_step_keeps))]
pub fn wash_steps_keep_firm()
    ensures { WashStepKeepsFirm }
{}

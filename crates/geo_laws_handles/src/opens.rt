//! Laws of an open: it leaves a mesh sound, steady and fitting, whatever it answers (g_access(9), g_attach(9)).
ghost use Rattle.geo_laws_handles.specs.OpenLaws.{OpensStayFirm};

/// A firm mesh stays firm where a provider is opened, and where an open is refused.
#[tactic(auto, using(crate::proofs::Opening::opens_stay_firm))]
pub fn opens_stay_firm()
    ensures { OpensStayFirm }
{}

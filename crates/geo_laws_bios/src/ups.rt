//! Laws of an Up: it leaves a mesh sound, steady and fitting (g_bio(9)).
ghost use Rattle.geo_laws_bios.specs.BioStepLaws.{BioStepsStayFirm};
ghost use Rattle.geo_laws_bios.specs.ServingLaws.{SourcesServeAll};
ghost use Rattle.geo_laws_bios.specs.UpLaws.{ChildUpsStayFirm, LineUpsStayFirm, TasteUpsStayFirm, UpsStayFirm};

/// Where the sources of the roots have the counts by other grants, the sources of all bios have them.
pub fn sources_serve_all()
    ensures { SourcesServeAll }
{}

/// A root of a line that is Up goes with its reply.
pub fn line_ups_stay_firm()
    ensures { LineUpsStayFirm }
{}

/// The root of a taste that is Up goes, and the taste has its result.
pub fn taste_ups_stay_firm()
    ensures { TasteUpsStayFirm }
{}

/// A child that is Up is Done; with the last of them their parent goes up with their joined results.
pub fn child_ups_stay_firm()
    ensures { ChildUpsStayFirm }
{}

/// A bio that is Up goes to its owner, or it isn't Up.
pub fn ups_stay_firm()
    ensures { UpsStayFirm }
{}

/// Start, Take, Deliver and Up leave a firm mesh firm, made by any seat, whether they are enabled or not.
#[tactic(auto, using(crate::proofs::BioSteps::bio_steps_stay_firm))]
pub fn bio_steps_stay_firm()
    ensures { BioStepsStayFirm }
{}

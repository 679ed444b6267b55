//! The law that a Start leaves a mesh sound, steady and fitting (g_bio(9)).
ghost use Rattle.geo_laws_bios.specs.StartLaws.{StartsStayFirm};

/// A bio is started, whichever way it goes, or it isn't Down.
pub fn starts_stay_firm()
    ensures { StartsStayFirm }
{}

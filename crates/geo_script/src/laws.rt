//! The laws of the grammar.
ghost use Rattle.geo_model.specs.FormatLaws.{RunsAgree, ScriptsArePlans};

/// The reader of a line takes just the texts of runs, and each for the bytes that it stands for.
pub fn runs_agree()
    ensures { RunsAgree }
{}

/// The plan of a script keeps the rules of plans.
pub fn scripts_are_plans()
    ensures { ScriptsArePlans }
{}

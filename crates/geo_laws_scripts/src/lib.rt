//! Laws of scripts: a plan is read back from the script that it is written as. There is no code: each contract is a
//! law.
//!
//! A plan that is written as a script, by a printer that follows the grammar and not the reader, is read back, each
//! field of each command in its place ([`plans_are_read`]). It is exactly where its commands stand behind its header,
//! and no `write`, `concat` or `stripe` makes a line that is too long ([`read_plans_have_room`]).
//!
//! Whether the words of a command have their forms can be computed ([`forms_are_tested`]), and geo_rows does so at each
//! moment of its runs.
//!
//! The program doesn't stand on this crate: it shows that the grammar forgets nothing. Read `specs/PlanTexts.antt`, the
//! printer, first.
#![tactic(auto)]

ghost use Rattle.geo_laws_scripts.specs.CommandForms.{TestsForms};
ghost use Rattle.geo_laws_scripts.specs.ScriptLaws.{PlansAreRead, ReadPlansHaveRoom};

/// A plan that is written as a script is read back, where its commands stand behind its header and no `write`, `concat`
/// or `stripe` makes a line that is too long.
#[tactic(auto, using(crate::proofs::PlansRead::plans_are_read))]
pub fn plans_are_read()
    ensures { PlansAreRead }
{}

/// No other plan is read back from its text.
#[tactic(auto, using(crate::proofs::PlansFit::read_plans_have_room))]
pub fn read_plans_have_room()
    ensures { ReadPlansHaveRoom }
{}

/// What commands are tested by is exactly that their words have their forms.
#[tactic(auto, using(crate::proofs::CommandForms::formed))]
pub fn forms_are_tested()
    ensures { TestsForms }
{}

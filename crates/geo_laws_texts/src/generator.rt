//! Laws of the generator: what is made from a number is a script of four disks, four actors, and six commands and so
//! many more.
ghost use Rattle.geo_laws_texts.specs.GeneratorLaws.{GeneratedPlans};

/// The text made from an admitted START and COUNT is a script; its plan has four disks, four actors, and the six
/// commands that come first before COUNT that are drawn.
#[tactic(auto, using(crate::proofs::Texts::generated_plans))]
pub fn generated_texts_are_scripts()
    ensures { GeneratedPlans }
{}

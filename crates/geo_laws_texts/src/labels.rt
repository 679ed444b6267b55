//! Laws of labels of both versions.
ghost use Rattle.geo_laws_texts.specs.LabelLaws.{LabelsAreJudged, VersionsMakeTheSame};

/// A label of version 1 is accepted, and one of version 2 exactly where it says the media size of the tasted provider;
/// else the cause is `Media`.
pub fn labels_are_judged()
    ensures { LabelsAreJudged }
{}

/// Accepted labels of one name make the same geom and the same provider, of whichever version they are.
#[tactic(auto, using(crate::proofs::LabelProofs::versions_make_the_same))]
pub fn versions_make_the_same()
    ensures { VersionsMakeTheSame }
{}

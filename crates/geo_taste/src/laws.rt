//! Where a taste may be judged.
ghost use Rattle.geo_taste.specs.Judging.{FirmMeshesJudge};

/// In a mesh that is sound, steady and fitting whatever a class accepts may be made.
#[tactic(auto, using(crate::proofs::Firm::firm_meshes_judge))]
pub fn firm_meshes_judge()
    ensures { FirmMeshesJudge }
{}

//! What is made is what the model makes.
ghost use Rattle.geo_taste.specs.FirmLaws.{FirmMeshesAccept};
ghost use Rattle.geo_taste.specs.MakingLaws.{MakesAsTheModel};

/// The graph and the events with what is made, seen without what else a mesh keeps, are those of the model.
#[tactic(auto, using(crate::proofs::ModelLemmas::makes_as_model))]
pub fn makes_as_the_model()
    ensures { MakesAsTheModel }
{}

/// In a mesh that is sound, steady and fitting a class may accept what it read.
#[tactic(auto, using(crate::proofs::Firm::firm_meshes_accept))]
pub fn firm_meshes_accept()
    ensures { FirmMeshesAccept }
{}

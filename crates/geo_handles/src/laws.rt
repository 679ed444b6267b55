//! What is said of a list of handles is what the mesh's definitions say.
ghost use Rattle.geo_model.specs.World.{World, Handle};
ghost use Rattle.std.specs.Prelude.{Bool, List};
ghost use Rattle.geo_handles.specs.HandleLaws.{HandlesAreOfWorld, NotesFollow};

/// What is found and changed among the handles is what the mesh's definitions find and change in a world that has
/// them.
#[tactic(auto, using(crate::proofs::HandleLawLemmas::handles_are_of_world))]
pub fn handles_are_of_world()
    ensures { (w : World) → HandlesAreOfWorld w }
{}

/// Notes that are what a test says of each handle stay so after each change.
#[tactic(auto, using(crate::proofs::HandleLawLemmas::notes_follow))]
pub fn notes_follow()
    ensures { (test : Handle → Bool) (handles : List Handle) → NotesFollow test handles }
{}

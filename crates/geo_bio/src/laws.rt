//! What the table does is what the mesh's definitions do.
ghost use Rattle.geo_bio.specs.PieceLaws.{ChildrenAreOfPieces};

/// The children of a split are those that the mesh's definitions make of its pieces.
#[tactic(auto, using(crate::proofs::PieceLemmas::children_are_of_pieces))]
pub fn children_are_of_pieces()
    ensures { ChildrenAreOfPieces }
{}

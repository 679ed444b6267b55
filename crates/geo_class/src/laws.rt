//! What callers know of soundness tells what the functions here ask, and what these say is the model's.
ghost use Rattle.geo_class.specs.Cover.{WhatLiesIsCovered};
ghost use Rattle.geo_class.specs.Targets.{FlushesGoThrough, PiecesGoThrough};
ghost use Rattle.geo_class.specs.Following.{TastesFollow};

/// A provider whose offsets have places, of a geom that has no free place, is covered by its geom's map.
#[tactic(auto, using(crate::proofs::CoverLemmas::what_lies_is_covered))]
pub fn what_lies_is_covered()
    ensures { WhatLiesIsCovered }
{}

/// What judging the sector that is back makes of a taste is what the model's step makes of it.
#[tactic(auto, using(crate::proofs::TasteLemmas::tastes_follow))]
pub fn tastes_follow()
    ensures { TastesFollow }
{}

/// A FLUSH goes once through each component.
pub fn flushes_go_through<R>()
    ensures { FlushesGoThrough R }
{}

/// Another bio goes through the consumers of its pieces.
#[tactic(auto, using(crate::proofs::TargetLemmas::pieces_go_through))]
pub fn pieces_go_through<R>()
    ensures { PiecesGoThrough R }
{}

//! The whole log, by the numbers of the passes.
ghost use Rattle.geo_lock.specs.Whole.{EachIsOwn};

use crate::logged::Logged;

/// Where each pass is good in a log, and each entry has the number of a pass, as [`Yard::close`](crate::Yard::close)
/// tells of the whole log, each entry is an own entry of the pass whose number is its seat.
#[tactic(auto, using(crate::proofs::EachOwn::each_is_own))]
pub fn each_entry_is_own<L: Logged>()
    ensures { EachIsOwn L.Start L.Entry L.seat_of }
{}

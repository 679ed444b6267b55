//! One step under the lock.
ghost use Rattle.geo_lock.specs.Yard.{IsPassOf};
ghost use Rattle.geo_jobs.specs.Passes.{IsGoodPass};
ghost use Rattle.geo_jobs.specs.Making.{DidTry};

use geo_core::{ApplyRefusal, Mesh};
use geo_lock::{Pass, Yard};
use geo_model::{Found, Outcome, Step};
use std::sync::Wait;

/// How a step went that was tried.
#[derive(Debug, Drop)]
pub enum Tried {
    /// It was made, with this outcome.
    Made(Outcome),
    /// It isn't enabled, and this was found.
    NotEnabled(Found),
    /// It is enabled, and has no place in the log.
    LogFull,
    /// Memory was wanting.
    NoMemory,
}

/// Tries a step under the lock, as the seat of the pass. It waits for the turn. A step that is made stands in the log
/// behind all that the pass had seen, and ends what it has seen now. Another one adds nothing, and is answered by what
/// the pass has seen now; `NoMemory` never comes to a step that takes no memory.
#[tactic(auto, using(crate::proofs::Trying::made_tells, crate::proofs::Trying::found_tells, crate::proofs::Trying::full_tells, crate::proofs::Trying::want_tells))]
pub fn try_step<R: Wait>(rt: &R, yard: &Yard<Mesh>, pass: &mut Pass<Mesh>, step: Step) -> Tried
    requires own { IsPassOf yard.now pass.old }
    ensures did { DidTry yard.now.start pass.old pass.new step result }
    ensures good { IsGoodPass pass.new }
{
    match yard.apply(rt, pass, step) {
        Ok(outcome) => Tried::Made(outcome),
        Err(ApplyRefusal::NotEnabled { found }) => Tried::NotEnabled(found),
        Err(ApplyRefusal::LogFull) => Tried::LogFull,
        Err(ApplyRefusal::NoMemory) => Tried::NoMemory,
    }
}

//! A bio that is taken for its disk, and the answer that is delivered.
ghost use Rattle.geo_model.specs.declared.step.Outcome.TheVariants as outcomes;
ghost use Rattle.geo_model.specs.declared.step.Step.TheVariants as steps;
ghost use Rattle.geo_lock.specs.Yard.{IsPassOf};
ghost use Rattle.geo_jobs.specs.Passes.{IsGoodPass};
ghost use Rattle.geo_jobs.specs.Taking.{CanDeliver, DidTake};
ghost use Rattle.geo_jobs.specs.Making.{MakesStep};

use crate::tried::{Tried, try_step};
use geo_base::BioId;
use geo_core::Mesh;
use geo_lock::{Pass, Yard};
use geo_model::{DeviceResult, Outcome, Request, Step};
use std::sync::Wait;

/// How a Take went.
#[derive(Debug, Drop)]
pub enum Taken {
    /// The bio was taken, and this is what its disk is asked.
    Asked(Request),
    /// It can't be taken for this disk.
    NotEnabled,
    /// The Take has no place in the log.
    LogFull,
    /// Memory was wanting.
    NoMemory,
}

/// Takes a bio for a disk, as the seat of the pass. It waits for the turn. Each drive of the disk's sizes can serve the
/// request.
#[tactic(auto, using(crate::proofs::Asking::takes_ask, crate::proofs::Asking::asked_of))]
pub fn take<R: Wait>(
    rt: &R,
    yard: &Yard<Mesh>,
    pass: &mut Pass<Mesh>,
    disk: u32,
    bio: BioId,
) -> Taken
    requires own { IsPassOf yard.now pass.old }
    ensures did { DidTake yard.now.start pass.old pass.new disk bio result }
    ensures good { IsGoodPass pass.new }
{
    match try_step(rt, yard, pass, Step::Take { disk, bio }) {
        Tried::Made(Outcome::Asked(request)) => Taken::Asked(request),
        Tried::Made(_) => unreachable!(),
        Tried::NotEnabled(_) => Taken::NotEnabled,
        Tried::LogFull => Taken::LogFull,
        Tried::NoMemory => Taken::NoMemory,
    }
}

/// Delivers what a disk answered to a bio, as the seat of the pass, whose last own entry is the Take of the bio. It
/// waits for the turn, and is never refused, whatever other seats did since the Take.
#[tactic(auto, using(crate::proofs::Delivering::delivers_deliver))]
pub fn deliver<R: Wait>(
    rt: &R,
    yard: &Yard<Mesh>,
    pass: &mut Pass<Mesh>,
    bio: BioId,
    got: DeviceResult,
)
    requires own { IsPassOf yard.now pass.old }
    requires taken { CanDeliver yard.now.start pass.old bio got }
    ensures made { MakesStep yard.now.start pass.old pass.new (steps.Deliver bio got) outcomes.Delivered }
    ensures good { IsGoodPass pass.new }
{
    match try_step(rt, yard, pass, Step::Deliver { bio, got }) {
        Tried::Made(Outcome::Delivered) => {}
        Tried::Made(_) => unreachable!(),
        Tried::NotEnabled(_) => unreachable!(),
        Tried::LogFull => unreachable!(),
        Tried::NoMemory => unreachable!(),
    }
}

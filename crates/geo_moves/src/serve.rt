//! A request at its disk (g_bio(9)).
ghost use Rattle.std.specs.Prelude.{ℕ, ◌≡◌, None, Ok, [], ◌∷◌, ◌++◌, List, IfOk, OnErr};
ghost use Rattle.geo_model.specs.declared.command.LineCommand.{LineCommand};
ghost use Rattle.geo_model.specs.declared.step.Entry.{Entry};
ghost use Rattle.geo_model.specs.declared.step.Step.TheVariants as steps;
ghost use Rattle.geo_model.specs.World.{bio_at};
ghost use Rattle.geo_model.specs.Step.{take_of, deliver_of};
ghost use Rattle.geo_state.specs.Holds.{Holds};
ghost use Rattle.geo_state.specs.World.{HasBytes, world};
ghost use Rattle.geo_state.specs.Steps.{Stands, IsAgainst, Makes, SameWorld};
ghost use Rattle.geo_state.specs.Shown.{errno_of, held_of};

use crate::disk::{disk_of, request_of};
use geo_base::{BioId, Errno, NoMemory};
use geo_bio::Held;
use geo_log::Log;
use geo_model::{DeviceResult, Outcome};
use geo_state::{State, set_busy};
use std::alloc::Global;

/// A seat takes a bio for its disk, against which nothing is, and learns what is asked. Where memory is wanting all
/// stays.
pub fn take(
    alloc: Global,
    state: &mut State,
    seat: u32,
    disk: u32,
    bio: BioId,
) -> Result<Outcome, NoMemory>
    requires stands { Stands state.old }
    requires enabled { IsAgainst (λ w. take_of w seat disk (bio_at w bio)) state.old None }
    ensures made { (log : List Entry) → IfOk result (λ o.
        Makes (λ w. take_of w seat disk (bio_at w bio)) log state.old state.new o) }
    ensures kept { Holds state.new }
    ensures same { OnErr result (SameWorld state.old state.new) }
    ensures logged { (log : List Entry) → HasBytes log state.old → HasBytes log state.new }
{
    let request = request_of(alloc, &state.topo, &state.traffic, disk, bio)?;
    state.traffic.take(bio, seat);
    set_busy(state, disk, Some(bio));
    Ok(Outcome::Asked(request))
}

/// A seat delivers what the disk answered, against which nothing is: the bio goes up. A READ's bytes are those of the
/// log's next entry, which has to be this Deliver. It takes no memory.
pub fn deliver(state: &mut State, log: &Log, seat: u32, bio: BioId, got: &DeviceResult)
    requires stands { Stands state.old }
    requires enabled { IsAgainst (λ w. deliver_of w seat got.now (bio_at w bio)) state.old None }
    requires logged { HasBytes log.now.items state.old }
    ensures made { (e : Entry) → e.step ≡ steps.Deliver bio got.now → (actors : List (List LineCommand))
        → deliver_of (world actors log.now.items state.old) seat got.now
        (bio_at (world actors log.now.items state.old) bio)
        ≡ Ok (world actors (log.now.items ++ e ∷ []) state.new, Outcome.Delivered) }
    ensures kept { Holds state.new }
    ensures logged { (e : Entry) → HasBytes (log.now.items ++ e ∷ []) state.new }
{
    match disk_of(&state.topo, &state.traffic, bio) {
        Some(disk) => {
            state.traffic.deliver(bio, log.len(), errno_of(got));
            set_busy(state, disk, None);
        }
        None => {}
    }
}

/// A seat delivers what the disk answered, against which nothing is, where no log keeps it: the bio goes up, and holds
/// a READ's bytes itself, which are moved. It takes no memory and is never refused.
pub fn deliver_kept(state: &mut State, seat: u32, bio: BioId, got: DeviceResult)
    requires stands { Stands state.old }
    requires enabled { IsAgainst (λ w. deliver_of w seat got (bio_at w bio)) state.old None }
    ensures made { (log : List Entry)
        → Makes (λ w. deliver_of w seat got (bio_at w bio)) log state.old state.new Outcome.Delivered }
    ensures kept { Holds state.new }
    ensures logged { (log : List Entry) → HasBytes log state.old → HasBytes log state.new }
{
    match disk_of(&state.topo, &state.traffic, bio) {
        Some(disk) => {
            state.traffic.end(bio, held_of(got));
            set_busy(state, disk, None);
        }
        None => {}
    }
}

// What a bio holds of a disk's answer.
fn held_of(got: DeviceResult) -> Held
    ensures { result ≡ held_of got }
{
    match got {
        DeviceResult::Bytes(bytes) => Held::Bytes(bytes),
        DeviceResult::Done => Held::Done,
        DeviceResult::Failed { .. } => Held::Failed(Errno::EIO),
    }
}

// The error that a disk's answer brings to its bio.
fn errno_of(got: &DeviceResult) -> Option<Errno>
    ensures { result ≡ errno_of got.now }
{
    match got {
        DeviceResult::Failed { .. } => Some(Errno::EIO),
        _ => None,
    }
}

//! What is against a step of a request.
ghost use Rattle.std.specs.Prelude.{ℕ, ◌≡◌};
ghost use Rattle.geo_model.specs.World.{bio_at};
ghost use Rattle.geo_model.specs.Bios.{disk_at};
ghost use Rattle.geo_model.specs.Step.{start_of, take_of, deliver_of, up_of};
ghost use Rattle.geo_bio.specs.Rows.{as_bio};
ghost use Rattle.geo_state.specs.Steps.{Stands, IsAgainst};
ghost use Rattle.geo_moves.specs.Founds.{way_found, busy_found};

use crate::disk::{disk_at, fits, sector_at};
use geo_base::{BioId, ProvId};
use geo_bio::Bio;
use geo_class::Config;
use geo_mesh::Topo;
use geo_model::{DeviceResult, Found, Phase};
use geo_state::{DiskSeat, State};

/// What is against a Start of a bio, if anything is.
#[tactic(auto, using(crate::proofs::Against::start_against))]
pub fn start_found(state: &State, bio: BioId) -> Option<Found>
    ensures { IsAgainst (λ w. start_of w (bio_at w bio)) state.now result }
{
    match state.traffic.get(bio) {
        Some(found) => match found.phase {
            Phase::Down => None,
            phase => Some(Found::InPhase(phase)),
        },
        None => Some(Found::NoSuchBio),
    }
}

/// What is against a Take of a bio for a disk, if anything is.
#[tactic(auto, using(crate::proofs::Against::takes_against))]
pub fn take_found(state: &State, disk: u32, bio: BioId) -> Option<Found>
    requires stands { Stands state.now }
    ensures { (seat : ℕ) → IsAgainst (λ w. take_of w seat disk (bio_at w bio)) state.now result }
{
    match state.traffic.get(bio) {
        Some(found) => match found.phase {
            Phase::Sent => way_found(&state.topo, &state.disks, disk, found.to),
            phase => Some(Found::InPhase(phase)),
        },
        None => Some(Found::NoSuchBio),
    }
}

/// What is against a Deliver of a device's answer by a seat, if anything is.
#[tactic(auto, using(crate::proofs::Against::delivers_against))]
pub fn deliver_found(state: &State, seat: u32, bio: BioId, got: &DeviceResult) -> Option<Found>
    ensures { IsAgainst (λ w. deliver_of w seat got.now (bio_at w bio)) state.now result }
{
    match state.traffic.get(bio) {
        Some(found) => match found.phase {
            Phase::Busy(holder) => holder_found(&state.topo, holder, seat, found, got),
            phase => Some(Found::InPhase(phase)),
        },
        None => Some(Found::NoSuchBio),
    }
}

/// What is against an Up of a bio, if anything is.
#[tactic(auto, using(crate::proofs::Against::up_against))]
pub fn up_found(state: &State, bio: BioId) -> Option<Found>
    ensures { IsAgainst (λ w. up_of w (bio_at w bio)) state.now result }
{
    match state.traffic.get(bio) {
        Some(found) => match found.phase {
            Phase::Up => None,
            phase => Some(Found::InPhase(phase)),
        },
        None => Some(Found::NoSuchBio),
    }
}

// What is against a Take of a Sent bio that goes to the provider: its disk is another one, or a request is there.
fn way_found(topo: &Topo<Config>, seats: &Vec<DiskSeat>, disk: u32, to: ProvId) -> Option<Found>
    ensures { result ≡ way_found seats.now.items disk Phase.Sent (disk_at topo.now.topology to) }
{
    let Some(other) = disk_at(topo, to) else {
        return Some(Found::InPhase(Phase::Sent));
    };
    if other != disk {
        return Some(Found::OtherDisk { disk: other });
    }
    match seats.get(disk as usize) {
        Some(seat) => match seat.busy {
            Some(bio) => Some(Found::DiskBusy { bio }),
            None => None,
        },
        None => None,
    }
}

// What is against a Deliver by a seat of a bio that a seat has.
fn holder_found(
    topo: &Topo<Config>,
    holder: u32,
    seat: u32,
    bio: &Bio,
    got: &DeviceResult,
) -> Option<Found>
    ensures { result ≡ busy_found topo.now.topology seat (as_bio 0 bio.now) got.now (Phase.Busy holder) }
{
    if holder != seat {
        return Some(Found::OtherSeat { seat: holder });
    }
    if fits(sector_at(topo, bio.to), bio, got) {
        None
    } else {
        Some(Found::Unfit)
    }
}

//! The first request of an actor's own lines.
ghost use Rattle.std.specs.Prelude.{◌≡◌, ◌==◌, ◌<◌, ◌^◌, false, slice_get};
ghost use Rattle.std.specs.Option.{option_map_or};
ghost use Rattle.geo_handles.specs.Handles.{handle_at};
ghost use Rattle.geo_state.specs.Holds.{Holds};
ghost use Rattle.geo_state.specs.Oldest.{passes, first_passing};
ghost use Rattle.geo_state.specs.Trips.{trips, trip_of, handle_of_owner, is_own, own_first};

use crate::Traffic;
use crate::state::{OwnBios, State};
use geo_base::{BioId, HandleId};
use geo_handles::Handles;
use geo_model::Owner;

/// The first request of the actor's own lines that is out: what a sync waits for. It is looked for from the number on
/// below which there is none, if that is kept of the actor, else among all.
pub fn own_bio(state: &State, actor: u32) -> Option<BioId>
    requires kept { Holds state.now }
    ensures { result ≡ own_first state.now.handles.handles (trips state.now.traffic.bios) actor }
{
    let Some(own) = own_of(&state.own, actor) else {
        return first_own(&state.traffic, &state.handles, actor, 0);
    };
    if own.count == 0 {
        return None;
    }
    first_own(&state.traffic, &state.handles, actor, own.low)
}

// What is kept of the actor's own requests, if there is the actor.
fn own_of(own: &Vec<OwnBios>, actor: u32) -> Option<OwnBios>
    ensures { result ≡ slice_get own.now.items actor }
{
    own.get(actor as usize).copied()
}

// The first request of the actor's own lines, from a number on.
fn first_own(traffic: &Traffic, handles: &Handles, actor: u32, low: u64) -> Option<BioId>
    ensures { result ≡ first_passing (λ x. is_own handles.now.handles actor (trip_of x)) traffic.now.bios low }
{
    let mut from = low;
    while let Some(bio) = traffic.next_from(from) {
        if is_own(traffic, handles, actor, bio) {
            return Some(bio);
        }
        from = bio.number() + 1;
    }
    None
}

// Whether the bio of a number is there, and is of a line of the actor.
fn is_own(traffic: &Traffic, handles: &Handles, actor: u32, bio: BioId) -> bool
    ensures own { result ≡ passes (λ x. is_own handles.now.handles actor (trip_of x)) traffic.now.bios bio }
    ensures bound { traffic.now.next < 2 ^ 64 }
{
    match traffic.get(bio) {
        Some(found) => is_owners(handles, actor, found.owner),
        None => false,
    }
}

// Whether the handle of an owner, if it is a line, is the actor's.
#[tactic(auto, using(crate::proofs::Walks::owner_line, crate::proofs::Walks::owner_taste, crate::proofs::Walks::owner_child))]
fn is_owners(handles: &Handles, actor: u32, owner: Owner) -> bool
    ensures { result ≡ option_map_or (λ h. h.actor == actor) (handle_of_owner handles.now.handles owner) false }
{
    match owner {
        Owner::Line { handle, .. } => is_actors(handles, actor, handle),
        Owner::Taste => false,
        Owner::Child { .. } => false,
    }
}

// Whether the handle is there and is the actor's.
fn is_actors(handles: &Handles, actor: u32, handle: HandleId) -> bool
    ensures { result ≡ option_map_or (λ h. h.actor == actor) (handle_at handles.now.handles handle) false }
{
    match handles.get(handle) {
        Some(asker) => asker.actor == actor,
        None => false,
    }
}

//! What a disk can be asked for next.
ghost use Rattle.std.specs.Prelude.{◌≡◌, ◌<◌, ◌^◌, List, None, IfSome, if◌then◌else◌};
ghost use Rattle.geo_model.specs.declared.command.LineCommand.{LineCommand};
ghost use Rattle.geo_model.specs.declared.step.Entry.{Entry};
ghost use Rattle.geo_model.specs.Bios.{disk_of_bio};
ghost use Rattle.geo_model.specs.Order.{first_bio, is_to_take, take_step};
ghost use Rattle.geo_model.specs.World.{bio_at};
ghost use Rattle.geo_bio.specs.BioTable.{AreInOrder};
ghost use Rattle.geo_state.specs.Steps.{Stands};
ghost use Rattle.geo_state.specs.World.{world};

use geo_base::BioId;
use geo_model::Step;
use geo_moves::{disk_of, take_found};
use geo_state::State;

/// The Take of the smallest bio that can be taken: it is Sent, and no bio of its disk is Busy.
pub fn first_to_take(state: &State) -> Option<Step>
    requires stands { Stands state.now }
    ensures { (actors : List (List LineCommand)) (log : List Entry) → result
        ≡ first_bio (world actors log state.now) (is_to_take (world actors log state.now))
        (take_step (world actors log state.now)) }
{
    let mut from = 0;
    while let Some(bio) = state.traffic.next_from(from) {
        if let Some(disk) = free_disk(state, bio) {
            return Some(Step::Take { disk, bio });
        }
        from = bio.number() + 1;
    }
    None
}

// The disk of a bio, if it can be taken there.
fn free_disk(state: &State, bio: BioId) -> Option<u32>
    requires stands { Stands state.now }
    ensures disk { (actors : List (List LineCommand)) (log : List Entry)
        → IfSome (bio_at (world actors log state.now) bio) (λ x. result
        ≡ (if is_to_take (world actors log state.now) x then disk_of_bio (world actors log state.now) x else None)) }
    ensures in_order { AreInOrder state.now.traffic }
    ensures bound { state.now.traffic.next < 2 ^ 64 }
{
    // The table tells that its numbers are in order.
    let _found = state.traffic.get(bio);
    let Some(disk) = disk_of(&state.topo, &state.traffic, bio) else {
        return None;
    };
    if take_found(state, disk, bio).is_some() {
        return None;
    }
    Some(disk)
}

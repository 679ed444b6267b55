//! A request goes up to its owner (g_io_deliver, g_bio(9)).
ghost use Rattle.std.specs.Prelude.{◌≡◌, ◌-◌, ◌≤◌, IsSome, IfSome, IfOk, OnOk, OnErr, IsTrue, option_map};
ghost use Rattle.geo_model.specs.Topology.{consumer_at};
ghost use Rattle.geo_model.specs.World.{is_up, bio_among};
ghost use Rattle.geo_bio.specs.BioTable.{has_phase};
ghost use Rattle.geo_bio.specs.Up.{told_of_up, after_up};
ghost use Rattle.geo_slots.specs.Slots.{value_at};
ghost use Rattle.geo_mesh.specs.Topo.{with_active};
ghost use Rattle.geo_handles.specs.Handles.{HoldsAlone, holding_handle};
ghost use Rattle.geo_state.specs.Holds.{Holds};
ghost use Rattle.geo_state.specs.Ready.{refreshed};
ghost use Rattle.geo_state.specs.Bios.{OnlyBios, CameThrough, CanLeave, own_after, taste_read_after};

use crate::handles::refresh;
use crate::own::leave;
use crate::state::State;
use crate::{LogBytes, Risen};
use geo_base::{BioId, ConsId, NoMemory};
use geo_model::Owner;
use std::alloc::Global;

/// A bio goes up to its owner. A child counts in its parent; the last one gives it the first error in the order of the
/// pieces, else the bytes joined in this order, and the children are gone. A root is gone, and its result is handed
/// on; no more is kept of it.
pub fn up<B: LogBytes>(
    state: &mut State,
    alloc: Global,
    bio: BioId,
    log: &B,
) -> Result<Risen, NoMemory>
    requires kept { Holds state.old }
    requires up { IsTrue (has_phase is_up state.old.traffic.bios bio) }
    requires came { CameThrough state.old bio }
    ensures told { IfSome (bio_among state.old.traffic.bios bio) (λ x. IfOk result (λ risen.
        risen ≡ told_of_up (B.place_bytes log.now) state.old.traffic.bios x x.owner)) }
    ensures rises { IfSome (bio_among state.old.traffic.bios bio) (λ x. OnOk result
        (state.new.traffic.bios ≡ after_up (B.place_bytes log.now) state.old.traffic.bios x x.owner)) }
    ensures bios_stay { OnErr result (state.new.traffic.bios ≡ state.old.traffic.bios) }
    ensures next_stays { state.new.traffic.next ≡ state.old.traffic.next }
    ensures only { OnlyBios state.old state.new }
    ensures kept { Holds state.new }
{
    let Some(found) = state.traffic.get(bio) else {
        unreachable!()
    };
    let from = found.from;
    let owner = found.owner;
    let risen = state.traffic.up(alloc, bio, log)?;
    come_back(state, from, owner);
    Ok(risen)
}

// A request of this owner is out through the consumer no more: one of an actor's lines, the taste's read, or a child.
fn come_back(state: &mut State, from: ConsId, owner: Owner)
    requires lives { IsSome (consumer_at state.old.topo.topology from) }
    requires some_out { IfSome (value_at state.old.topo.active from) (λ n. 1 ≤ n) }
    requires own { CanLeave state.old owner }
    ensures own { state.new.own.items ≡ own_after state.old owner }
    ensures read { state.new.read ≡ taste_read_after state.old owner }
    ensures alone { HoldsAlone state.old.handles.handles from
        (option_map (λ h. h.number) (holding_handle state.old.handles.handles from)) }
    ensures rest { state.new ≡ record state.old {
      topo = with_active state.old.topo from (λ n. n - 1);
      handles = record state.old.handles {
        ready = refreshed state.old.handles (with_active state.old.topo from (λ n. n - 1)) from;
      };
      own = state.new.own;
      read = state.new.read;
    } }
{
    state.topo.note_back(from);
    refresh(&mut state.handles, &state.topo, from);
    match owner {
        Owner::Line { handle, .. } => {
            if let Some(found) = state.handles.get(handle) {
                let actor = found.actor;
                leave(&mut state.own, actor);
            }
        }
        Owner::Taste => state.read = None,
        Owner::Child { .. } => {}
    }
}

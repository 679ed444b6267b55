//! The state in which nothing was done yet, and room for events and requests.
ghost use Rattle.std.specs.Prelude.{◌≡◌, ◌+◌, ◌*◌, ◌≤◌, length, IfOk, IsOk, OnOk};
ghost use Rattle.std.specs.List.{AllByRecursion};
ghost use Rattle.geo_state.specs.declared.state.DiskSeat.{DiskSeat as DiskSeatValue};
ghost use Rattle.geo_state.specs.declared.state.OwnBios.{OwnBios as OwnBiosValue};
ghost use Rattle.geo_state.specs.Holds.{Holds};
ghost use Rattle.geo_state.specs.Opening.{IsEmpty, IsFreeSeat};

use crate::Traffic;
use crate::state::{DiskSeat, OwnBios, State};
use geo_base::NoMemory;
use geo_class::Config;
use geo_event::EventQueue;
use geo_handles::Handles;
use geo_mesh::Topo;
use std::alloc::Global;

/// More providers than so many can't be counted.
const MOST_PROVIDERS: u64 = 0x1000_0000_0000_0000;

/// Places of the queue for the events of the providers that a step makes, of which a partition table makes 32.
const PLACES: u64 = 128;

/// The state before any disk stands: DEV and TASTE alone, no handle, no request and no event, with these disks and
/// actors.
pub fn empty(alloc: Global, disks: Vec<DiskSeat>, own: Vec<OwnBios>) -> Result<State, NoMemory>
    requires free { AllByRecursion IsFreeSeat disks.items }
    requires none_out { AllByRecursion (λ (x : OwnBiosValue). x.count ≡ 0) own.items }
    ensures empty { IfOk result (λ s. IsEmpty s disks.items own.items) }
    ensures kept { IfOk result (λ s. Holds s) }
{
    let handles = Handles::new(alloc)?;
    let queue = EventQueue::new(alloc);
    let traffic = Traffic::new(alloc);
    let dev = Config::nothing();
    let tasting = Config::nothing();
    let topo = Topo::new(alloc, dev, tasting)?;
    Ok(State {
        topo,
        queue,
        handles,
        traffic,
        taste: None,
        read: None,
        disks,
        own,
        providers: 0,
    })
}

/// Makes room in the queue for all events that a step may post, and for those that are owed then. After want of memory
/// the room is no less than it was.
pub fn reserve_events(state: &mut State) -> Result<(), NoMemory>
    requires kept { Holds state.old }
    ensures room { OnOk result (3 * length state.old.topo.topology.providers + 128 ≤ state.new.queue.spare) }
    ensures events_stay { state.new.queue.events ≡ state.old.queue.events }
    ensures rest { state.new ≡ record state.old { queue = state.new.queue } }
    ensures kept { Holds state.new }
{
    if state.providers >= MOST_PROVIDERS {
        return Err(NoMemory);
    }
    state.queue.reserve(3 * state.providers + PLACES)
}

/// Makes room for one more request. After want of memory the room is no less than it was.
pub fn reserve_bio(state: &mut State) -> Result<(), NoMemory>
    requires kept { Holds state.old }
    ensures room { OnOk result (1 ≤ state.new.traffic.spare) }
    ensures had_room { 1 ≤ state.old.traffic.spare → IsOk result }
    ensures room_stays { state.old.traffic.spare ≤ state.new.traffic.spare }
    ensures rest { state.new ≡ record state.old {
      traffic = record state.old.traffic { spare = state.new.traffic.spare };
    } }
    ensures kept { Holds state.new }
{
    state.traffic.reserve(1)
}

//! What a plan begins: the disks of its header that don't come later stand, in header order.
ghost use Rattle.std.specs.Prelude.{◌≡◌, ◌+◌, ◌<◌, length, map, zip, slice_get, IfSome, IfOk, OnOk};
ghost use Rattle.std.specs.List.{AllByRecursion, AllZip};
ghost use Rattle.geo_model.specs.Opening.{opening, disk_in_size};
ghost use Rattle.geo_model.specs.Plans.{IsPlan, IsFact, FactsFit};
ghost use Rattle.geo_state.specs.declared.state.OwnBios.{OwnBios as OwnBiosValue};
ghost use Rattle.geo_state.specs.Opening.{IsFreeSeat};
ghost use Rattle.geo_state.specs.World.{disk_of_seat};
ghost use Rattle.geo_moves.specs.Openings.{IsOpened, stood};

use crate::stands::stand;
use geo_base::NoMemory;
use geo_log::DiskFacts;
use geo_model::DiskDecl;
use geo_script::Plan;
use geo_state::{DiskSeat, OwnBios, State, empty};
use std::alloc::Global;

/// What a plan begins, over disks of these sizes.
pub fn opening(alloc: Global, plan: &Plan, disks: &DiskFacts) -> Result<State, NoMemory>
    requires { FactsFit plan.now disks.now.items }
    ensures opened { IfOk result (λ s. IsOpened (opening plan.now disks.now.items) s) }
    ensures plan { IsPlan plan.now }
{
    let mut state = bare(alloc, plan, disks)?;
    if let Err(error) = stand_all(plan, disks, &mut state) {
        drop(state);
        return Err(error);
    }
    Ok(state)
}

// The disks that don't come later stand, in header order.
fn stand_all(plan: &Plan, disks: &DiskFacts, state: &mut State) -> Result<(), NoMemory>
    requires fit { FactsFit plan.now disks.now.items }
    requires opened { IsOpened (stood plan.now disks.now.items 0) state.old }
    ensures { OnOk result (IsOpened (opening plan.now disks.now.items) state.new) }
{
    let count = plan.disks().len();
    for disk in 0..count {
        stand_next(plan, disks, state, disk)?;
    }
    Ok(())
}

// The next disk stands, if it doesn't come later.
fn stand_next(
    plan: &Plan,
    disks: &DiskFacts,
    state: &mut State,
    disk: usize,
) -> Result<(), NoMemory>
    requires fit { FactsFit plan.now disks.now.items }
    requires there { disk < length plan.now.disks }
    requires opened { IsOpened (stood plan.now disks.now.items disk) state.old }
    ensures { OnOk result (IsOpened (stood plan.now disks.now.items (disk + 1)) state.new) }
{
    if is_later(plan.disks(), disk) {
        return Ok(());
    }
    stand(state, disk as u32)
}

// Whether a disk comes later, if it is there.
fn is_later(disks: &[DiskDecl], disk: usize) -> bool
    ensures { IfSome (slice_get disks.now disk) (λ d. result ≡ d.later) }
{
    match disks.get(disk) {
        Some(found) => found.later,
        None => false,
    }
}

// The state before any disk stands.
fn bare(alloc: Global, plan: &Plan, disks: &DiskFacts) -> Result<State, NoMemory>
    requires { FactsFit plan.now disks.now.items }
    ensures opened { IfOk result (λ s. IsOpened (stood plan.now disks.now.items 0) s) }
    ensures plan { IsPlan plan.now }
{
    let seats = seats_of(alloc, plan.disks(), disks.items())?;
    let own = no_requests(alloc, plan.actors().len())?;
    empty(alloc, seats, own)
}

// The seats of the disks, with the sizes that they have; nothing stands for them.
fn seats_of(
    alloc: Global,
    disks: &[DiskDecl],
    facts: &[(u32, u64)],
) -> Result<Vec<DiskSeat>, NoMemory>
    requires { AllZip IsFact disks.now facts.now }
    ensures free { IfOk result (λ seats. AllByRecursion IsFreeSeat seats.items) }
    ensures disks { IfOk result (λ seats. map disk_of_seat seats.items
        ≡ map disk_in_size (zip disks.now facts.now)) }
{
    let mut seats = Vec::new(alloc);
    for place in 0..disks.len() {
        let (sector, sectors) = facts[place];
        seats.push(DiskSeat {
            name: disks[place].name,
            sector,
            size: u64::from(sector) * sectors,
            geom: None,
            busy: None,
        })?;
    }
    Ok(seats)
}

// No request is out for any of so many actors.
fn no_requests(alloc: Global, actors: usize) -> Result<Vec<OwnBios>, NoMemory>
    ensures { IfOk result (λ own. AllByRecursion (λ (x : OwnBiosValue). x.count ≡ 0) own.items) }
{
    let mut own = Vec::new(alloc);
    for _actor in 0..actors {
        own.push(OwnBios { count: 0, low: 0 })?;
    }
    Ok(own)
}

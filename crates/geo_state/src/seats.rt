//! The seats of the disks.
ghost use Rattle.std.specs.Prelude.{◌≡◌, ◌<◌, length};
ghost use Rattle.geo_state.specs.Seats.{with_disk_geom, with_busy_at};

use crate::state::State;
use geo_base::{BioId, GeomId};

/// The disk's geom is this one from now on, or there is none.
pub fn set_geom(state: &mut State, disk: u32, geom: Option<GeomId>)
    requires { disk < length state.old.disks.items }
    ensures seat { state.new.disks.items ≡ with_disk_geom state.old.disks.items disk geom }
    ensures rest { state.new ≡ record state.old { disks = state.new.disks } }
{
    state.disks[disk as usize].geom = geom;
}

/// The request that is at the disk is this one from now on, or there is none.
pub fn set_busy(state: &mut State, disk: u32, busy: Option<BioId>)
    requires { disk < length state.old.disks.items }
    ensures seat { state.new.disks.items ≡ with_busy_at state.old.disks.items disk busy }
    ensures rest { state.new ≡ record state.old { disks = state.new.disks } }
{
    state.disks[disk as usize].busy = busy;
}

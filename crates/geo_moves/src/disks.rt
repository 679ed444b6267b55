//! The disks of the header, and the geoms that stand for them.
ghost use Rattle.std.specs.Prelude.{◌≡◌, ◌<◌, ◌&&◌, not, length, find, option_map, IfSome, slice_get};
ghost use Rattle.geo_model.specs.Words.{first_error};
ghost use Rattle.geo_model.specs.GeomCommands.{insert_tests, is_geom_of_disk};
ghost use Rattle.geo_state.specs.Holds.{Holds};
ghost use Rattle.geo_state.specs.Steps.{Stands};
ghost use Rattle.geo_moves.specs.Disks.{disk_named, item_at};

use crate::names::is_standing;
use geo_base::{Errno, GeomId, Name};
use geo_state::{DiskSeat, State};

/// The disk of the name, by its number in header order.
pub fn disk_named(disks: &[DiskSeat], name: &Name) -> Option<usize>
    ensures { result ≡ disk_named disks.now name.now }
{
    disks
        .iter()
        .position(|seat| seat.name.bytes() == name.bytes())
}

/// What is against a disk that is inserted: its geom stands, withering or not; another provider has its name.
pub fn insert_refusal(state: &State, disk: usize) -> Option<Errno>
    requires kept { Holds state.now }
    requires there { disk < length state.now.disks.items }
    ensures { IfSome (slice_get state.now.disks.items disk) (λ seat.
        result ≡ first_error (insert_tests state.now.topo.topology (item_at disk seat))) }
{
    let seat = &state.disks[disk];
    if seat.geom.is_some() {
        return Some(Errno::EBUSY);
    }
    if state.topo.is_name_taken(&seat.name) {
        return Some(Errno::EEXIST);
    }
    None
}

/// The disk's geom, unless it withers.
pub fn standing_geom(state: &State, disk: usize) -> Option<GeomId>
    requires stands { Stands state.now }
    requires there { disk < length state.now.disks.items }
    ensures { result ≡ option_map (λ g. g.number)
        (find (λ g. is_geom_of_disk disk g && not g.withering) state.now.topo.topology.geoms) }
{
    let geom = state.disks[disk].geom?;
    if is_standing(&state.topo, geom) {
        Some(geom)
    } else {
        None
    }
}

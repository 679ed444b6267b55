//! Disks that stand as DISK geoms (disk(9), geom(4)).
ghost use Rattle.std.specs.Prelude.{ℕ, ◌≡◌, ◌<◌, List, None, false, length, IfSome, OnOk, OnErr, slice_get};
ghost use Rattle.geo_model.specs.declared.command.LineCommand.{LineCommand};
ghost use Rattle.geo_model.specs.declared.step.Entry.{Entry};
ghost use Rattle.geo_model.specs.Topology.{is_name_taken};
ghost use Rattle.geo_model.specs.GeomCommands.{stand};
ghost use Rattle.geo_state.specs.Holds.{Holds};
ghost use Rattle.geo_state.specs.Parts.{geom_of_disk};
ghost use Rattle.geo_state.specs.Steps.{SameWorld, Stands};
ghost use Rattle.geo_state.specs.World.{world};
ghost use Rattle.geo_moves.specs.Disks.{item_at};

use crate::makes::grow;
use geo_base::{Kind, NoMemory};
use geo_class::Config;
use geo_state::{State, set_geom};
use geo_taste::{NewGeom, Offer};

/// A disk stands as a DISK geom with one provider of its name, which is offered for taste. After `NoMemory` all is as
/// before.
pub fn stand(state: &mut State, disk: u32) -> Result<(), NoMemory>
    requires stands { Stands state.old }
    requires there { disk < length state.old.disks.items }
    requires absent { geom_of_disk state.old.topo.topology disk ≡ None }
    requires free { IfSome (slice_get state.old.disks.items disk) (λ seat.
        is_name_taken state.old.topo.topology seat.name ≡ false) }
    ensures stood { OnOk result ((actors : List (List LineCommand)) (log : List Entry)
        → IfSome (slice_get state.old.disks.items disk) (λ seat.
        world actors log state.new ≡ stand (world actors log state.old) (item_at disk seat))) }
    ensures same { OnErr result (SameWorld state.old state.new) }
    ensures kept { Holds state.new }
    ensures traffic { state.new.traffic ≡ state.old.traffic }
{
    let seat = state.disks[disk as usize];
    let geom = NewGeom {
        kind: Kind::Disk,
        name: seat.name,
        config: Config::disk(disk),
    };
    let offer = Offer {
        name: seat.name,
        size: seat.size,
        sector: seat.sector,
    };
    let id = grow(state, geom, &[], &offer)?;
    set_geom(state, disk, Some(id));
    Ok(())
}

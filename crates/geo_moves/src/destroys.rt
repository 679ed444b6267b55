//! Geoms that wither by a command: a disk that is pulled, a geom that is destroyed (g_wither_geom(9)).
ghost use Rattle.std.specs.Prelude.{ℕ, ◌≡◌, List, IsSome};
ghost use Rattle.geo_model.specs.declared.command.LineCommand.{LineCommand};
ghost use Rattle.geo_model.specs.declared.step.Entry.{Entry};
ghost use Rattle.geo_model.specs.Topology.{geom_at};
ghost use Rattle.geo_model.specs.Events.{wither};
ghost use Rattle.geo_model.specs.WorldEvents.{queued_of, with_queued};
ghost use Rattle.geo_model.specs.GeomCommands.{do_destroy, do_pull, header_disk, named_geom};
ghost use Rattle.geo_state.specs.Holds.{Holds};
ghost use Rattle.geo_state.specs.Steps.{Does, Stands};
ghost use Rattle.geo_state.specs.World.{HasBytes, world};

use crate::disks::{disk_named, standing_geom};
use crate::names::named_geom;
use crate::reply::{done, refused};
use crate::uses::is_in_use;
use geo_base::{Errno, GeomId, Kind, Name};
use geo_life::wither;
use geo_model::Outcome;
use geo_state::State;

/// A pull of the disk of a name: ENOENT where the header has none, ENXIO where no geom stands for it that doesn't
/// wither. Else its geom withers. It takes no memory.
pub fn pull(state: &mut State, line: u32, name: &Name) -> Outcome
    requires stands { Stands state.old }
    ensures does { (log : List Entry) → Does (λ w. do_pull w line (header_disk w name.now)) log
        state.old state.new result }
    ensures kept { Holds state.new }
    ensures logged { (log : List Entry) → HasBytes log state.old → HasBytes log state.new }
{
    let Some(disk) = disk_named(&state.disks, name) else {
        return refused(line, Errno::ENOENT);
    };
    let Some(geom) = standing_geom(state, disk) else {
        return refused(line, Errno::ENXIO);
    };
    wither_geom(state, geom);
    done(line)
}

/// A destroy of the geom of a class and a name: ENOENT where none of them stands that doesn't wither, EBUSY where a
/// provider of it has a count. Else it withers. It takes no memory.
pub fn destroy(state: &mut State, line: u32, kind: Kind, name: &Name) -> Outcome
    requires kept { Holds state.old }
    ensures does { (log : List Entry) → Does (λ w. do_destroy w line (named_geom w kind name.now)) log
        state.old state.new result }
    ensures kept { Holds state.new }
    ensures logged { (log : List Entry) → HasBytes log state.old → HasBytes log state.new }
{
    let Some(geom) = named_geom(&state.topo, kind, name) else {
        return refused(line, Errno::ENOENT);
    };
    if is_in_use(&state.topo, geom) {
        return refused(line, Errno::EBUSY);
    }
    wither_geom(state, geom);
    done(line)
}

// The geom withers, and each of its providers without an error is orphaned. The places of their Orphans are owed.
fn wither_geom(state: &mut State, geom: GeomId)
    requires kept { Holds state.old }
    requires lives { IsSome (geom_at state.old.topo.topology geom) }
    ensures withered { (actors : List (List LineCommand)) (log : List Entry) → world actors log state.new
        ≡ with_queued (world actors log state.old) (wither (queued_of (world actors log state.old)) geom) }
    ensures kept { Holds state.new }
    ensures traffic { state.new.traffic ≡ state.old.traffic }
{
    wither(&mut state.topo, &mut state.queue, geom);
}

//! Disks that are inserted.
ghost use Rattle.std.specs.Prelude.{◌≡◌, List, IfOk, OnErr};
ghost use Rattle.geo_model.specs.declared.step.Entry.{Entry};
ghost use Rattle.geo_model.specs.GeomCommands.{do_insert, header_disk};
ghost use Rattle.geo_state.specs.Holds.{Holds};
ghost use Rattle.geo_state.specs.Steps.{Does, SameWorld, Stands};
ghost use Rattle.geo_state.specs.World.{HasBytes};

use crate::disks::{disk_named, insert_refusal};
use crate::reply::{done, refused};
use crate::stands::stand;
use geo_base::{Errno, Name, NoMemory};
use geo_model::Outcome;
use geo_state::State;

/// An insert of the disk of a name: ENOENT where the header has none, EBUSY where its geom stands, withering or not,
/// EEXIST where a provider without an error has its name. Else the disk stands. After `NoMemory` all is as before.
pub fn insert(state: &mut State, line: u32, name: &Name) -> Result<Outcome, NoMemory>
    requires stands { Stands state.old }
    ensures does { (log : List Entry) → IfOk result (λ o.
        Does (λ w. do_insert w line (header_disk w name.now)) log state.old state.new o) }
    ensures same { OnErr result (SameWorld state.old state.new) }
    ensures kept { Holds state.new }
    ensures logged { (log : List Entry) → HasBytes log state.old → HasBytes log state.new }
{
    let Some(disk) = disk_named(&state.disks, name) else {
        return Ok(refused(line, Errno::ENOENT));
    };
    if let Some(errno) = insert_refusal(state, disk) {
        return Ok(refused(line, errno));
    }
    if disk > u32::MAX as usize {
        return Err(NoMemory);
    }
    stand(state, disk as u32)?;
    Ok(done(line))
}

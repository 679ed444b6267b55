//! A live mesh with its disks.
ghost use Rattle.std.specs.Prelude.{OnOk};
ghost use Rattle.geo_serving.specs.Steps.{Answered};

use crate::disks::ask;
use geo_base::{BioId, NoMemory};
use geo_connection::TaggedSession;
use geo_disk::{Disk, Drive};
use geo_model::Request;
use std::alloc::Global;

/// A live mesh with its disks, in the order of its header.
#[derive(Drop)]
pub struct Desk<D> {
    pub alloc: Global,
    pub mesh: TaggedSession,
    pub drives: Vec<Drive<D>>,
}

/// Asks a disk, and gives its answer to the mesh.
pub fn ask_disk<D: Disk>(
    desk: &mut Desk<D>,
    disk: u32,
    bio: BioId,
    request: &Request,
) -> Result<(), NoMemory>
    ensures { OnOk result (Answered bio desk.old.mesh desk.new.mesh) }
{
    let got = ask(desk.alloc, desk.drives.as_mut_slice(), disk, request)?;
    // The mesh waits for this answer and takes it.
    let _taken = desk.mesh.answer(bio, got);
    Ok(())
}

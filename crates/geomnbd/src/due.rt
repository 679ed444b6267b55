//! What is due in a mesh whose script is made.

use geo_base::NoMemory;
use geo_disk::Disk;
use geo_model::Reply;
use geo_serving::{Desk, ask_disk};
use geo_tags::Due;
use std::sync::Wait;

/// One step that is due.
fn step<D: Disk>(desk: &mut Desk<D>) -> Result<Due, NoMemory> {
    match desk.mesh.next()? {
        Due::Ask { disk, bio, request } => {
            ask_disk(desk, disk, bio, &request)?;
            Ok(Due::Moved)
        }
        due => Ok(due),
    }
}

/// All steps that are due, until none is, and the last reply.
pub fn settle<R: Wait, D: Disk>(rt: &R, desk: &mut Desk<D>) -> Result<Option<Reply>, NoMemory> {
    let mut last = None;
    for _ in rt.forever() {
        match step(desk)? {
            Due::Reply { reply, .. } => last = Some(reply),
            Due::Idle => return Ok(last),
            _ => {}
        }
    }
    unreachable!()
}

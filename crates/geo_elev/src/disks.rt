//! The heads of disks, and what waits for them.
ghost use Rattle.std.specs.Prelude.{◌≡◌, IfOk, length};
ghost use Rattle.geo_elev.specs.Disks.{ChangesOne, HeadMoves, IsAsked, Queues};
ghost use Rattle.geo_elev.specs.Lists.{one_at};

use crate::lists::Place;
use crate::queue::Queue;
use geo_base::{BioCmd, BioId, NoMemory};
use geo_model::Request;

/// A disk's head, which is the sector where its last request that wasn't a FLUSH began (0 before one), and what waits
/// for it.
#[derive(Drop)]
pub struct DiskHead {
    pub head: u64,
    pub waiting: Queue,
}

/// The disk of a request was asked for a bio, which waits no longer, and true; false, where it couldn't be next: then
/// what waits has to be gathered anew. On `NoMemory` the disks are as many.
pub fn asked(disks: &mut [DiskHead], request: &Request, bio: BioId) -> Result<bool, NoMemory>
    ensures asked { IfOk result (λ b. ChangesOne request.now.disk (IsAsked b request.now bio) disks.old disks.new) }
    ensures length { length disks.new ≡ length disks.old }
{
    let at = request.disk as usize;
    if at < disks.len() {
        return ask(&mut disks[at], request, bio);
    }
    Ok(true)
}

// The same of its disk.
fn ask(disk: &mut DiskHead, request: &Request, bio: BioId) -> Result<bool, NoMemory>
    ensures { IfOk result (λ b. IsAsked b request.now bio disk.old disk.new) }
{
    if !disk.waiting.take(bio, request.first)? {
        return Ok(false);
    }
    if request.cmd != BioCmd::Flush {
        disk.head = request.first;
    }
    Ok(true)
}

/// The disk of a request was asked, which moves its head alone.
pub fn move_head(disks: &mut [DiskHead], request: &Request)
    ensures moves { ChangesOne request.now.disk (HeadMoves request.now) disks.old disks.new }
    ensures length { length disks.new ≡ length disks.old }
{
    let at = request.disk as usize;
    if at < disks.len() {
        move_to(&mut disks[at], request);
    }
}

// The same of its disk.
fn move_to(disk: &mut DiskHead, request: &Request)
    ensures { HeadMoves request.now disk.old disk.new }
{
    if request.cmd != BioCmd::Flush {
        disk.head = request.first;
        disk.waiting.turn(request.first);
    }
}

/// One more bio waits for a disk: true, if all that waited has smaller numbers; else nothing changes. On `NoMemory`
/// the disks are as many.
pub fn queued(disks: &mut [DiskHead], disk: u32, bio: BioId, place: Place) -> Result<bool, NoMemory>
    ensures queued { IfOk result (λ b. ChangesOne disk (Queues b (one_at bio place)) disks.old disks.new) }
    ensures length { length disks.new ≡ length disks.old }
{
    let at = disk as usize;
    if at < disks.len() {
        return queue(&mut disks[at], bio, place);
    }
    Ok(true)
}

// The same of the disk.
fn queue(disk: &mut DiskHead, bio: BioId, place: Place) -> Result<bool, NoMemory>
    ensures { IfOk result (λ b. Queues b (one_at bio place) disk.old disk.new) }
{
    if !disk.waiting.is_below(bio) {
        return Ok(false);
    }
    disk.waiting.put(bio, place)?;
    Ok(true)
}

//! What disks are asked, and what they answer.
ghost use Rattle.std.specs.Prelude.{◌≡◌, ◌*◌, ◌≤◌, IfOk, IsTrue, length};
ghost use Rattle.geo_model.specs.Words.{is_read};
ghost use Rattle.geo_serve.specs.Drives.{drive_view};
ghost use Rattle.geo_serve.specs.Serve.{CanServe};

use geo_base::{BioCmd, Block, MAX_REQUEST_BYTES, NoMemory};
use geo_disk::{Disk, Drive};
use geo_model::{DeviceResult, Request};
use geo_serve::serve;
use std::alloc::Global;

/// Whether a disk of such sectors can be asked this: it lies inside the disk, isn't too long, and has its bytes.
fn can_serve<D: Disk>(drive: &Drive<D>, request: &Request) -> bool
    ensures { IsTrue result → CanServe (drive_view D.view drive.now) request.now }
{
    let sector = drive.sector_size() as u64;
    let sectors = drive.sectors();
    let count = request.count as u64;
    if sector == 0 || sectors < count || sectors - count < request.first {
        return false;
    }
    if MAX_REQUEST_BYTES < count * sector {
        return false;
    }
    match request.cmd {
        BioCmd::Write => request.bytes.len() as u64 == count * sector,
        _ => true,
    }
}

/// Room for what a disk reads.
fn room_of(alloc: Global, request: &Request) -> Result<Block, NoMemory>
    ensures { IfOk result (λ room. IsTrue (is_read request.now.cmd) → length room ≡ MAX_REQUEST_BYTES) }
{
    match request.cmd {
        BioCmd::Read => Block::zeros(alloc, MAX_REQUEST_BYTES as u32),
        _ => Block::zeros(alloc, 0),
    }
}

/// What a disk answers. What it can't be asked fails.
fn answer_of<D: Disk>(
    alloc: Global,
    drive: &mut Drive<D>,
    request: &Request,
) -> Result<DeviceResult, NoMemory> {
    let room = room_of(alloc, request)?;
    if !can_serve(drive, request) {
        drop(room);
        return Ok(DeviceResult::Failed { done: 0 });
    }
    Ok(serve(drive, request, room).share(alloc))
}

/// The same of the disk of a number.
pub fn ask<D: Disk>(
    alloc: Global,
    drives: &mut [Drive<D>],
    disk: u32,
    request: &Request,
) -> Result<DeviceResult, NoMemory> {
    let place = disk as usize;
    if place < drives.len() {
        answer_of(alloc, &mut drives[place], request)
    } else {
        Ok(DeviceResult::Failed { done: 0 })
    }
}

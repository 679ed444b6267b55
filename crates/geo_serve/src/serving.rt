//! A request to a disk, and what the disk answers.
ghost use Rattle.std.specs.Prelude.{◌≡◌, ◌<◌, ◌^◌, IfErr};
ghost use Rattle.geo_base.specs.declared.request.BioCmd.TheVariants as cmds;
ghost use Rattle.geo_serve.specs.Drives.{drive_view};
ghost use Rattle.geo_serve.specs.Serve.{CanServe, HasRoom, Serves, answer_without_bytes};

use geo_base::{BioCmd, Block, SharedBytes};
use geo_disk::{Disk, DiskFailed, Drive};
use geo_model::{DeviceResult, Request};

/// Serves a request by exactly one call of the disk, and answers what came of it. A READ is read into the room, which
/// is cut to its length. After a DELETE the sectors are zero.
pub fn serve<D: Disk>(disk: &mut Drive<D>, request: &Request, room: Block) -> DeviceResult
    requires room { HasRoom (drive_view D.view disk.old) request.now room }
    requires can { CanServe (drive_view D.view disk.old) request.now }
    ensures { Serves request.now
        (drive_view D.view disk.old)
        (drive_view D.view disk.new) result }
{
    match request.cmd {
        BioCmd::Read => read(disk, request, room),
        BioCmd::Write => answer(disk.write(request.first, request.bytes.bytes())),
        BioCmd::Delete => answer(disk.zero(request.first, request.count as u64)),
        BioCmd::Flush => answer(disk.flush()),
    }
}

// A READ.
fn read<D: Disk>(disk: &mut Drive<D>, request: &Request, mut room: Block) -> DeviceResult
    requires room { HasRoom (drive_view D.view disk.old) request.now room }
    requires can { CanServe (drive_view D.view disk.old) request.now }
    requires cmd { request.now.cmd ≡ cmds.Read }
    ensures { Serves request.now
        (drive_view D.view disk.old)
        (drive_view D.view disk.new) result }
{
    let len = request.count * disk.sector_size();
    room.cut(len);
    match disk.read(request.first, room.bytes_mut()) {
        Ok(()) => DeviceResult::Bytes(SharedBytes::from_block(room)),
        Err(_) => DeviceResult::Failed { done: 0 },
    }
}

// The answer by how a call ended that reads nothing.
fn answer(done: Result<(), DiskFailed>) -> DeviceResult
    requires { IfErr done (λ failed. failed.done < 2 ^ 32) }
    ensures { result ≡ answer_without_bytes done }
{
    match done {
        Ok(()) => DeviceResult::Done,
        Err(failed) => DeviceResult::Failed {
            done: failed.done as u32,
        },
    }
}

//! The drives of a worker.
ghost use Rattle.std.specs.Prelude.{◌≡◌, ◌+◌, ◌<◌, ◌≤◌, [], ◌∷◌, ◌++◌, drop, slice_get, Some, IfNone, IfSome, IsFalse, IsOk, IsTrue, OnOk};
ghost use Rattle.geo_disk.specs.declared.drive.Drive.{Drive as DriveValue};
ghost use Rattle.geo_serve.specs.Drives.{drive_view};
ghost use Rattle.geo_jobs.specs.Drives.{AnswersOne, CanAnswer, LacksDisk};

use geo_base::{Block, NoMemory};
use geo_disk::{Disk, Drive};
use geo_model::{DeviceResult, Request};
use geo_pool::Pool;
use geo_serve::serve;
use std::alloc::Global;
use std::marker::Model;

/// Disks by their numbers, each with its drive. Contracts see these pairs in order, and for how many more there is
/// room.
#[derive(Drop)]
pub struct DriveList<D> {
    drives: Vec<(u32, Drive<D>)>,
    // What the drives read last, of which later bytes may be a part.
    pool: Pool,
}

impl<D> Model for DriveList<D> {
    ghost use Rattle.std.specs.Prelude.{◌-◌, vec_len, vec_capacity};
    ghost use Rattle.geo_jobs.specs.DriveList.{DriveListView};

    ghost Value = { DriveListView D };

    ghost view = { λ l. record { items = l.drives.items; spare = vec_capacity l.drives - vec_len l.drives } };
}

impl<D> DriveList<D> {
    /// No drive. It takes memory in `reserve` alone.
    pub fn new(alloc: Global) -> DriveList<D>
        ensures { result.items ≡ [] }
    {
        DriveList {
            drives: Vec::new(alloc),
            pool: Pool::new(alloc),
        }
    }

    /// Makes room for `count` more drives. Nothing else changes, and no room is lost where memory is wanting.
    pub fn reserve(&mut self, count: u64) -> Result<(), NoMemory>
        ensures items { self.new.items ≡ self.old.items }
        ensures spare { OnOk result (count ≤ self.new.spare) }
        ensures kept { self.old.spare ≤ self.new.spare }
        ensures enough { count ≤ self.old.spare → IsOk result }
    {
        self.drives.reserve(count as usize)?;
        Ok(())
    }

    /// Puts the drive of a disk at the end, in room that was reserved.
    pub fn push(&mut self, disk: u32, drive: Drive<D>)
        requires { 0 < self.old.spare }
        ensures items { self.new.items ≡ self.old.items ++ (disk, drive) ∷ [] }
        ensures spare { self.old.spare ≤ self.new.spare + 1 }
    {
        self.drives.push_reserved((disk, drive));
    }

    /// Takes the first drive out, with the number of its disk. None exactly where there is no drive.
    pub fn take_first(&mut self) -> Option<(u32, Drive<D>)>
        ensures first { result ≡ slice_get self.old.items 0 }
        ensures rest { self.new.items ≡ drop 1 self.old.items }
        ensures spare { self.old.spare ≤ self.new.spare }
    {
        if self.drives.is_empty() {
            None
        } else {
            Some(self.drives.remove(0))
        }
    }

    // Is there a drive of the disk?
    pub(crate) fn has(&self, disk: u32) -> bool
        ensures yes { IsTrue result → LacksDisk self.now.items disk → ⊥ }
        ensures no { IsFalse result → LacksDisk self.now.items disk }
    {
        place_of(&self.drives, disk).is_some()
    }
}

impl<D: Disk> DriveList<D> {
    // What the drive of the request's disk answers. The bytes of a READ get a block of their own length where there is
    // memory for it, and are shared, so that a reply needs no copy; they share the memory of those that were read last,
    // if these begin with them.
    pub(crate) fn answer(&mut self, alloc: Global, request: &Request, room: Block) -> DeviceResult
        requires has { LacksDisk self.old.items request.now.disk → ⊥ }
        requires can { CanAnswer (drive_view D.view) self.old.items request.now room }
        ensures { AnswersOne (drive_view D.view) request.now self.old.items self.new.items result }
    {
        let Some(place) = place_of(&self.drives, request.disk) else {
            unreachable!()
        };
        let drive = &mut self.drives[place].1;
        let got = fitted(alloc, serve(drive, request, room)).share(alloc);
        pooled(&mut self.pool, got)
    }
}

// The place of a drive of a disk.
fn place_of<D>(drives: &[(u32, Drive<D>)], disk: u32) -> Option<usize>
    ensures some { IfSome result (λ k. (d : DriveValue D) × (slice_get drives.now k ≡ Some (disk, d))) }
    ensures none { IfNone result (LacksDisk drives.now disk) }
{
    for k in 0..drives.len() {
        if drives[k].0 == disk {
            return Some(k);
        }
    }
    None
}

// The same answer, whose bytes have a block of their own length, if there is memory for it.
fn fitted(alloc: Global, got: DeviceResult) -> DeviceResult
    ensures { result ≡ got }
{
    match got {
        DeviceResult::Bytes(bytes) => match bytes.copy(alloc) {
            Ok(own) => DeviceResult::Bytes(own),
            Err(_) => DeviceResult::Bytes(bytes),
        },
        other => other,
    }
}

// The same answer, whose bytes share the memory of those in the pool, if these begin with them.
fn pooled(pool: &mut Pool, got: DeviceResult) -> DeviceResult
    ensures { result ≡ got }
{
    match got {
        DeviceResult::Bytes(bytes) => DeviceResult::Bytes(pool.once(bytes)),
        other => other,
    }
}

//! The heads of disks, and what waits for them, gathered anew.
ghost use Rattle.std.specs.Prelude.{◌≡◌, ◌<◌, ◌^◌, ℕ, List, [], ◌∷◌, ◌++◌, IfOk, OnOk, length, map};
ghost use Rattle.std.specs.List.{range_with_len};
ghost use Rattle.geo_model.specs.declared.step.Entry.{Entry as EntryValue};
ghost use Rattle.geo_drain.specs.Meshes.{IsHistory, opened, world_of, spot_of};
ghost use Rattle.geo_elev.specs.Heads.{disk_heads, no_head};
ghost use Rattle.geo_elev.specs.Gathering.{PutsAtSpot, bare_heads};

use crate::disks::{DiskHead, move_head, queued};
use crate::heads::place_of;
use crate::queue::Queue;
use geo_base::{BioId, NoMemory};
use geo_drain::Mesh;
use geo_model::{Entry, Outcome};
use std::alloc::Global;

/// So many disks, of which nothing is known.
pub fn none(alloc: Global, count: u32) -> Result<Vec<DiskHead>, NoMemory>
    ensures { IfOk result (λ disks. disks.items ≡ map no_head (range_with_len 0 count)) }
{
    let mut disks = Vec::new(alloc);
    let mut at = 0;
    while at < count {
        disks.push(DiskHead {
            head: 0,
            waiting: Queue::new(alloc),
        })?;
        at += 1;
    }
    Ok(disks)
}

// Forgets what is known of a disk.
fn forget(disk: &mut DiskHead)
    ensures { disk.new ≡ no_head 0 }
{
    disk.head = 0;
    disk.waiting.clear();
}

/// Forgets what is known of all disks.
pub fn forget_all(disks: &mut [DiskHead])
    ensures forgot { disks.new ≡ map no_head (range_with_len 0 (length disks.old)) }
    ensures length { length disks.new ≡ length disks.old }
{
    let mut at = 0;
    while at < disks.len() {
        forget(&mut disks[at]);
        at += 1;
    }
}

// The heads after one entry more.
fn see(disks: &mut [DiskHead], entry: &Entry)
    ensures seen { (log : List EntryValue) (n : ℕ) → disks.old ≡ bare_heads log n
        → disks.new ≡ bare_heads (log ++ entry.now ∷ []) n }
    ensures length { length disks.new ≡ length disks.old }
{
    if let Outcome::Asked(request) = &entry.outcome {
        move_head(disks, request);
    }
}

/// The heads after a log, of disks of which nothing is known.
pub fn see_all(disks: &mut [DiskHead], entries: &[Entry])
    ensures seen { (n : ℕ) → disks.old ≡ bare_heads [] n → disks.new ≡ bare_heads entries.now n }
    ensures length { length disks.new ≡ length disks.old }
{
    for entry in entries {
        see(disks, entry);
    }
}

// Puts in a bio, with a greater number than all, if it waits for a disk.
fn put_in(disks: &mut [DiskHead], mesh: &Mesh, bio: BioId) -> Result<(), NoMemory>
    ensures put { OnOk result (PutsAtSpot (spot_of (world_of mesh.now) bio) bio disks.old disks.new) }
    ensures length { length disks.new ≡ length disks.old }
    ensures bound { (world_of mesh.now).next_bio < 2 ^ 64 }
{
    if let Some(spot) = mesh.sent(bio) {
        queued(disks, spot.disk, bio, place_of(spot))?;
    }
    Ok(())
}

/// Puts in all that waits, where nothing is known of it. On `NoMemory` the disks are as many.
pub fn walk(disks: &mut [DiskHead], mesh: &Mesh) -> Result<(), NoMemory>
    requires history { IsHistory mesh.now }
    ensures walked { OnOk result ((log : List EntryValue) (n : ℕ) → disks.old ≡ bare_heads log n
        → disks.new ≡ disk_heads (world_of mesh.now) log n) }
    ensures length { length disks.new ≡ length disks.old }
{
    let mut from = 0;
    while let Some(bio) = mesh.next_bio(from) {
        put_in(disks, mesh, bio)?;
        from = bio.number() + 1;
    }
    Ok(())
}

/// All anew: the heads by the whole log, and what waits by a walk over the bios. On `NoMemory` the disks are as many.
pub fn gather(disks: &mut [DiskHead], mesh: &Mesh) -> Result<(), NoMemory>
    ensures gathered { OnOk result
        (disks.new ≡ disk_heads (world_of mesh.now) mesh.now.log (length disks.old)) }
    ensures length { length disks.new ≡ length disks.old }
{
    forget_all(disks);
    see_all(disks, mesh.log().entries());
    walk(disks, mesh)
}

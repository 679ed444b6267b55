//! What the elevator keeps beside a mesh.
ghost use Rattle.std.specs.Prelude.{◌≡◌, ◌<◌, ◌≤◌, ◌^◌, List, [], IfOk, OnErr, OnOk, length, map, take};
ghost use Rattle.std.specs.List.{enumerate_from};
ghost use Rattle.geo_model.specs.Words.{first_some};
ghost use Rattle.geo_model.specs.declared.step.Entry.{Entry as EntryValue};
ghost use Rattle.geo_model.specs.Log.{IsPrefixOf};
ghost use Rattle.geo_headline.specs.Sweep.{first_take};
ghost use Rattle.geo_drain.specs.Meshes.{MeshView, IsHistory, opened, world_of};
ghost use Rattle.geo_elev.specs.Following.{heads_at};
ghost use Rattle.geo_elev.specs.Heads.{AreHeads, first_by, no_heads, take_by};

use crate::disks::DiskHead;
use crate::gathering::{forget_all, gather, none};
use crate::heads::follow_all;
use geo_base::NoMemory;
use geo_drain::Mesh;
use geo_model::Step;
use std::alloc::Global;
use std::marker::Model;

/// Where the head of each disk stands, and what waits for it, as far as the log of a mesh was noted.
#[derive(Drop)]
pub struct Heads {
    disks: Vec<DiskHead>,
    noted: usize,
}

impl Model for Heads {
    ghost use Rattle.std.specs.Prelude.{◌<◌, ◌^◌, length};
    ghost use Rattle.geo_elev.specs.Heads.{HeadsView};

    ghost Value = { HeadsView };

    ghost view = { λ h. record { disks = h.disks.items; noted = h.noted } };

    ghost invariant = { λ h. length h.disks.items < 2 ^ 32 };
}

impl Heads {
    /// Of so many disks, with nothing known of them, as a mesh of so many is before its first entry.
    pub fn new(alloc: Global, disks: u32) -> Result<Heads, NoMemory>
        ensures none { IfOk result (λ h. h ≡ no_heads disks) }
        ensures begin { IfOk result (λ h. (m : MeshView) → IsHistory m → disks ≡ length m.plan.disks
            → AreHeads (opened m) [] h) }
    {
        Ok(Heads {
            disks: none(alloc, disks)?,
            noted: 0,
        })
    }

    /// Notes what a mesh did since, entry by entry where requests come in order of their numbers, each is noted before
    /// the next one comes, and each disk takes the one that is next; else all is gathered anew. No clause says which.
    /// On `NoMemory` nothing is known, as before the first entry.
    pub fn note(&mut self, mesh: &Mesh) -> Result<(), NoMemory>
        requires earlier { (seen : List EntryValue)
            × IsPrefixOf seen mesh.now.log × AreHeads (opened mesh.now) seen self.old }
        ensures noted { OnOk result (AreHeads (opened mesh.now) mesh.now.log self.new) }
        ensures forgot { OnErr result (self.new ≡ no_heads (length self.old.disks)) }
        ensures history { OnErr result (IsHistory mesh.now) }
    {
        match catch_up(&mut self.disks, mesh, self.noted) {
            Ok(()) => {
                self.noted = mesh.log().entries().len();
                Ok(())
            }
            Err(refused) => {
                forget_all(&mut self.disks);
                self.noted = 0;
                Err(refused)
            }
        }
    }

    /// The Take of the first disk, in header order, for which something waits: of what is next there.
    pub fn next_take(&self) -> Option<Step>
        ensures kept { result ≡ first_by self.now }
        ensures next { (m : MeshView) → IsHistory m → AreHeads (opened m) m.log self.now
            → result ≡ first_take (world_of m) m.log }
    {
        self.kept_take()
    }

    // The same by what is kept.
    fn kept_take(&self) -> Option<Step>
        ensures { result ≡ first_by self.now }
    {
        first_take(&self.disks)
    }
}

// Follows the log from an entry on, or gathers all anew.
fn catch_up(disks: &mut [DiskHead], mesh: &Mesh, noted: usize) -> Result<(), NoMemory>
    requires { noted ≤ length mesh.now.log }
    ensures caught { OnOk result (disks.old ≡ heads_at (opened mesh.now) (take noted mesh.now.log) (length disks.old)
        → disks.new ≡ heads_at (opened mesh.now) mesh.now.log (length disks.old)) }
    ensures length { length disks.new ≡ length disks.old }
    ensures history { IsHistory mesh.now }
{
    if follow_all(disks, mesh, noted)? {
        return Ok(());
    }
    gather(disks, mesh)
}

// The Take of the first disk for which something waits.
fn first_take(disks: &[DiskHead]) -> Option<Step>
    requires { length disks.now < 2 ^ 32 }
    ensures { result ≡ first_some (map take_by (enumerate_from 0 disks.now)) }
{
    let mut at = 0;
    while let Some(disk) = disks.get(at) {
        if let Some(bio) = disk.waiting.next(disk.head) {
            return Some(Step::Take {
                disk: at as u32,
                bio,
            });
        }
        at += 1;
    }
    None
}

//! The disk under a provider of class DISK.
ghost use Rattle.std.specs.Prelude.{◌≡◌, ◌+◌, ◌/◌, ◌≤◌, ◌↔◌, ◌∷◌, [], ◌++◌, length, Contains, IfErr, IsErr, OnOk, is_err};
ghost use Rattle.geo_base.specs.declared.request.BioCmd.TheVariants as cmds;
ghost use Rattle.geo_disk.specs.Calls.{disk_call, given_by};
ghost use Rattle.geo_disk.specs.Counts.{counted_if, counted_on};
ghost use Rattle.geo_disk.specs.Disk.{AreSectors, IsRead, done_of, written, zeroed};
ghost use Rattle.geo_disk.specs.Memory.{after_write, after_zero, called};
ghost use Rattle.geo_disk.specs.Drive.{IfRam, counted_by, view_by};

use crate::disk::{Disk, DiskFailed};
use crate::mem_disk::MemDisk;

/// A disk in memory or one of a shelf, with the meanings of the disk that it holds. Each call is that one call of its
/// disk, and it keeps its kind.
#[derive(Drop)]
pub enum Drive<D> {
    Ram(MemDisk),
    Shelved(D),
}

impl<D: Disk> Disk for Drive<D> {
    ghost view = { view_by D.view };

    fn sector_size(&self) -> u32 {
        match self {
            Drive::Ram(disk) => disk.sector_size(),
            Drive::Shelved(disk) => disk.sector_size(),
        }
    }

    fn sectors(&self) -> u64 {
        match self {
            Drive::Ram(disk) => disk.sectors(),
            Drive::Shelved(disk) => disk.sectors(),
        }
    }

    fn read(&mut self, first: u64, out: &mut [u8]) -> Result<(), DiskFailed>
        requires { AreSectors (view_by D.view self.old).sector (view_by D.view self.old).count first
            (length out.old) }
        ensures bytes { (view_by D.view self.new).sector ≡ (view_by D.view self.old).sector }
        ensures count { (view_by D.view self.new).count ≡ (view_by D.view self.old).count }
        ensures held { (view_by D.view self.new).held ≡ (view_by D.view self.old).held }
        ensures read { OnOk result
            (IsRead (view_by D.view self.old).held (view_by D.view self.old).sector first out.new) }
        ensures none_done { IfErr result (λ e. e.done ≡ 0) }
        ensures faults { (view_by D.view self.new).faults
            ≡ counted_if (is_err result) (view_by D.view self.old).faults }
        ensures asked { (view_by D.view self.new).asked
            ≡ (view_by D.view self.old).asked
            ++ disk_call cmds.Read first (length out.old / (view_by D.view self.old).sector)
            (given_by result out.new) result ∷ [] }

        // A disk in memory is as after this call, which fails exactly where its number is in the list.
        ensures ram { IfRam self.old self.new
            (λ old new. new ≡ called (disk_call cmds.Read first (length out.old / old.sector)
            (given_by result out.new) result) old) }
        ensures fails { IfRam self.old self.new (λ old _. IsErr result ↔ Contains old.fails (counted_on old.calls)) }
    {
        match self {
            Drive::Ram(disk) => disk.read(first, out),
            Drive::Shelved(disk) => disk.read(first, out),
        }
    }

    fn write(&mut self, first: u64, bytes: &[u8]) -> Result<(), DiskFailed>
        requires { AreSectors (view_by D.view self.old).sector (view_by D.view self.old).count first
            (length bytes.now) }
        ensures bytes { (view_by D.view self.new).sector ≡ (view_by D.view self.old).sector }
        ensures count { (view_by D.view self.new).count ≡ (view_by D.view self.old).count }
        ensures held { (view_by D.view self.new).held
            ≡ written (view_by D.view self.old).sector first
            (done_of result (length bytes.now / (view_by D.view self.old).sector)) bytes.now
            (view_by D.view self.old).held }
        ensures part_done { IfErr result (λ e. e.done ≤ length bytes.now / (view_by D.view self.old).sector) }
        ensures faults { (view_by D.view self.new).faults
            ≡ counted_if (is_err result) (view_by D.view self.old).faults }
        ensures asked { (view_by D.view self.new).asked
            ≡ (view_by D.view self.old).asked
            ++ disk_call cmds.Write first (length bytes.now / (view_by D.view self.old).sector)
            bytes.now result ∷ [] }
        ensures ram { IfRam self.old self.new (λ old new.
            new ≡ called (disk_call cmds.Write first (length bytes.now / old.sector) bytes.now result)
            (after_write old first (done_of result (length bytes.now / old.sector)) bytes.now)) }
        ensures fails { IfRam self.old self.new (λ old _. IsErr result ↔ Contains old.fails (counted_on old.calls)) }
    {
        match self {
            Drive::Ram(disk) => disk.write(first, bytes),
            Drive::Shelved(disk) => disk.write(first, bytes),
        }
    }

    fn zero(&mut self, first: u64, count: u64) -> Result<(), DiskFailed>
        requires { first + count ≤ (view_by D.view self.old).count }
        ensures bytes { (view_by D.view self.new).sector ≡ (view_by D.view self.old).sector }
        ensures count { (view_by D.view self.new).count ≡ (view_by D.view self.old).count }
        ensures held { (view_by D.view self.new).held
            ≡ zeroed (view_by D.view self.old).sector first (done_of result count) (view_by D.view self.old).held }
        ensures part_done { IfErr result (λ e. e.done ≤ count) }
        ensures faults { (view_by D.view self.new).faults
            ≡ counted_if (is_err result) (view_by D.view self.old).faults }
        ensures asked { (view_by D.view self.new).asked
            ≡ (view_by D.view self.old).asked ++ disk_call cmds.Delete first count [] result ∷ [] }
        ensures ram { IfRam self.old self.new (λ old new. new
            ≡ called (disk_call cmds.Delete first count [] result) (after_zero old first (done_of result count))) }
        ensures fails { IfRam self.old self.new (λ old _. IsErr result ↔ Contains old.fails (counted_on old.calls)) }
    {
        match self {
            Drive::Ram(disk) => disk.zero(first, count),
            Drive::Shelved(disk) => disk.zero(first, count),
        }
    }

    fn flush(&mut self) -> Result<(), DiskFailed>
        ensures bytes { (view_by D.view self.new).sector ≡ (view_by D.view self.old).sector }
        ensures count { (view_by D.view self.new).count ≡ (view_by D.view self.old).count }
        ensures held { (view_by D.view self.new).held ≡ (view_by D.view self.old).held }
        ensures none_done { IfErr result (λ e. e.done ≡ 0) }
        ensures faults { (view_by D.view self.new).faults
            ≡ counted_if (is_err result) (view_by D.view self.old).faults }
        ensures asked { (view_by D.view self.new).asked
            ≡ (view_by D.view self.old).asked ++ disk_call cmds.Flush 0 0 [] result ∷ [] }
        ensures ram { IfRam self.old self.new (λ old new. new ≡ called (disk_call cmds.Flush 0 0 [] result) old) }
        ensures fails { IfRam self.old self.new (λ old _. IsErr result ↔ Contains old.fails (counted_on old.calls)) }
    {
        match self {
            Drive::Ram(disk) => disk.flush(),
            Drive::Shelved(disk) => disk.flush(),
        }
    }

    ghost counted = { counted_by D.view D.counted };
}

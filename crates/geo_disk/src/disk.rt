//! What a disk is.
ghost use Rattle.std.specs.Prelude.{◌≡◌, ◌+◌, ◌/◌, ◌≤◌, ◌∷◌, [], ◌++◌, length, IfErr, IfSome, OnOk, is_err};
ghost use Rattle.geo_base.specs.declared.request.BioCmd.TheVariants as cmds;
ghost use Rattle.geo_disk.specs.Calls.{disk_call, given_by};
ghost use Rattle.geo_disk.specs.Counts.{counted_if};
ghost use Rattle.geo_disk.specs.Disk.{AreSectors, DiskView, IsRead, done_of, written, zeroed};

use thiserror::Error;

/// A call of a disk failed. `done` sectors of it were done before: 0 where it was a read or a flush.
#[derive(Clone, Copy, Debug, PartialEq, Eq, Error)]
#[error("the disk failed after {done} sectors")]
pub struct DiskFailed {
    pub done: u64,
}

/// A disk: sectors of one size, numbered from 0. Places and counts are in sectors.
pub trait Disk {
    /// What its calls show: the bytes of each sector, where the disk tells them, the size of a sector in bytes, how
    /// many sectors there are, how many calls failed, and what it was asked and what it answered so far, byte by byte.
    ghost view: { Self → DiskView };

    /// How many bytes a sector has, which no call changes.
    fn sector_size(&self) -> u32
        ensures { result ≡ (view self.now).sector };

    /// How many sectors there are, which no call changes.
    fn sectors(&self) -> u64
        ensures { result ≡ (view self.now).count };

    /// Fills `out` with the sectors from `first` on.
    fn read(&mut self, first: u64, out: &mut [u8]) -> Result<(), DiskFailed>
        requires { AreSectors (view self.old).sector (view self.old).count first (length out.old) }
        ensures bytes { (view self.new).sector ≡ (view self.old).sector }
        ensures count { (view self.new).count ≡ (view self.old).count }
        ensures held { (view self.new).held ≡ (view self.old).held }
        ensures read { OnOk result (IsRead (view self.old).held (view self.old).sector first out.new) }
        ensures none_done { IfErr result (λ e. e.done ≡ 0) }
        ensures faults { (view self.new).faults ≡ counted_if (is_err result) (view self.old).faults }
        ensures asked { (view self.new).asked
            ≡ (view self.old).asked ++ disk_call cmds.Read first (length out.old / (view self.old).sector)
            (given_by result out.new) result ∷ [] };

    /// Writes the bytes over the sectors from `first` on. After a failure the first `done` of them are written, and
    /// no other.
    fn write(&mut self, first: u64, bytes: &[u8]) -> Result<(), DiskFailed>
        requires { AreSectors (view self.old).sector (view self.old).count first (length bytes.now) }
        ensures bytes { (view self.new).sector ≡ (view self.old).sector }
        ensures count { (view self.new).count ≡ (view self.old).count }
        ensures held { (view self.new).held
            ≡ written (view self.old).sector first (done_of result (length bytes.now / (view self.old).sector))
            bytes.now (view self.old).held }
        ensures part_done { IfErr result (λ e. e.done ≤ length bytes.now / (view self.old).sector) }
        ensures faults { (view self.new).faults ≡ counted_if (is_err result) (view self.old).faults }
        ensures asked { (view self.new).asked
            ≡ (view self.old).asked ++ disk_call cmds.Write first (length bytes.now / (view self.old).sector)
            bytes.now result ∷ [] };

    /// Writes zeros over `count` sectors from `first` on. After a failure the first `done` of them are zero, and no
    /// other sector changed.
    fn zero(&mut self, first: u64, count: u64) -> Result<(), DiskFailed>
        requires { first + count ≤ (view self.old).count }
        ensures bytes { (view self.new).sector ≡ (view self.old).sector }
        ensures count { (view self.new).count ≡ (view self.old).count }
        ensures held { (view self.new).held
            ≡ zeroed (view self.old).sector first (done_of result count) (view self.old).held }
        ensures part_done { IfErr result (λ e. e.done ≤ count) }
        ensures faults { (view self.new).faults ≡ counted_if (is_err result) (view self.old).faults }
        ensures asked { (view self.new).asked ≡ (view self.old).asked ++ disk_call cmds.Delete first count [] result
            ∷ [] };

    /// Makes what was written last.
    fn flush(&mut self) -> Result<(), DiskFailed>
        ensures bytes { (view self.new).sector ≡ (view self.old).sector }
        ensures count { (view self.new).count ≡ (view self.old).count }
        ensures held { (view self.new).held ≡ (view self.old).held }
        ensures none_done { IfErr result (λ e. e.done ≡ 0) }
        ensures faults { (view self.new).faults ≡ counted_if (is_err result) (view self.old).faults }
        ensures asked { (view self.new).asked ≡ (view self.old).asked ++ disk_call cmds.Flush 0 0 [] result ∷ [] };

    /// The sectors that are told are as many as there are.
    ghost counted: { (disk : Self) → IfSome (view disk).held (λ sectors. length sectors ≡ (view disk).count) };
}

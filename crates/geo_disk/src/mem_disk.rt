//! A disk in memory.
ghost use Rattle.std.specs.Prelude.{◌≡◌, ◌+◌, ◌*◌, ◌/◌, ◌≤◌, ◌<◌, ◌↔◌, [], length, replicate, Some, Contains, IfErr, IsErr, IsTrue, OnOk, is_err, refl};
ghost use Rattle.geo_base.specs.declared.request.BioCmd.TheVariants as cmds;
ghost use Rattle.std.specs.List.{replace_range};
ghost use Rattle.geo_base.specs.Sectors.{joined_sectors, sectors_of};
ghost use Rattle.geo_disk.specs.Calls.{disk_call, given_by};
ghost use Rattle.geo_disk.specs.Counts.{counted_if, counted_on};
ghost use Rattle.geo_disk.specs.Disk.{AreSectors, IsRead, done_of};
ghost use Rattle.geo_disk.specs.Memory.{AreWhole, after_write, after_zero, called, memory_view, part_of};

use crate::calls::DiskCall;
use crate::counts::one_more;
use crate::disk::{Disk, DiskFailed};
use crate::notes::Notes;
use geo_base::{BioCmd, Block, Calls};
use std::marker::Model;

/// A disk whose sectors are kept in memory, with the numbers of the calls that are to fail.
#[derive(Drop)]
pub struct MemDisk {
    bytes: Block,
    sector: u32,
    fails: Calls,
    calls: u64,
    faults: u64,
    part: u64,
    asked: Notes<DiskCall>,
}

impl Model for MemDisk {
    ghost use Rattle.geo_base.specs.Sectors.{sectors_of};
    ghost use Rattle.geo_disk.specs.Memory.{Memory, AreWhole};

    ghost Value = { Memory };

    ghost view = { λ d. record {
      sector = d.sector;
      sectors = sectors_of d.sector d.bytes;
      fails = d.fails;
      calls =
          d.calls;
      faults = d.faults;
      part = d.part;
      asked = d.asked.items;
    } };

    ghost invariant = { λ d. AreWhole d.sector d.bytes };
}

impl MemDisk {
    /// A disk of these bytes in sectors of this size. Its calls of the numbers in `fails` are to fail, counted from 1.
    pub fn new(bytes: Block, sector: u32, fails: Calls) -> MemDisk
        requires { AreWhole sector bytes }
        ensures { result ≡ record {
          sector = sector;
          sectors = sectors_of sector bytes;
          fails = fails;
          calls = 0;
          faults = 0;
          part = 0;
          asked = [];
        } }
    {
        MemDisk {
            bytes,
            sector,
            fails,
            calls: 0,
            faults: 0,
            part: 0,
            asked: Notes::none(),
        }
    }

    /// A disk that goes on where its calls, faults and failing part stood, and that was asked this before.
    pub(crate) fn resumed(
        bytes: Block,
        sector: u32,
        fails: Calls,
        calls: u64,
        faults: u64,
        part: u64,
        asked: Notes<DiskCall>,
    ) -> MemDisk
        requires { AreWhole sector bytes }
        ensures { result ≡ record {
          sector = sector;
          sectors = sectors_of sector bytes;
          fails = fails;
          calls =
              calls;
          faults = faults;
          part = part;
          asked = asked.items;
        } }
    {
        MemDisk {
            bytes,
            sector,
            fails,
            calls,
            faults,
            part,
            asked,
        }
    }

    /// The count of faults.
    pub(crate) fn faults(&self) -> u64
        ensures { result ≡ self.now.faults }
    {
        self.faults
    }

    /// What it was asked.
    pub(crate) fn asked(&self) -> Notes<DiskCall>
        ensures { result.items ≡ self.now.asked }
    {
        self.asked.same()
    }

    /// What goes on where the disk is taken again: its bytes, the calls that are to fail, how many it had, and its
    /// failing part.
    pub(crate) fn into_parts(self) -> (Block, Calls, u64, u64)
        ensures bytes { result.0 ≡ joined_sectors self.sectors }
        ensures fails { result.1 ≡ self.fails }
        ensures calls { result.2 ≡ self.calls }
        ensures part { result.3 ≡ self.part }
    {
        let MemDisk {
            bytes,
            sector: _,
            fails,
            calls,
            faults: _,
            part,
            asked: _,
        } = self;
        (bytes, fails, calls, part)
    }

    /// From now on a failing write or zero first does `done` sectors, or all but one where it has no more.
    pub fn failing_after(&mut self, done: u64)
        ensures { self.new ≡ record self.old { part = done } }
    {
        self.part = done;
    }

    /// Whether the next call is to fail.
    fn next_fails(&self) -> bool
        ensures { IsTrue result ↔ Contains self.now.fails (counted_on self.now.calls) }
    {
        self.fails.has(one_more(self.calls))
    }

    /// A call that asked for `count` sectors from `first` on, by which these bytes passed, was answered so: it is
    /// counted, and so is its failure.
    fn answered(
        &mut self,
        cmd: BioCmd,
        first: u64,
        count: u64,
        bytes: &[u8],
        answer: Result<(), DiskFailed>,
    ) -> Result<(), DiskFailed>
        ensures same { result ≡ answer }
        ensures called { self.new ≡ called (disk_call cmd first count bytes.now answer) self.old }
        ensures faults { self.new.faults ≡ counted_if (is_err answer) self.old.faults }
    {
        self.asked = self
            .asked
            .and(&DiskCall::new(cmd, first, count, bytes, &answer));
        self.calls = one_more(self.calls);
        if answer.is_err() {
            self.faults = one_more(self.faults);
        }
        answer
    }

    /// How many sectors of `all` a failing write or zero does.
    fn part(&self, all: u64) -> u64
        ensures { result ≡ part_of self.now.part all }
    {
        self.part.min(all.saturating_sub(1))
    }

    /// Writes the first `count` sectors of `bytes` from `first` on.
    fn write_sectors(&mut self, first: u64, count: u64, bytes: &[u8])
        requires some { count ≤ length bytes.now / self.old.sector }
        requires inside { first + count ≤ length self.old.sectors }
        ensures written { self.new ≡ after_write self.old first count bytes.now }
        ensures length { length self.new.sectors ≡ length self.old.sectors }
    {
        let all = self.bytes.len();
        let part = &bytes[..count as usize * self.sector as usize];
        let from = byte_place(self.sector, all, first, part.len());
        write_over(self.bytes.bytes_mut(), from, part);
    }

    /// Zeros `count` sectors from `first` on.
    fn zero_sectors(&mut self, first: u64, count: u64)
        requires { first + count ≤ length self.old.sectors }
        ensures zeroed { self.new ≡ after_zero self.old first count }
        ensures length { length self.new.sectors ≡ length self.old.sectors }
    {
        let all = self.bytes.len();
        let size = count as usize * self.sector as usize;
        let from = byte_place(self.sector, all, first, size);
        zero_over(self.bytes.bytes_mut(), from, size);
    }
}

/// The place of the sector `first` among the bytes of a disk.
#[tactic(auto, using(crate::proofs::SectorLemmas::inside_bytes))]
fn byte_place(sector: u32, bytes: usize, first: u64, part: usize) -> usize
    requires some_size { 0 < sector }
    requires sectors { AreSectors sector (bytes / sector) first part }
    ensures place { result ≡ first * sector }
    ensures inside { result + part ≤ bytes }
{
    first as usize * sector as usize
}

/// Writes `part` over the bytes from `from` on.
fn write_over(bytes: &mut [u8], from: usize, part: &[u8])
    requires { from + length part.now ≤ length bytes.old }
    ensures { bytes.new ≡ replace_range bytes.old from (from + length part.now) part.now }
{
    bytes[from..from + part.len()].copy_from_slice(part);
}

/// Zeros `count` bytes from `from` on.
fn zero_over(bytes: &mut [u8], from: usize, count: usize)
    requires { from + count ≤ length bytes.old }
    ensures { bytes.new ≡ replace_range bytes.old from (from + count) (replicate count 0) }
{
    bytes[from..from + count].fill(0);
}

impl Disk for MemDisk {
    ghost view = { memory_view };

    fn sector_size(&self) -> u32 {
        self.sector
    }

    #[tactic(auto, using(crate::proofs::SectorLemmas::sectors_length))]
    fn sectors(&self) -> u64 {
        self.bytes.len() as u64 / u64::from(self.sector)
    }

    fn read(&mut self, first: u64, out: &mut [u8]) -> Result<(), DiskFailed>
        requires { AreSectors self.old.sector (length self.old.sectors) first (length out.old) }
        ensures memory { self.new ≡ called (disk_call cmds.Read first (length out.old / self.old.sector)
            (given_by result out.new) result) self.old }
        ensures fails { IsErr result ↔ Contains self.old.fails (counted_on self.old.calls) }
        ensures read { OnOk result (IsRead (Some self.old.sectors) self.old.sector first out.new) }
        ensures none_done { IfErr result (λ e. e.done ≡ 0) }
        ensures faults { self.new.faults ≡ counted_if (is_err result) self.old.faults }
    {
        let count = out.len() as u64 / u64::from(self.sector);
        if self.next_fails() {
            return self.answered(BioCmd::Read, first, count, &[], Err(DiskFailed { done: 0 }));
        }
        let from = byte_place(self.sector, self.bytes.len(), first, out.len());
        out.copy_from_slice(&self.bytes.bytes()[from..from + out.len()]);
        self.answered(BioCmd::Read, first, count, out, Ok(()))
    }

    fn write(&mut self, first: u64, bytes: &[u8]) -> Result<(), DiskFailed>
        requires { AreSectors self.old.sector (length self.old.sectors) first (length bytes.now) }
        ensures memory { let all = length bytes.now / self.old.sector in self.new
            ≡ called (disk_call cmds.Write first all bytes.now result)
            (after_write self.old first (done_of result all) bytes.now) }
        ensures count { length self.new.sectors ≡ length self.old.sectors }
        ensures fails { IsErr result ↔ Contains self.old.fails (counted_on self.old.calls) }
        ensures done { IfErr result (λ e. e.done ≡ part_of self.old.part (length bytes.now / self.old.sector)) }
        ensures faults { self.new.faults ≡ counted_if (is_err result) self.old.faults }
    {
        let all = bytes.len() as u64 / u64::from(self.sector);
        if self.next_fails() {
            let done = self.part(all);
            self.write_sectors(first, done, bytes);
            return self.answered(BioCmd::Write, first, all, bytes, Err(DiskFailed { done }));
        }
        self.write_sectors(first, all, bytes);
        self.answered(BioCmd::Write, first, all, bytes, Ok(()))
    }

    fn zero(&mut self, first: u64, count: u64) -> Result<(), DiskFailed>
        requires { first + count ≤ length self.old.sectors }
        ensures memory { self.new
            ≡ called (disk_call cmds.Delete first count [] result) (after_zero self.old first (done_of result count)) }
        ensures count { length self.new.sectors ≡ length self.old.sectors }
        ensures fails { IsErr result ↔ Contains self.old.fails (counted_on self.old.calls) }
        ensures done { IfErr result (λ e. e.done ≡ part_of self.old.part count) }
        ensures faults { self.new.faults ≡ counted_if (is_err result) self.old.faults }
    {
        if self.next_fails() {
            let done = self.part(count);
            self.zero_sectors(first, done);
            return self.answered(BioCmd::Delete, first, count, &[], Err(DiskFailed { done }));
        }
        self.zero_sectors(first, count);
        self.answered(BioCmd::Delete, first, count, &[], Ok(()))
    }

    fn flush(&mut self) -> Result<(), DiskFailed>
        ensures memory { self.new ≡ called (disk_call cmds.Flush 0 0 [] result) self.old }
        ensures fails { IsErr result ↔ Contains self.old.fails (counted_on self.old.calls) }
        ensures none_done { IfErr result (λ e. e.done ≡ 0) }
        ensures faults { self.new.faults ≡ counted_if (is_err result) self.old.faults }
    {
        if self.next_fails() {
            return self.answered(BioCmd::Flush, 0, 0, &[], Err(DiskFailed { done: 0 }));
        }
        self.answered(BioCmd::Flush, 0, 0, &[], Ok(()))
    }

    ghost counted = { λ d. refl };
}

//! A disk whose sectors wear out.
ghost use Rattle.std.specs.Prelude.{◌≡◌, ◌+◌, ◌/◌, ◌≤◌, ◌↔◌, [], length, replicate, Some, IfErr, IfOk, IsErr, IsOk, IsTrue, OnOk, is_err, refl};
ghost use Rattle.geo_base.specs.declared.request.BioCmd.TheVariants as cmds;
ghost use Rattle.geo_base.specs.Sectors.{sectors_of};
ghost use Rattle.geo_disk.specs.Calls.{disk_call, given_by};
ghost use Rattle.geo_disk.specs.Counts.{counted_if};
ghost use Rattle.geo_disk.specs.Disk.{AreSectors, IsRead, done_of};
ghost use Rattle.geo_disk.specs.Memory.{AreWhole};
ghost use Rattle.geo_worn.specs.Worn.{after_write, after_zero, is_worn, told, worn_view};

use crate::memory::{clear, get, put};
use crate::wear::{is_worn, wear};
use geo_base::{BioCmd, Block, Calls, NoMemory};
use geo_disk::{Disk, DiskCall, DiskFailed, MemDisk, Notes, one_more};
use std::alloc::Global;
use std::marker::Model;

/// A disk each of whose sectors bears so many writes.
#[derive(Drop)]
pub struct WornDisk {
    memory: MemDisk,
    bears: u64,
    writes: Vec<u64>,
    faults: u64,
    asked: Notes<DiskCall>,
}

impl Model for WornDisk {
    ghost use Rattle.geo_worn.specs.Worn.{HasCounts, Worn};

    ghost Value = { Worn };

    ghost view = { λ d. record {
      sector = d.memory.sector;
      sectors = d.memory.sectors;
      bears = d.bears;
      writes = d.writes.items;
      faults = d.faults;
      asked = d.asked.items;
    } };

    ghost invariant = { λ d. HasCounts d.memory d.writes.items };
}

impl WornDisk {
    /// A disk of these bytes in sectors of this size, none of which was written yet.
    pub fn new(alloc: Global, bytes: Block, sector: u32, bears: u64) -> Result<WornDisk, NoMemory>
        requires { AreWhole sector bytes }
        ensures { IfOk result (λ disk. disk ≡ record {
          sector = sector;
          sectors = sectors_of sector bytes;
          bears = bears;
          writes = replicate (length (sectors_of sector bytes)) 0;
          faults = 0;
          asked = [];
        }) }
    {
        let memory = MemDisk::new(bytes, sector, Calls::none(alloc));
        let writes = Vec::from_elem(alloc, 0, memory.sectors() as usize)?;
        Ok(WornDisk {
            memory,
            bears,
            writes,
            faults: 0,
            asked: Notes::none(),
        })
    }

    /// How often each sector was written.
    pub fn writes(&self) -> &[u64]
        ensures { result.now ≡ self.now.writes }
    {
        self.writes.as_slice()
    }

    /// Whether one of `count` sectors from `first` on bears no more.
    fn is_worn(&self, first: u64, count: u64) -> bool
        requires { first + count ≤ length self.now.sectors }
        ensures { result ≡ is_worn self.now.bears first count self.now.writes }
    {
        is_worn(self.bears, first as usize, count as usize, &self.writes)
    }

    /// A call that asked for `count` sectors from `first` on, by which these bytes passed, was answered so.
    fn answered(
        &mut self,
        cmd: BioCmd,
        first: u64,
        count: u64,
        bytes: &[u8],
        answer: Result<(), DiskFailed>,
    ) -> Result<(), DiskFailed>
        ensures same { result ≡ answer }
        ensures told { self.new ≡ told (disk_call cmd first count bytes.now answer) self.old }
        ensures faults { self.new.faults ≡ counted_if (is_err answer) self.old.faults }
    {
        self.asked = self
            .asked
            .and(&DiskCall::new(cmd, first, count, bytes, &answer));
        if answer.is_err() {
            self.faults = one_more(self.faults);
        }
        answer
    }

    /// Sectors are written, and each had one write more.
    fn write_sectors(&mut self, first: u64, count: u64, bytes: &[u8])
        requires asked { AreSectors self.old.sector (length self.old.sectors) first (length bytes.now) }
        requires count { count ≡ length bytes.now / self.old.sector }
        ensures put { self.new ≡ after_write self.old first count bytes.now }
        ensures count { length self.new.sectors ≡ length self.old.sectors }
    {
        put(&mut self.memory, first, bytes);
        wear(first as usize, count as usize, &mut self.writes);
    }

    /// Sectors are zeroed, and each had one write more.
    fn zero_sectors(&mut self, first: u64, count: u64)
        requires { first + count ≤ length self.old.sectors }
        ensures put { self.new ≡ after_zero self.old first count }
        ensures count { length self.new.sectors ≡ length self.old.sectors }
    {
        clear(&mut self.memory, first, count);
        wear(first as usize, count as usize, &mut self.writes);
    }
}

impl Disk for WornDisk {
    ghost view = { worn_view };

    fn sector_size(&self) -> u32 {
        self.memory.sector_size()
    }

    fn sectors(&self) -> u64 {
        self.memory.sectors()
    }

    /// It never fails.
    fn read(&mut self, first: u64, out: &mut [u8]) -> Result<(), DiskFailed>
        requires { AreSectors self.old.sector (length self.old.sectors) first (length out.old) }
        ensures well { IsOk result }
        ensures disk { self.new ≡ told (disk_call cmds.Read first (length out.old / self.old.sector)
            (given_by result out.new) result) self.old }
        ensures read { OnOk result (IsRead (Some self.old.sectors) self.old.sector first out.new) }
        ensures none_done { IfErr result (λ e. e.done ≡ 0) }
        ensures faults { self.new.faults ≡ counted_if (is_err result) self.old.faults }
    {
        let count = out.len() as u64 / u64::from(self.sector_size());
        get(&mut self.memory, first, out);
        self.answered(BioCmd::Read, first, count, out, Ok(()))
    }

    fn write(&mut self, first: u64, bytes: &[u8]) -> Result<(), DiskFailed>
        requires { AreSectors self.old.sector (length self.old.sectors) first (length bytes.now) }
        ensures fails { IsErr result
            ↔ IsTrue (is_worn self.old.bears first (length bytes.now / self.old.sector) self.old.writes) }
        ensures disk { let all = length bytes.now / self.old.sector in self.new
            ≡ told (disk_call cmds.Write first all bytes.now result)
            (after_write self.old first (done_of result all) bytes.now) }
        ensures count { length self.new.sectors ≡ length self.old.sectors }
        ensures none_done { IfErr result (λ e. e.done ≡ 0) }
        ensures faults { self.new.faults ≡ counted_if (is_err result) self.old.faults }
    {
        let count = bytes.len() as u64 / u64::from(self.sector_size());
        if self.is_worn(first, count) {
            return self.answered(
                BioCmd::Write,
                first,
                count,
                bytes,
                Err(DiskFailed { done: 0 }),
            );
        }
        self.write_sectors(first, count, bytes);
        self.answered(BioCmd::Write, first, count, bytes, Ok(()))
    }

    fn zero(&mut self, first: u64, count: u64) -> Result<(), DiskFailed>
        requires { first + count ≤ length self.old.sectors }
        ensures fails { IsErr result ↔ IsTrue (is_worn self.old.bears first count self.old.writes) }
        ensures disk { self.new ≡ told (disk_call cmds.Delete first count [] result)
            (after_zero self.old first (done_of result count)) }
        ensures count { length self.new.sectors ≡ length self.old.sectors }
        ensures none_done { IfErr result (λ e. e.done ≡ 0) }
        ensures faults { self.new.faults ≡ counted_if (is_err result) self.old.faults }
    {
        if self.is_worn(first, count) {
            return self.answered(
                BioCmd::Delete,
                first,
                count,
                &[],
                Err(DiskFailed { done: 0 }),
            );
        }
        self.zero_sectors(first, count);
        self.answered(BioCmd::Delete, first, count, &[], Ok(()))
    }

    /// It never fails.
    fn flush(&mut self) -> Result<(), DiskFailed>
        ensures well { IsOk result }
        ensures disk { self.new ≡ told (disk_call cmds.Flush 0 0 [] result) self.old }
        ensures none_done { IfErr result (λ e. e.done ≡ 0) }
        ensures faults { self.new.faults ≡ counted_if (is_err result) self.old.faults }
    {
        self.answered(BioCmd::Flush, 0, 0, &[], Ok(()))
    }

    ghost counted = { λ d. refl };
}

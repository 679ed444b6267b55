//! An image file as a disk.
ghost use Rattle.std.specs.Prelude.{◌≡◌, ◌+◌, ◌*◌, ◌/◌, ◌^◌, ◌≤◌, ◌<◌, ◌∷◌, [], ◌++◌, IfErr, OnOk, is_err, length, replicate, take};
ghost use Rattle.geo_base.specs.declared.request.BioCmd.TheVariants as cmds;
ghost use Rattle.geo_disk.specs.Calls.{disk_call, given_by};
ghost use Rattle.geo_disk.specs.Counts.{counted_if};
ghost use Rattle.geo_disk.specs.Disk.{AreSectors};
ghost use Rattle.geo_file.specs.Files.{IsReachable, image_view};
ghost use Rattle.geo_file.specs.Pieces.{Puts, PutsSectors};

use crate::told_file::ToldFile;
use geo_base::BioCmd;
use geo_disk::{Disk, DiskCall, DiskFailed, Notes, one_more};
use std::fs::File;
use std::io;
use std::marker::Model;

/// How many zeros are written at a time.
const PIECE: usize = 4096;

/// An image file as a disk. It doesn't tell what it holds, but each byte that it was asked to write, and each that it
/// gave. Each call reads or writes at the place of its sectors, and nothing else of the file.
#[derive(Drop)]
pub struct FileDisk {
    file: ToldFile,
    sector: u32,
    sectors: u64,
    faults: u64,
    asked: Notes<DiskCall>,
}

impl Model for FileDisk {
    ghost use Rattle.geo_file.specs.Files.{Image, IsReachable};

    ghost Value = { Image };

    ghost view = { λ d. record {
      sector = d.sector;
      sectors = d.sectors;
      faults = d.faults;
      asked = d.asked.items;
      wrote = d.file;
    } };

    ghost invariant = { λ d. IsReachable d.sector d.sectors };
}

impl FileDisk {
    /// The disk of an open file, of this many sectors, that failed so often and was asked this before.
    pub fn new(
        file: File,
        sector: u32,
        sectors: u64,
        faults: u64,
        asked: Notes<DiskCall>,
    ) -> FileDisk
        requires { IsReachable sector sectors }
        ensures { result ≡ record {
          sector = sector;
          sectors = sectors;
          faults = faults;
          asked = asked.items;
          wrote = [];
        } }
    {
        FileDisk {
            file: ToldFile::new(file),
            sector,
            sectors,
            faults,
            asked,
        }
    }

    /// How many calls failed.
    pub fn faults(&self) -> u64
        ensures { result ≡ self.now.faults }
    {
        self.faults
    }

    /// What it was asked.
    pub(crate) fn asked(&self) -> Notes<DiskCall>
        ensures { result.items ≡ self.now.asked }
    {
        self.asked.same()
    }

    /// Has the system keep what was written. A failure is one of the shelf that asks for it, which counts it.
    pub(crate) fn sync(&self) -> io::Result<()> {
        self.file.sync_all()
    }

    /// A call that asked for `count` sectors from `first` on, by which these bytes passed, was answered so: it is told,
    /// and where it failed, that is counted.
    fn answered(
        &mut self,
        cmd: BioCmd,
        first: u64,
        count: u64,
        bytes: &[u8],
        answer: Result<(), DiskFailed>,
    ) -> Result<(), DiskFailed>
        ensures same { result ≡ answer }
        ensures size { (self.new.sector ≡ self.old.sector) × (self.new.sectors ≡ self.old.sectors) }
        ensures faults { self.new.faults ≡ counted_if (is_err answer) self.old.faults }
        ensures asked { self.new.asked ≡ self.old.asked ++ disk_call cmd first count bytes.now answer ∷ [] }
        ensures wrote { self.new.wrote ≡ self.old.wrote }
    {
        self.asked = self
            .asked
            .and(&DiskCall::new(cmd, first, count, bytes, &answer));
        if answer.is_err() {
            self.faults = one_more(self.faults);
        }
        answer
    }
}

/// Writes the bytes at an offset, and says how many were written before a write failed or was of nothing.
fn write_bytes(file: &mut ToldFile, at: u64, bytes: &[u8]) -> usize
    requires { at + length bytes.now < 2 ^ 63 }
    ensures few { result ≤ length bytes.now }
    ensures puts { Puts at (take result bytes.now) file.old file.new }
{
    let mut done = 0;
    while done < bytes.len() {
        let count = file.write_at(at + done as u64, &bytes[done..]);
        if count == 0 {
            return done;
        }
        done += count;
    }
    done
}

/// Writes so many zeros at an offset, and says how many were written before a write failed.
fn write_zeros(file: &mut ToldFile, at: u64, size: u64) -> u64
    requires { at + size < 2 ^ 63 }
    ensures few { result ≤ size }
    ensures puts { Puts at (replicate result 0) file.old file.new }
{
    let zeros = [0u8; PIECE];
    let mut done = 0;
    while done < size {
        let piece = (size - done).min(PIECE as u64);
        let written = write_bytes(file, at + done, &zeros[..piece as usize]) as u64;
        done += written;
        if written < piece {
            return done;
        }
    }
    done
}

impl Disk for FileDisk {
    ghost view = { image_view };

    fn sector_size(&self) -> u32 {
        self.sector
    }

    fn sectors(&self) -> u64 {
        self.sectors
    }

    fn read(&mut self, first: u64, out: &mut [u8]) -> Result<(), DiskFailed>
        requires { AreSectors self.old.sector self.old.sectors first (length out.old) }
        ensures bytes { self.new.sector ≡ self.old.sector }
        ensures count { self.new.sectors ≡ self.old.sectors }
        ensures none_done { IfErr result (λ e. e.done ≡ 0) }
        ensures faults { self.new.faults ≡ counted_if (is_err result) self.old.faults }
        ensures asked { self.new.asked ≡ self.old.asked ++ disk_call cmds.Read first (length out.old / self.old.sector)
            (given_by result out.new) result ∷ [] }

        // Nothing is written to the file.
        ensures wrote { self.new.wrote ≡ self.old.wrote }
    {
        let sector = u64::from(self.sector);
        let count = out.len() as u64 / sector;
        match self.file.read_at(first * sector, out) {
            Ok(()) => self.answered(BioCmd::Read, first, count, out, Ok(())),
            Err(_) => {
                self.answered(BioCmd::Read, first, count, &[], Err(DiskFailed { done: 0 }))
            }
        }
    }

    /// A write of nothing is a failure.
    fn write(&mut self, first: u64, bytes: &[u8]) -> Result<(), DiskFailed>
        requires { AreSectors self.old.sector self.old.sectors first (length bytes.now) }
        ensures bytes { self.new.sector ≡ self.old.sector }
        ensures count { self.new.sectors ≡ self.old.sectors }
        ensures part_done { IfErr result (λ e. e.done ≤ length bytes.now / self.old.sector) }
        ensures faults { self.new.faults ≡ counted_if (is_err result) self.old.faults }
        ensures asked { self.new.asked ≡ self.old.asked
            ++ disk_call cmds.Write first (length bytes.now / self.old.sector) bytes.now result ∷ [] }

        // Just these bytes are written to the file, or, where that fails, a first part of them.
        ensures wrote { PutsSectors result self.old.sector first bytes.now self.old.wrote self.new.wrote }
    {
        let sector = u64::from(self.sector);
        let count = bytes.len() as u64 / sector;
        let written = write_bytes(&mut self.file, first * sector, bytes);
        if written < bytes.len() {
            let done = written as u64 / sector;
            return self.answered(BioCmd::Write, first, count, bytes, Err(DiskFailed { done }));
        }
        self.answered(BioCmd::Write, first, count, bytes, Ok(()))
    }

    fn zero(&mut self, first: u64, count: u64) -> Result<(), DiskFailed>
        requires { first + count ≤ self.old.sectors }
        ensures bytes { self.new.sector ≡ self.old.sector }
        ensures count { self.new.sectors ≡ self.old.sectors }
        ensures part_done { IfErr result (λ e. e.done ≤ count) }
        ensures faults { self.new.faults ≡ counted_if (is_err result) self.old.faults }
        ensures asked { self.new.asked ≡ self.old.asked ++ disk_call cmds.Delete first count [] result ∷ [] }

        // Just zeros are written to the file, one for each byte of these sectors, or, where that fails, fewer.
        ensures wrote { PutsSectors result self.old.sector first (replicate (count * self.old.sector) 0) self.old.wrote
            self.new.wrote }
    {
        let sector = u64::from(self.sector);
        let size = count * sector;
        let written = write_zeros(&mut self.file, first * sector, size);
        if written < size {
            let done = written / sector;
            return self.answered(BioCmd::Delete, first, count, &[], Err(DiskFailed { done }));
        }
        self.answered(BioCmd::Delete, first, count, &[], Ok(()))
    }

    fn flush(&mut self) -> Result<(), DiskFailed>
        ensures bytes { self.new.sector ≡ self.old.sector }
        ensures count { self.new.sectors ≡ self.old.sectors }
        ensures none_done { IfErr result (λ e. e.done ≡ 0) }
        ensures faults { self.new.faults ≡ counted_if (is_err result) self.old.faults }
        ensures asked { self.new.asked ≡ self.old.asked ++ disk_call cmds.Flush 0 0 [] result ∷ [] }

        // Nothing is written to the file.
        ensures wrote { self.new.wrote ≡ self.old.wrote }
    {
        match self.file.sync_data() {
            Ok(()) => self.answered(BioCmd::Flush, 0, 0, &[], Ok(())),
            Err(_) => self.answered(BioCmd::Flush, 0, 0, &[], Err(DiskFailed { done: 0 })),
        }
    }

    ghost counted = { λ d. tt };
}

//! A folder of image files as a shelf.
ghost use Rattle.std.specs.Prelude.{◌≡◌, ℕ, ◌<◌, ◌≤◌, ◌↔◌, [], None, List, Contains, IfOk, IsErrOf, IsTrue, OnOk, is_err};
ghost use Rattle.geo_base.specs.Faults.{HasCause, Rose};
ghost use Rattle.geo_base.specs.Sectors.{IsSectorSize};
ghost use Rattle.geo_disk.specs.Lending.{faults_of, give_faults_of, returned_asked, take_faults_of};
ghost use Rattle.geo_disk.specs.Shelf.{CountsCall, IfTaken, IsOfSize, is_failure, is_take_failed, lent_by};
ghost use Rattle.geo_file.specs.Files.{folder_view, tells_nothing};

use crate::file_disk::FileDisk;
use geo_base::{Name, NoMemory};
use geo_disk::{
    Disk, GiveFault, Lending, Notes, Shelf, ShelfCall, ShelfFault, TakeAnswer, Taken, is_disk_size,
    one_more,
};
use std::alloc::Global;
use std::fs::File;
use std::io;
use std::io::{ErrorKind, Seek, SeekFrom};
use std::marker::Model;
use std::rt::Files;

/// A folder as a shelf: the disk of a name is the file `NAME.img` in it. It doesn't tell what it holds. A name with a
/// slash isn't one of the folder. No file is made or read here: its size is where its end is. Each file is locked from
/// when it is opened until it is closed (flock(2)), so that no other open of it that asks for the lock has it too, be
/// it of another run or under another name, by a link. A lock that isn't had is a fault.
#[derive(Drop)]
pub struct FileShelf<R: Files<File = File> + Drop> {
    rt: R,
    alloc: Global,
    folder: String,
    lending: Lending,
    faults: u64,
    asked: Notes<ShelfCall>,
}

impl<R: Files<File = File> + Drop> Model for FileShelf<R> {
    ghost use Rattle.geo_file.specs.Files.{Folder};

    ghost Value = { Folder };

    ghost view = { λ s. record { loans = s.lending; faults = s.faults; asked = s.asked.items } };
}

impl<R: Files<File = File> + Drop> FileShelf<R> {
    /// The shelf of this folder, of which nothing is lent.
    pub fn new(rt: R, alloc: Global, folder: &str) -> Result<FileShelf<R>, NoMemory>
        ensures { IfOk result (λ shelf. shelf ≡ record {
          loans = record { lent = []; counts = []; returned = [] };
          faults = 0;
          asked = [];
        }) }
    {
        Ok(FileShelf {
            rt,
            alloc,
            folder: String::from_str(alloc, folder)?,
            lending: Lending::new(alloc),
            faults: 0,
            asked: Notes::none(),
        })
    }

    /// Counts a take that failed. Where there is no memory for the count of its name, that is the answer.
    fn fail_take(&mut self, name: &Name) -> ShelfFault
        ensures lent { self.new.loans.lent ≡ self.old.loans.lent }
        ensures returned { self.new.loans.returned ≡ self.old.loans.returned }
        ensures asked { self.new.asked ≡ self.old.asked }
        ensures disks { (other : List ℕ) → faults_of self.new.loans other ≡ faults_of self.old.loans other }
        ensures takes { CountsCall (is_failure result) name.now (take_faults_of self.old.loans)
            (take_faults_of self.new.loans) }
        ensures gives { (other : List ℕ) → give_faults_of self.new.loans other ≡ give_faults_of self.old.loans other }
        ensures later { self.old.faults ≤ self.new.faults }
        ensures rose { result ≡ ShelfFault.Failed → Rose self.old.faults self.new.faults }
    {
        match self.lending.make_room(name) {
            Ok(()) => {
                self.lending.count_failed_take(name);
                self.faults = one_more(self.faults);
                ShelfFault::Failed
            }
            Err(_) => ShelfFault::NoMemory,
        }
    }

    /// Has the system keep what was written to the disk of a name. Where it doesn't, a give of the name failed.
    fn sync(&mut self, name: &Name, disk: &FileDisk) -> Result<(), ShelfFault>
        requires { Contains self.old.loans.lent name.now }
        ensures lent { self.new.loans.lent ≡ self.old.loans.lent }
        ensures returned { self.new.loans.returned ≡ self.old.loans.returned }
        ensures asked { self.new.asked ≡ self.old.asked }
        ensures disks { (other : List ℕ) → faults_of self.new.loans other ≡ faults_of self.old.loans other }
        ensures takes { (other : List ℕ) → take_faults_of self.new.loans other ≡ take_faults_of self.old.loans other }
        ensures gives { CountsCall (is_err result) name.now (give_faults_of self.old.loans)
            (give_faults_of self.new.loans) }
        ensures cause { HasCause self.old.faults self.new.faults result }
        ensures no_fault { OnOk result (self.new.faults ≡ self.old.faults) }
    {
        if disk.sync().is_err() {
            self.lending.count_failed_give(name);
            self.faults = one_more(self.faults);
            return Err(ShelfFault::Failed);
        }
        Ok(())
    }

    /// Takes the disk of a name.
    fn take_now(&mut self, name: &Name, sector: u32) -> Result<Taken<FileDisk>, ShelfFault>
        requires { IsSectorSize sector }
        ensures not_lent { IfTaken result (λ d. Contains self.old.loans.lent name.now → ⊥) }
        ensures size { IfTaken result (λ d. IsOfSize sector d.sector d.sectors) }
        ensures brought { IfTaken result (λ d. d.faults ≡ faults_of self.old.loans name.now) }
        ensures asked { IfTaken result (λ d. d.asked ≡ returned_asked self.old.loans name.now) }
        ensures lent { self.new.loans.lent ≡ lent_by result name.now self.old.loans.lent }
        ensures returned { self.new.loans.returned ≡ self.old.loans.returned }
        ensures disks { (other : List ℕ) → faults_of self.new.loans other ≡ faults_of self.old.loans other }
        ensures takes { CountsCall (is_take_failed result) name.now (take_faults_of self.old.loans)
            (take_faults_of self.new.loans) }
        ensures gives { (other : List ℕ) → give_faults_of self.new.loans other ≡ give_faults_of self.old.loans other }
        ensures later { self.old.faults ≤ self.new.faults }
        ensures failed { IsErrOf result ShelfFault.Failed → Rose self.old.faults self.new.faults }
        ensures no_fault { OnOk result (self.new.faults ≡ self.old.faults) }
        ensures calls { self.new.asked ≡ self.old.asked }
    {
        if self.lending.has(name) || has_slash(name) {
            return Ok(Taken::Missing);
        }
        let Ok(path) = path_of(self.alloc, self.folder.as_str(), name) else {
            return Err(ShelfFault::NoMemory);
        };
        let (file, size) = match self.open(path.as_str()) {
            Ok(Some(found)) => found,
            Ok(None) => return Ok(Taken::Missing),
            Err(_) => return Err(self.fail_take(name)),
        };
        if !is_disk_size(size, sector) {
            return Ok(Taken::BadSize);
        }
        let faults = self.lending.faults_of(name);
        let asked = self.lending.asked_of(name);
        let Ok(()) = self.lending.lend(name) else {
            return Err(ShelfFault::NoMemory);
        };
        let sectors = size / u64::from(sector);
        Ok(Taken::Disk(FileDisk::new(file, sector, sectors, faults, asked)))
    }

    /// Opens the file of a name, locks it, and says how long it is. None where there is no such file.
    fn open(&self, path: &str) -> io::Result<Option<(File, u64)>> {
        let mut file = match File::options().read(true).write(true).open(&self.rt, path) {
            Ok(file) => file,
            Err(e) if e.kind() == ErrorKind::NotFound => return Ok(None),
            Err(e) => return Err(e),
        };
        file.try_lock()?;
        let size = file.seek(SeekFrom::End(0))?;
        Ok(Some((file, size)))
    }
}

/// Whether a name has a slash.
fn has_slash(name: &Name) -> bool
    ensures { IsTrue result ↔ Contains name.now 47 }
{
    name.bytes().contains(&b'/')
}

/// The place of the file of a name. The bytes of a name are ASCII.
fn path_of(alloc: Global, folder: &str, name: &Name) -> Result<String, NoMemory> {
    let mut path = String::from_str(alloc, folder)?;
    path.push('/')?;
    for byte in name.bytes() {
        path.push(char::from(*byte))?;
    }
    path.push_str(".img")?;
    Ok(path)
}

impl<R: Files<File = File> + Drop> Shelf for FileShelf<R> {
    type D = FileDisk;

    ghost view = { folder_view };

    fn take(&mut self, name: &Name, sector: u32) -> Result<Taken<FileDisk>, ShelfFault> {
        let answer = self.take_now(name, sector);
        self.asked = self
            .asked
            .and(&ShelfCall::Take(*name, TakeAnswer::of(&answer)));
        answer
    }

    fn give(&mut self, name: &Name, disk: FileDisk) -> Result<(), GiveFault<FileDisk>> {
        self.asked = self.asked.and(&ShelfCall::Give(*name));
        self.lending
            .offer(name, disk.faults(), disk.asked(), disk.sectors());
        if self.sync(name, &disk).is_err() {
            return Err(GiveFault { name: *name, disk });
        }
        self.lending.give_back(name);
        Ok(())
    }

    ghost lent_is_missing = { tells_nothing };
}

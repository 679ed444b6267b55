//! Disks that are taken from a shelf for a plan, and given back.
ghost use Rattle.std.specs.Prelude.{◌≡◌, ◌≢◌, ◌⊎◌, ◌<◌, ◌≤◌, ◌+◌, [], ◌∷◌, ◌++◌, ℕ, List, All, Some, None, length, map, vec_len, vec_capacity, slice_get, IfOk, IfErr, OnOk, IsTrue};
ghost use Rattle.geo_model.specs.declared.command.DiskKind.TheVariants as disk_kinds;
ghost use Rattle.geo_model.specs.Plans.{IsDiskDecl};
ghost use Rattle.geo_run.specs.Drives.{drive_kind, drive_view};
ghost use Rattle.geo_run.specs.Lending.{AreApart, AreOut, GivesBack, GivesDrive, IsOut, IsZeroDisk, OpensDrive, OpensDrives, OpensNoDrive, StopsOpening, TakesBack, TakesDisk, TakesNothing, first_kept, kept_name, names_of, shelved_view};

use crate::stop::Stop;
use geo_base::{Block, Calls, Name, NoMemory};
use geo_disk::{Drive, MemDisk, Shelf, ShelfFault, Taken};
use geo_model::{DiskDecl, DiskKind};
use std::alloc::Global;

/// The drives of the disks of a plan, in header order, with the names of these disks.
#[derive(Drop)]
pub struct Lent<D> {
    pub names: Vec<Name>,
    pub drives: Vec<Drive<D>>,
}

/// Room for so many drives and their names.
fn with_room<D>(alloc: Global, count: usize) -> Result<Lent<D>, NoMemory>
    ensures no_name { IfOk result (λ lent. lent.names.items ≡ []) }
    ensures none { IfOk result (λ lent. lent.drives.items ≡ []) }
    ensures no_names { IfOk result (λ lent. vec_len lent.names ≡ 0) }
    ensures no_drive { IfOk result (λ lent. vec_len lent.drives ≡ 0) }
    ensures name_room { IfOk result (λ lent. count ≤ vec_capacity lent.names) }
    ensures room { IfOk result (λ lent. count ≤ vec_capacity lent.drives) }
{
    Ok(Lent {
        names: Vec::with_capacity(alloc, count)?,
        drives: Vec::with_capacity(alloc, count)?,
    })
}

/// The disk in memory of a declaration: zeros.
fn memory_disk(alloc: Global, decl: &DiskDecl) -> Result<MemDisk, NoMemory>
    requires decl { IsDiskDecl decl.now }
    requires kind { decl.now.kind ≡ disk_kinds.Ram }
    ensures { IfOk result (IsZeroDisk decl.now) }
{
    let bytes = Block::zeros(alloc, decl.sector * decl.sectors as u32)?;
    Ok(MemDisk::new(bytes, decl.sector, Calls::none(alloc)))
}

/// Takes the disk of a declaration from the shelf.
fn take_disk<H: Shelf>(decl: &DiskDecl, shelf: &mut H) -> Result<H::D, Stop>
    requires decl { IsDiskDecl decl.now }
    ensures taken { IfOk result (λ d. TakesDisk
        (H.view shelf.old) decl.now
        (shelved_view H.D.view d)
        (H.view shelf.new)) }
    ensures stopped { IfErr result (λ stop. TakesNothing
        (H.view shelf.old) decl.now stop
        (H.view shelf.new)) }
{
    match shelf.take(&decl.name, decl.sector) {
        Ok(Taken::Disk(disk)) => Ok(disk),
        Ok(Taken::Missing) => Err(Stop::NoDisk(decl.name)),
        Ok(Taken::BadSize) => Err(Stop::BadSize(decl.name)),
        Err(ShelfFault::Failed) => Err(Stop::ShelfFault(decl.name)),
        Err(ShelfFault::NoMemory) => Err(Stop::NoMemory),
    }
}

/// The drive of a declaration: its disk in memory, or its disk of the shelf.
fn open_drive<H: Shelf>(alloc: Global, decl: &DiskDecl, shelf: &mut H) -> Result<Drive<H::D>, Stop>
    requires decl { IsDiskDecl decl.now }
    ensures opened { IfOk result (λ drive. OpensDrive
        (H.view shelf.old) decl.now
        (drive_view H.D.view drive)
        (H.view shelf.new) decl.now.kind) }
    ensures stopped { IfErr result (λ stop. OpensNoDrive
        (H.view shelf.old) decl.now stop
        (H.view shelf.new) decl.now.kind) }
{
    match decl.kind {
        DiskKind::Ram => Ok(Drive::Ram(memory_disk(alloc, decl)?)),
        DiskKind::Shelf => Ok(Drive::Shelved(take_disk(decl, shelf)?)),
    }
}

/// Keeps the drive of a declaration, and its name, in room that was made.
fn keep<D>(lent: &mut Lent<D>, decl: &DiskDecl, drive: Drive<D>)
    requires room { vec_len lent.old.drives < vec_capacity lent.old.drives }
    requires name_room { vec_len lent.old.names < vec_capacity lent.old.names }
    ensures drives { lent.new.drives.items ≡ lent.old.drives.items ++ drive ∷ [] }
    ensures names { lent.new.names.items ≡ lent.old.names.items ++ decl.now.name ∷ [] }
    ensures count { vec_len lent.new.drives ≡ vec_len lent.old.drives + 1 }
    ensures name_count { vec_len lent.new.names ≡ vec_len lent.old.names + 1 }
    ensures room { vec_capacity lent.new.drives ≡ vec_capacity lent.old.drives }
    ensures name_room { vec_capacity lent.new.names ≡ vec_capacity lent.old.names }
{
    lent.names.push_reserved(decl.name);
    lent.drives.push_reserved(drive);
}

/// Takes the disks of the declarations in order, into room that was made, until one can't be had.
fn take_into<H: Shelf>(
    alloc: Global,
    decls: &[DiskDecl],
    shelf: &mut H,
    lent: &mut Lent<H::D>,
) -> Result<(), Stop>
    requires decls { All IsDiskDecl decls.now }
    requires none { lent.old.drives.items ≡ [] }
    requires no_name { lent.old.names.items ≡ [] }
    requires no_drive { vec_len lent.old.drives ≡ 0 }
    requires no_names { vec_len lent.old.names ≡ 0 }
    requires room { length decls.now ≤ vec_capacity lent.old.drives }
    requires name_room { length decls.now ≤ vec_capacity lent.old.names }
    ensures taken { OnOk result (OpensDrives
        (H.view shelf.old) decls.now
        (map (drive_view H.D.view) lent.new.drives.items)
        (H.view shelf.new)) }
    ensures named { OnOk result (lent.new.names.items ≡ names_of decls.now) }
    ensures stopped { IfErr result (λ stop. StopsOpening
        (H.view shelf.old) decls.now
        lent.new.names.items
        (map (drive_view H.D.view) lent.new.drives.items) stop
        (H.view shelf.new)) }
{
    for decl in decls {
        match open_drive(alloc, decl, shelf) {
            Ok(drive) => keep(lent, decl, drive),
            Err(stop) => return Err(stop),
        }
    }
    Ok(())
}

/// Gives a drive back under its name, where it is of the shelf, and says whether the name isn't lent any more.
fn give_drive<H: Shelf>(shelf: &mut H, name: &Name, drive: Drive<H::D>) -> bool
where
    H::D: Drop,
    requires out { drive_kind (drive_view H.D.view drive) ≡ disk_kinds.Shelf
        → IsOut (H.view shelf.old) name.now
        (drive_view H.D.view drive) }
    ensures { GivesDrive
        (H.view shelf.old) name.now
        (drive_view H.D.view drive) (kept_name result name.now)
        (H.view shelf.new)
        (drive_kind (drive_view H.D.view drive)) }
{
    match drive {
        Drive::Ram(_) => true,
        Drive::Shelved(disk) => shelf.give(name, disk).is_ok(),
    }
}

/// The first name that is kept: the one before, or this one unless it was given back.
fn first_kept(kept: Option<Name>, given: bool, name: &Name) -> Option<Name>
    ensures { result ≡ first_kept kept given name.now }
{
    match kept {
        Some(first) => Some(first),
        None => { if given { None } else { Some(*name) } }
    }
}

/// Gives the drives of a plan back in order, whatever happens, and says the first name of which that failed.
pub fn give_back<H: Shelf>(lent: Lent<H::D>, shelf: &mut H) -> Option<Name>
where
    H::D: Drop,
    requires out { AreOut
        (H.view shelf.old) lent.names.items
        (map (drive_view H.D.view) lent.drives.items) }
    ensures { (kept : List (List ℕ)) × (result ≡ slice_get kept 0) × GivesBack
        (H.view shelf.old) lent.names.items
        (map (drive_view H.D.view) lent.drives.items) kept
        (H.view shelf.new) }
{
    let Lent { names, drives } = lent;
    let mut kept: Option<Name> = None;
    let mut place = 0;
    for drive in drives {
        let name = &names[place];
        let given = give_drive(shelf, name, drive);
        kept = first_kept(kept, given, name);
        place += 1;
    }
    kept
}

/// Takes the disks of the declarations in order. Where one can't be had, those that were taken are given back.
pub fn take_disks<H: Shelf>(
    alloc: Global,
    decls: &[DiskDecl],
    shelf: &mut H,
) -> Result<Lent<H::D>, Stop>
where
    H::D: Drop,
    requires decls { All IsDiskDecl decls.now }
    requires names { AreApart (names_of decls.now) }
    ensures taken { IfOk result (λ lent. OpensDrives
        (H.view shelf.old) decls.now
        (map (drive_view H.D.view) lent.drives.items)
        (H.view shelf.new)) }
    ensures named { IfOk result (λ lent. lent.names.items ≡ names_of decls.now) }
    ensures stopped { IfErr result (λ stop. TakesBack
        (H.view shelf.old) decls.now stop
        (H.view shelf.new)) }
{
    let mut lent = with_room(alloc, decls.len())?;
    match take_into(alloc, decls, shelf, &mut lent) {
        Ok(()) => Ok(lent),
        Err(stop) => {
            give_back(lent, shelf);
            Err(stop)
        }
    }
}

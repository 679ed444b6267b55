//! The disks of a mesh.
ghost use Rattle.std.specs.Prelude.{IfSome};
ghost use Rattle.geo_model.specs.Plans.{IsFact};

use crate::stop::Stop;
use geo_base::{Block, Calls, MAX_IMAGE_BYTES, NoMemory};
use geo_disk::{Disk, Drive, MemDisk, Shelf, Taken};
use geo_model::{DiskDecl, DiskKind};
use std::alloc::Global;

/// A disk in memory, of zeros. None where a declaration has another form than scripts give it.
fn memory_disk(alloc: Global, decl: &DiskDecl) -> Result<Option<MemDisk>, NoMemory> {
    let sector = decl.sector as u64;
    let Some(bytes) = sector.checked_mul(decl.sectors) else {
        return Ok(None);
    };
    if sector == 0 || bytes == 0 || bytes % sector != 0 || bytes > u32::MAX as u64 {
        return Ok(None);
    }
    let block = Block::zeros(alloc, bytes as u32)?;
    Ok(Some(MemDisk::new(block, decl.sector, Calls::none(alloc))))
}

/// A disk of the shelf, if it can be had.
fn shelf_disk<H: Shelf>(decl: &DiskDecl, shelf: &mut H) -> Option<H::D>
where
    H::D: Drop,
{
    if decl.sector != 512 && decl.sector != 4096 {
        return None;
    }
    match shelf.take(&decl.name, decl.sector) {
        Ok(Taken::Disk(disk)) => Some(disk),
        _ => None,
    }
}

/// The disk of a declaration, if it can be had.
fn drive_of<H: Shelf>(
    alloc: Global,
    decl: &DiskDecl,
    shelf: &mut H,
) -> Result<Option<Drive<H::D>>, NoMemory>
where
    H::D: Drop,
{
    match decl.kind {
        DiskKind::Ram => match memory_disk(alloc, decl)? {
            Some(disk) => Ok(Some(Drive::Ram(disk))),
            None => Ok(None),
        },
        DiskKind::Shelf => match shelf_disk(decl, shelf) {
            Some(disk) => Ok(Some(Drive::Shelved(disk))),
            None => Ok(None),
        },
    }
}

/// The disks of the declarations, in their order.
pub fn drives_of<H: Shelf>(
    alloc: Global,
    decls: &[DiskDecl],
    shelf: &mut H,
) -> Result<Vec<Drive<H::D>>, Stop>
where
    H::D: Drop,
{
    let mut drives = Vec::new(alloc);
    let mut disk = 0u32;
    for decl in decls {
        match drive_of(alloc, decl, shelf)? {
            Some(drive) => drives.push(drive)?,
            None => return Err(Stop::NoDisk { disk }),
        }
        disk = disk.saturating_add(1);
    }
    Ok(drives)
}

/// The size of a disk, if it fits its declaration.
pub fn fact_of<D: Disk>(decl: &DiskDecl, drive: &Drive<D>) -> Option<(u32, u64)>
    ensures { IfSome result (IsFact decl.now) }
{
    let sector = drive.sector_size();
    let sectors = drive.sectors();
    let bytes = sectors.checked_mul(sector as u64)?;
    if sector != decl.sector || sectors == 0 || MAX_IMAGE_BYTES < bytes {
        return None;
    }
    match decl.kind {
        DiskKind::Ram if sectors != decl.sectors => None,
        _ => Some((sector, sectors)),
    }
}

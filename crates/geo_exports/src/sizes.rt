//! The sizes of the disks of a header, as C gives them.
ghost use Rattle.std.specs.Prelude.{◌≡◌, IfOk, map};
ghost use Rattle.geo_exports.specs.Opening.{fact_of, sectors_fit, size_fits, sizes_fit};

use geo_base::{MAX_IMAGE_BYTES, NoMemory};
use geo_log::DiskFacts;
use geo_model::{DiskDecl, DiskKind};
use std::alloc::Global;

/// How large a disk is: a sector in bytes, as the header says, and how many there are.
#[repr(C)]
#[derive(Clone, Copy)]
pub struct TzbSize {
    pub sectors: u64,
    pub sector: u32,
    /// 0.
    pub spare: u32,
}

// Whether a disk of this kind may have so many sectors, where the header tells a memory disk's.
fn sectors_fit(kind: DiskKind, told: u64, given: u64) -> bool
    ensures { result ≡ sectors_fit kind told given }
{
    match kind {
        DiskKind::Ram => given == told,
        DiskKind::Shelf => true,
    }
}

// Whether the size of a disk fits its line of the header.
fn size_fits(disk: &DiskDecl, size: TzbSize) -> bool
    ensures { result ≡ size_fits disk.now size }
{
    size.sector == disk.sector
        && sectors_fit(disk.kind, disk.sectors, size.sectors)
        && 1 <= size.sectors
        && u128::from(size.sectors) * u128::from(size.sector) <= u128::from(MAX_IMAGE_BYTES)
}

/// Whether each disk has a size that fits, in the order of the header.
pub fn sizes_fit(disks: &[DiskDecl], sizes: &[TzbSize]) -> bool
    ensures { result ≡ sizes_fit disks.now sizes.now }
{
    let mut rest = sizes;
    for disk in disks {
        let [size, behind @ ..] = rest else {
            return false;
        };
        if !size_fits(disk, *size) {
            return false;
        }
        rest = behind;
    }
    true
}

/// These sizes, as a mesh begins with them.
pub fn listed(alloc: Global, sizes: &[TzbSize]) -> Result<DiskFacts, NoMemory>
    ensures { IfOk result (λ facts. facts.items ≡ map fact_of sizes.now) }
{
    let mut facts = DiskFacts::new(alloc);
    facts.reserve(sizes.len() as u64)?;
    for size in sizes {
        facts.push(size.sector, size.sectors);
    }
    Ok(facts)
}

//! A disk of three sectors, each of which bears two writes.

use crate::WornDisk;
use geo_base::{Block, NoMemory};
use geo_disk::{Disk, DiskFailed};
use std::alloc::Global;

fn worn(alloc: Global) -> Result<WornDisk, NoMemory> {
    let bytes = [1u8; 1536];
    let block = Block::from_slice(alloc, bytes.as_slice())?;
    WornDisk::new(alloc, block, 512, 2)
}

#[test]
fn a_sector_bears_two_writes(rt: HostRuntime) {
    let mut disk = worn(rt.alloc()).expect(&rt, "memory");
    assert!(rt; disk.sector_size() == 512 && disk.sectors() == 3);
    let sector = [7u8; 512];
    let failed = Err(DiskFailed { done: 0 });
    assert!(rt; disk.write(1, sector.as_slice()).is_ok());
    assert!(rt; disk.zero(1, 2).is_ok());
    assert!(rt; disk.write(1, sector.as_slice()) == failed);
    assert!(rt; disk.zero(0, 3) == failed);
    assert!(rt; disk.write(2, sector.as_slice()).is_ok());
    assert!(rt; disk.flush().is_ok());
    let mut out = [9u8; 1536];
    assert!(rt; disk.read(0, out.as_mut_slice()).is_ok());
    assert!(rt; out[0] == 1 && out[512] == 0 && out[1024] == 7);
    let writes = disk.writes();
    assert!(rt; writes.len() == 3 && writes[0] == 0 && writes[1] == 2 && writes[2] == 2);
}

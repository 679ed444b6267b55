//! A disk in memory of whose calls none is to fail.
ghost use Rattle.std.specs.Prelude.{◌≡◌, ◌+◌, ◌/◌, ◌≤◌, [], length, Some};
ghost use Rattle.geo_base.specs.Sectors.{cut_into, with_sectors, zero_sectors};
ghost use Rattle.geo_disk.specs.Disk.{AreSectors, IsRead};

use geo_disk::{Disk, MemDisk};

/// Reads sectors.
pub fn get(memory: &mut MemDisk, first: u64, out: &mut [u8])
    requires sure { memory.old.fails ≡ [] }
    requires asked { AreSectors memory.old.sector (length memory.old.sectors) first (length out.old) }
    ensures read { IsRead (Some memory.old.sectors) memory.old.sector first out.new }
    ensures sure { memory.new.fails ≡ [] }
    ensures size { memory.new.sector ≡ memory.old.sector }
    ensures held { memory.new.sectors ≡ memory.old.sectors }
{
    match memory.read(first, out) {
        Ok(()) => {}
        Err(_) => unreachable!(),
    }
}

/// Writes sectors.
pub fn put(memory: &mut MemDisk, first: u64, bytes: &[u8])
    requires sure { memory.old.fails ≡ [] }
    requires asked { AreSectors memory.old.sector (length memory.old.sectors) first (length bytes.now) }
    ensures sure { memory.new.fails ≡ [] }
    ensures size { memory.new.sector ≡ memory.old.sector }
    ensures count { length memory.new.sectors ≡ length memory.old.sectors }
    ensures held { memory.new.sectors ≡ with_sectors memory.old.sectors first
        (cut_into (length bytes.now / memory.old.sector) memory.old.sector bytes.now) }
{
    match memory.write(first, bytes) {
        Ok(()) => {}
        Err(_) => unreachable!(),
    }
}

/// Writes zeros over sectors.
pub fn clear(memory: &mut MemDisk, first: u64, count: u64)
    requires sure { memory.old.fails ≡ [] }
    requires asked { first + count ≤ length memory.old.sectors }
    ensures sure { memory.new.fails ≡ [] }
    ensures size { memory.new.sector ≡ memory.old.sector }
    ensures count { length memory.new.sectors ≡ length memory.old.sectors }
    ensures held { memory.new.sectors ≡ with_sectors memory.old.sectors first (zero_sectors count memory.old.sector) }
{
    match memory.zero(first, count) {
        Ok(()) => {}
        Err(_) => unreachable!(),
    }
}

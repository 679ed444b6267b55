ghost use Rattle.std.specs.Prelude.{◌≤◌};

use crate::same::assert_same;
use geo_base::{Block, Calls, Name, NoMemory};
use geo_disk::{Disk, DiskFailed, Drive, GiveFault, MemDisk, MemShelf, Shelf, ShelfFault, Taken};
use std::alloc::Global;
use std::process::Abort;

/// A disk of three sectors of 512 bytes, each full of the number of its place from 1 on.
fn numbered(alloc: Global, fails: &[u64]) -> Result<MemDisk, NoMemory> {
    let mut bytes = [1u8; 1536];
    bytes[512..1024].fill(2);
    bytes[1024..].fill(3);
    let block = Block::from_slice(alloc, bytes.as_slice())?;
    Ok(MemDisk::new(block, 512, Calls::of(alloc, fails)?))
}

/// The first byte of each sector of a disk of three, and whether each sector has one byte throughout.
fn first_bytes<D: Disk>(rt: &impl Abort, disk: &mut D) -> [u8; 3] {
    let mut out = [0u8; 1536];
    assert!(rt; disk.sector_size() == 512 && disk.sectors() == 3);
    assert!(rt; disk.read(0, out.as_mut_slice()).is_ok());
    for place in 0..3 {
        let sector = &out[place * 512..place * 512 + 512];
        let first = sector[0];
        assert!(rt; sector.iter().all(|b| *b == first));
    }
    [out[0], out[512], out[1024]]
}

#[test]
fn each_failing_call_of_a_disk_says_so(rt: HostRuntime) {
    for failing in 1..5u64 {
        let mut out = [0u8; 512];
        let mut disk = numbered(rt.alloc(), &[failing]).expect(&rt, "memory");
        assert!(rt; disk.sector_size() == 512 && disk.sectors() == 3);
        let read = disk.read(1, out.as_mut_slice());
        let write = disk.write(0, [7u8; 512].as_slice());
        let zero = disk.zero(2, 1);
        let flush = disk.flush();
        let failed = Err(DiskFailed { done: 0 });
        assert!(rt; (read == failed) == (failing == 1));
        assert!(rt; (write == failed) == (failing == 2));
        assert!(rt; (zero == failed) == (failing == 3));
        assert!(rt; (flush == failed) == (failing == 4));
        let bytes = first_bytes(&rt, &mut disk);
        let written = if failing == 2 { 1 } else { 7 };
        let zeroed = if failing == 3 { 3 } else { 0 };
        assert_same(&rt, bytes, [written, 2, zeroed]);
    }
}

#[test]
fn a_failing_call_does_a_part(rt: HostRuntime) {
    let mut disk = numbered(rt.alloc(), &[1, 2, 4]).expect(&rt, "memory");
    disk.failing_after(2);
    assert!(rt; disk.sector_size() == 512 && disk.sectors() == 3);
    // It never does all of a call, however much it was told to do.
    assert_same(
        &rt,
        disk.write(0, [7u8; 1024].as_slice()),
        Err(DiskFailed { done: 1 }),
    );
    assert_same(&rt, disk.zero(0, 3), Err(DiskFailed { done: 2 }));
    assert_same(&rt, first_bytes(&rt, &mut disk), [0, 0, 3]);
    disk.failing_after(1);
    assert!(rt; disk.sector_size() == 512 && disk.sectors() == 3);
    assert_same(
        &rt,
        disk.write(0, [9u8; 1536].as_slice()),
        Err(DiskFailed { done: 1 }),
    );
    let mut drive: Drive<MemDisk> = Drive::Ram(disk);
    assert_same(&rt, first_bytes(&rt, &mut drive), [9, 0, 3]);
}

#[test]
fn the_flush_of_a_drive_is_that_of_its_disk(rt: HostRuntime) {
    let mut ram: Drive<MemDisk> = Drive::Ram(numbered(rt.alloc(), &[1]).expect(&rt, "memory"));
    assert_same(&rt, ram.flush(), Err(DiskFailed { done: 0 }));
    let mut shelved = Drive::Shelved(numbered(rt.alloc(), &[1]).expect(&rt, "memory"));
    assert_same(&rt, shelved.flush(), Err(DiskFailed { done: 0 }));
}

/// A block of so many bytes of one value.
fn full(alloc: Global, size: u32, byte: u8) -> Result<Block, NoMemory> {
    let mut block = Block::zeros(alloc, size)?;
    block.bytes_mut().fill(byte);
    Ok(block)
}

/// Whether the shelf has no such name.
fn is_missing(taken: Result<Taken<MemDisk>, ShelfFault>) -> bool {
    matches!(taken, Ok(Taken::Missing))
}

/// Whether what is under the name isn't whole sectors.
fn is_bad_size(taken: Result<Taken<MemDisk>, ShelfFault>) -> bool {
    matches!(taken, Ok(Taken::BadSize))
}

/// Whether the disk is back on the shelf.
fn is_back(given: Result<(), GiveFault<MemDisk>>) -> bool {
    given.is_ok()
}

#[test]
fn a_shelf_lends_a_disk_and_takes_it_back(rt: HostRuntime) {
    let alloc = rt.alloc();
    let name = Name::new(b"da0").expect(&rt, "a name");
    let other = Name::new(b"da1").expect(&rt, "a name");
    let mut shelf = MemShelf::new(alloc);
    let bytes = full(alloc, 1536, 5).expect(&rt, "memory");
    shelf
        .put(&name, bytes, Calls::none(alloc))
        .expect(&rt, "memory");
    assert!(rt; is_missing(shelf.take(&other, 512)));
    assert!(rt; is_bad_size(shelf.take(&name, 4096)));
    let disk = match shelf.take(&name, 512) {
        Ok(Taken::Disk(disk)) => disk,
        _ => panic!(rt; "no disk"),
    };
    assert!(rt; shelf.bytes_of(&name).is_none());
    assert!(rt; is_back(shelf.give(&name, disk)));
    let bytes = shelf.bytes_of(&name).expect(&rt, "bytes");
    assert!(rt; bytes.len() == 1536 && bytes.iter().all(|b| *b == 5));
    drop(shelf);
}

#[test]
fn a_lent_name_is_missing(rt: HostRuntime) {
    let alloc = rt.alloc();
    let name = Name::new(b"da0").expect(&rt, "a name");
    let mut shelf = MemShelf::new(alloc);
    let bytes = full(alloc, 512, 5).expect(&rt, "memory");
    shelf
        .put(&name, bytes, Calls::none(alloc))
        .expect(&rt, "memory");
    let disk = match shelf.take(&name, 512) {
        Ok(Taken::Disk(disk)) => disk,
        _ => panic!(rt; "no disk"),
    };
    assert!(rt; is_missing(shelf.take(&name, 512)));
    drop(disk);
    drop(shelf);
}

#[test]
fn a_disk_that_is_not_taken_back_stays_lent(rt: HostRuntime) {
    let alloc = rt.alloc();
    let name = Name::new(b"da0").expect(&rt, "a name");
    let mut shelf = MemShelf::new(alloc);
    let bytes = full(alloc, 512, 5).expect(&rt, "memory");
    shelf
        .put(&name, bytes, Calls::none(alloc))
        .expect(&rt, "memory");
    shelf.fail_calls(Calls::of(alloc, &[2]).expect(&rt, "memory"));
    let disk = match shelf.take(&name, 512) {
        Ok(Taken::Disk(disk)) => disk,
        _ => panic!(rt; "no disk"),
    };
    let fault = match shelf.give(&name, disk) {
        Err(fault) => fault,
        Ok(()) => panic!(rt; "given"),
    };
    assert!(rt; fault.name.bytes() == name.bytes() && shelf.bytes_of(&name).is_none());
    assert!(rt; is_back(shelf.give(&name, fault.disk)));
    assert!(rt; shelf.bytes_of(&name).is_some());
    drop(shelf);
}

/// Writes a sector, and fails to zero one.
#[tactic(auto, using(geo_disk::proofs::CountLemmas::counted_if_later))]
fn write_one(rt: &impl Abort, disk: &mut MemDisk)
    ensures { disk.old.faults ≤ disk.new.faults }
{
    assert!(rt; disk.sector_size() == 512 && disk.sectors() == 3);
    let write = disk.write(1, [6u8; 512].as_slice());
    assert!(rt; write.is_ok() && disk.sectors() == 3);
    let zero = disk.zero(0, 1);
    assert!(rt; zero == Err(DiskFailed { done: 0 }));
}

#[test]
fn a_disk_goes_on_as_it_came_back(rt: HostRuntime) {
    let alloc = rt.alloc();
    let name = Name::new(b"da0").expect(&rt, "a name");
    let mut shelf = MemShelf::new(alloc);
    let bytes = full(alloc, 1536, 5).expect(&rt, "memory");
    let fails = Calls::of(alloc, &[2]).expect(&rt, "memory");
    shelf.put(&name, bytes, fails).expect(&rt, "memory");
    let mut disk = match shelf.take(&name, 512) {
        Ok(Taken::Disk(disk)) => disk,
        _ => panic!(rt; "no disk"),
    };
    write_one(&rt, &mut disk);
    assert!(rt; is_back(shelf.give(&name, disk)));
    let mut again = match shelf.take(&name, 512) {
        Ok(Taken::Disk(disk)) => disk,
        _ => panic!(rt; "no disk"),
    };
    // Its calls are counted on: the next is the third.
    assert_same(&rt, first_bytes(&rt, &mut again), [5, 6, 5]);
    drop(again);
    drop(shelf);
}

/// Of a disk of a sector and a byte more that is taken three times, the take of one number fails.
fn take_thrice(rt: &impl Abort, shelf: &mut MemShelf, name: &Name, failing: u64) {
    for turn in 1..4u64 {
        let taken = shelf.take(name, 512);
        assert!(rt; is_failure(&taken) == (turn == failing));
        assert!(rt; is_bad_size(taken) == (turn != failing));
    }
}

/// Whether the shelf failed.
fn is_failure(taken: &Result<Taken<MemDisk>, ShelfFault>) -> bool {
    matches!(taken, Err(ShelfFault::Failed))
}

#[test]
fn each_failing_call_of_a_shelf_says_so(rt: HostRuntime) {
    let alloc = rt.alloc();
    let name = Name::new(b"da0").expect(&rt, "a name");
    for failing in 1..4u64 {
        let mut shelf = MemShelf::new(alloc);
        let bytes = full(alloc, 513, 1).expect(&rt, "memory");
        shelf
            .put(&name, bytes, Calls::none(alloc))
            .expect(&rt, "memory");
        shelf.fail_calls(Calls::of(alloc, &[failing]).expect(&rt, "memory"));
        take_thrice(&rt, &mut shelf, &name, failing);
        assert!(rt;
            shelf
                .bytes_of(&name)
                .is_some_and(|bytes| bytes.len() == 513)
        );
        drop(shelf);
    }
}

#[test]
fn sizes_of_disks_have_limits(rt: HostRuntime) {
    assert!(rt; geo_disk::is_disk_size(1 << 40, 512) && geo_disk::is_disk_size(1 << 40, 4096));
    assert!(rt; !geo_disk::is_disk_size((1 << 40) + 512, 512));
    assert!(rt; !geo_disk::is_disk_size(0, 512) && !geo_disk::is_disk_size(511, 512));
    assert!(rt; geo_disk::is_disk_size(512, 512) && !geo_disk::is_disk_size(512, 4096));
}

ghost use Rattle.geo_base.specs.Sectors.{IsSectorSize};

use geo_base::Name;
use geo_disk::{Disk, DiskFailed, Notes, Shelf, ShelfFault, Taken};
use geo_file::{FileDisk, FileShelf};
use std::env::Env;
use std::fs::File;
use std::process::Abort;
use std::rt::Files;
use std::test::Fail;
use std::{env, fs};

/// A folder of the test's own among those for passing files. What an earlier run left is taken away.
fn folder<R: Files + Env + AllocGlobal>(rt: &R, name: &str) -> Result<String, Fail> {
    let base = env::temp_dir(rt)?;
    let path = format!(in rt.alloc(); "{}/{}", base.as_path().display(), name)?;
    let _ = fs::remove_dir_all(rt, path.as_str());
    fs::create_dir(rt, path.as_str())?;
    Ok(path)
}

/// An image of four sectors of 512 bytes, each full of 1, as a disk.
fn image_of_ones<R: Files<File = File>>(rt: &R, path: &str) -> Result<FileDisk, Fail> {
    fs::write(rt, path, [1u8; 2048].as_slice())?;
    let file = File::options().read(true).write(true).open(rt, path)?;
    Ok(FileDisk::new(file, 512, 4, 0, Notes::none()))
}

/// The second sector of the disk is written, and the third zeroed.
fn write_two(rt: &impl Abort, disk: &mut FileDisk) {
    assert!(rt; disk.sector_size() == 512 && disk.sectors() == 4);
    assert!(rt; disk.write(1, [7u8; 512].as_slice()).is_ok());
    assert!(rt; disk.zero(2, 1).is_ok() && disk.flush().is_ok());
}

/// The file has four sectors, each full of one of these bytes.
fn assert_sectors<R: Files + AllocGlobal + Abort>(
    rt: &R,
    path: &str,
    wanted: [u8; 4],
) -> Result<(), Fail> {
    let bytes = fs::read(rt, path)?;
    assert_full(rt, bytes.as_slice(), wanted);
    Ok(())
}

/// These are four sectors, each full of one of the bytes.
fn assert_full(rt: &impl Abort, bytes: &[u8], wanted: [u8; 4]) {
    assert!(rt; bytes.len() == 2048);
    for (place, byte) in wanted.iter().enumerate() {
        assert!(rt;
            bytes[place * 512..place * 512 + 512]
                .iter()
                .all(|b| b == byte)
        );
    }
}

/// The second sector is read, and once the file was cut short there is nothing to read.
fn read_until_short<R: Files + Abort>(rt: &R, path: &str, disk: &mut FileDisk) -> Result<(), Fail> {
    let mut out = [9u8; 512];
    assert!(rt; disk.sector_size() == 512 && disk.sectors() == 4);
    assert!(rt; disk.read(1, out.as_mut_slice()).is_ok() && out == [7u8; 512]);
    fs::write(rt, path, b"short".as_slice())?;
    assert!(rt; disk.read(1, out.as_mut_slice()) == Err(DiskFailed { done: 0 }));
    Ok(())
}

/// A file that is open for reading alone takes nothing; its disk failed so often before.
fn refuse_writes<R: Files<File = File> + Abort>(
    rt: &R,
    path: &str,
    faults: u64,
) -> Result<(), Fail> {
    let mut closed = FileDisk::new(File::open(rt, path)?, 512, 1, faults, Notes::none());
    assert!(rt; closed.write(0, [7u8; 512].as_slice()) == Err(DiskFailed { done: 0 }));
    assert!(rt; closed.zero(0, 1) == Err(DiskFailed { done: 0 }) && closed.faults() == 3);
    Ok(())
}

#[test]
fn bytes_that_a_disk_wrote_are_read_by_another_handle(rt: HostRuntime) -> Result<(), Fail> {
    let folder = folder(&rt, "geo_file_disk")?;
    let path = format!(in rt.alloc(); "{folder}/da0.img")?;
    let mut disk = image_of_ones(&rt, path.as_str())?;
    write_two(&rt, &mut disk);
    assert_sectors(&rt, path.as_str(), [1, 7, 0, 1])?;
    read_until_short(&rt, path.as_str(), &mut disk)?;
    refuse_writes(&rt, path.as_str(), disk.faults())?;
    fs::remove_dir_all(&rt, folder.as_str())?;
    Ok(())
}

/// Makes an image of so many bytes, which are zeros that take no room.
fn make_image<R: Files<File = File> + AllocGlobal>(
    rt: &R,
    folder: &str,
    name: &str,
    size: u64,
) -> Result<(), Fail> {
    let path = format!(in rt.alloc(); "{folder}/{name}.img")?;
    File::create(rt, path.as_str())?.set_len(size)?;
    Ok(())
}

/// The name of these bytes.
fn name_of(rt: &impl Abort, bytes: &[u8]) -> Name {
    let Ok(name) = Name::new(bytes) else {
        panic!(rt; "a name")
    };
    name
}

/// What a shelf answers to a take.
#[derive(Drop)]
enum Answer {
    Lent,
    Missing,
    BadSize,
    Failed,
    NoMemory,
}

/// What becomes of a take. A disk that is lent is closed, and its name stays lent.
fn answer_of<R: Files<File = File> + Drop>(
    shelf: &mut FileShelf<R>,
    name: &Name,
    sector: u32,
) -> Answer
    requires { IsSectorSize sector }
{
    match shelf.take(name, sector) {
        Ok(Taken::Disk(disk)) => {
            drop(disk);
            Answer::Lent
        }
        Ok(Taken::Missing) => Answer::Missing,
        Ok(Taken::BadSize) => Answer::BadSize,
        Err(ShelfFault::Failed) => Answer::Failed,
        Err(ShelfFault::NoMemory) => Answer::NoMemory,
    }
}

/// A disk of so many sectors is lent and given back.
fn lend_once<R: Files<File = File> + Drop>(
    rt: &impl Abort,
    shelf: &mut FileShelf<R>,
    name: &Name,
    sectors: u64,
) {
    let Ok(Taken::Disk(mut disk)) = shelf.take(name, 512) else {
        panic!(rt; "no disk")
    };
    assert!(rt; disk.sectors() == sectors && disk.flush().is_ok());
    assert!(rt; shelf.give(name, disk).is_ok());
}

/// The shelf of a folder with an image of three sectors and one of a byte too many.
fn lend_images<R: Files<File = File> + Drop>(rt: &impl Abort, shelf: &mut FileShelf<R>) {
    let name = name_of(rt, b"da0");
    let missing = name_of(rt, b"da1");
    assert!(rt; matches!(answer_of(shelf, &missing, 512), Answer::Missing));
    let odd = name_of(rt, b"odd");
    assert!(rt; matches!(answer_of(shelf, &odd, 512), Answer::BadSize));
    assert!(rt; matches!(answer_of(shelf, &name, 4096), Answer::BadSize));
    lend_once(rt, shelf, &name, 3);
    assert!(rt; matches!(answer_of(shelf, &name, 512), Answer::Lent));
    assert!(rt; matches!(answer_of(shelf, &name, 512), Answer::Missing));
}

#[test]
fn a_folder_lends_its_images(rt: HostRuntime) -> Result<(), Fail> {
    let folder = folder(&rt, "geo_file_shelf")?;
    make_image(&rt, folder.as_str(), "da0", 1536)?;
    make_image(&rt, folder.as_str(), "odd", 513)?;
    let mut shelf = FileShelf::new(&rt, rt.alloc(), folder.as_str())?;
    lend_images(&rt, &mut shelf);
    drop(shelf);
    fs::remove_dir_all(&rt, folder.as_str())?;
    Ok(())
}

/// Of two shelves of a folder, the second fails to lend a disk until the first has it back.
fn lend_by_one<R: Files<File = File> + Drop>(
    rt: &impl Abort,
    shelf: &mut FileShelf<R>,
    other: &mut FileShelf<R>,
) {
    let name = name_of(rt, b"da0");
    let Ok(Taken::Disk(disk)) = shelf.take(&name, 512) else {
        panic!(rt; "no disk")
    };
    assert!(rt; matches!(answer_of(other, &name, 512), Answer::Failed));
    assert!(rt; shelf.give(&name, disk).is_ok());
    assert!(rt; matches!(answer_of(other, &name, 512), Answer::Lent));
}

#[test]
fn an_image_that_is_locked_is_a_fault_until_it_is_given_back(rt: HostRuntime) -> Result<(), Fail> {
    let folder = folder(&rt, "geo_file_locks")?;
    make_image(&rt, folder.as_str(), "da0", 1536)?;
    let mut shelf = FileShelf::new(&rt, rt.alloc(), folder.as_str())?;
    let mut other = FileShelf::new(&rt, rt.alloc(), folder.as_str())?;
    lend_by_one(&rt, &mut shelf, &mut other);
    drop(shelf);
    drop(other);
    fs::remove_dir_all(&rt, folder.as_str())?;
    Ok(())
}

/// The shelf of a folder with an image of 2^40 bytes and one of more.
fn lend_the_largest<R: Files<File = File> + Drop>(rt: &impl Abort, shelf: &mut FileShelf<R>) {
    let over = name_of(rt, b"over");
    assert!(rt; matches!(answer_of(shelf, &over, 512), Answer::BadSize));
    let huge = name_of(rt, b"huge");
    lend_once(rt, shelf, &huge, 1 << 31);
}

#[test]
fn an_image_has_at_most_two_to_the_forty_bytes(rt: HostRuntime) -> Result<(), Fail> {
    let folder = folder(&rt, "geo_file_sizes")?;
    make_image(&rt, folder.as_str(), "huge", 1 << 40)?;
    make_image(&rt, folder.as_str(), "over", (1 << 40) + 512)?;
    let mut shelf = FileShelf::new(&rt, rt.alloc(), folder.as_str())?;
    lend_the_largest(&rt, &mut shelf);
    drop(shelf);
    fs::remove_dir_all(&rt, folder.as_str())?;
    Ok(())
}

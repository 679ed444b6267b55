//! Scripts of two users, whose disks are on the shelf, and what a run of one left.
ghost use Rattle.std.specs.Prelude.{◌≡◌, [], OnOk};

use crate::outside::{Outside, Unready, name, outside_of, put, run_to_end, says};
use geo_base::{Block, Calls, Name};
use geo_disk::MemShelf;
use std::alloc::Global;
use std::process::Abort;
use std::test::Fail;

/// The bytes of each disk, and how many of them at the front the script writes.
pub const SIZE: u32 = 1_048_576;

const WRITTEN: usize = 4096;

/// The outside of the two users, and the names of their disks. It is dropped by a call.
#[derive(Drop)]
pub struct Users {
    pub alloc: Global,
    pub outside: Outside,
    pub names: [Name; 2],
}

// Puts a disk of zeros on a shelf of which none is lent.
fn put_zeros(alloc: Global, shelf: &mut MemShelf, name: &Name) -> Result<(), Unready>
    requires { shelf.old.loans.lent ≡ [] }
    ensures { OnOk result (shelf.new.loans.lent ≡ []) }
{
    let zeros = Block::zeros(alloc, SIZE)?;
    put(shelf, name, zeros, Calls::none(alloc))
}

// Puts both disks on a shelf of which none is lent.
fn put_both(alloc: Global, shelf: &mut MemShelf, names: &[Name; 2]) -> Result<(), Unready>
    requires { shelf.old.loans.lent ≡ [] }
{
    put_zeros(alloc, shelf, &names[0])?;
    put_zeros(alloc, shelf, &names[1])
}

// The outside of a script with both disks.
fn with_disks(alloc: Global, script: &[u8], names: &[Name; 2]) -> Result<Outside, Unready> {
    let mut made = outside_of(alloc, script)?;
    match put_both(alloc, &mut made.shelf, names) {
        Ok(()) => Ok(made),
        Err(unready) => {
            drop(made);
            Err(unready)
        }
    }
}

/// A script, and both disks, of zeros. No call is to fail. None where there is no memory.
pub fn set_up_if(alloc: Global, script: &[u8]) -> Result<Option<Users>, Fail> {
    let names = [name(b"ada0")?, name(b"ada1")?];
    match with_disks(alloc, script, &names) {
        Ok(outside) => Ok(Some(Users {
            alloc,
            outside,
            names,
        })),
        Err(Unready::NoMemory) => Ok(None),
        Err(Unready::NameTaken) => Err("a name comes twice".into()),
    }
}

/// The same where there is memory.
pub fn set_up(alloc: Global, script: &[u8]) -> Result<Users, Fail> {
    match set_up_if(alloc, script)? {
        Some(users) => Ok(users),
        None => Err("no memory".into()),
    }
}

/// What a run left: its status, whether the mesh opened, and of each disk that stands on the shelf the byte that fills
/// its first 4,096, behind which it has zeros.
#[derive(Clone, Copy, Debug, PartialEq, Eq)]
pub struct Left {
    pub status: u8,
    pub opened: bool,
    pub disks: [Option<u8>; 2],
}

/// A run that came to its end.
pub const DONE: Left = Left {
    status: 0,
    opened: true,
    disks: [Some(0x11), Some(0x22)],
};

// Whether the front is filled with a byte, and the rest with zeros.
fn is_filled(bytes: &[u8], front: u8) -> bool {
    for (at, byte) in bytes.iter().enumerate() {
        let want = if at < WRITTEN { front } else { 0 };
        if *byte != want {
            return false;
        }
    }
    bytes.len() == SIZE as usize
}

// The byte that fills the front of a disk, none where the disk isn't on the shelf.
fn front_of(shelf: &MemShelf, name: &Name) -> Result<Option<u8>, Fail> {
    let Some(bytes) = shelf.bytes_of(name) else {
        return Ok(None);
    };
    let front = bytes.first().copied().ok_or("no bytes")?;
    if !is_filled(bytes, front) {
        return Err("other bytes".into());
    }
    Ok(Some(front))
}

/// What stands on the shelf of both disks.
pub fn fronts(users: &Users) -> Result<[Option<u8>; 2], Fail> {
    let shelf = &users.outside.shelf;
    Ok([
        front_of(shelf, &users.names[0])?,
        front_of(shelf, &users.names[1])?,
    ])
}

// What a run leaves.
fn run_users(rt: &impl Abort, users: &mut Users) -> Result<Left, Fail> {
    let end = run_to_end(rt, users.alloc, &mut users.outside).ok_or("no memory")?;
    Ok(Left {
        status: end.status,
        opened: end.opened,
        disks: fronts(users)?,
    })
}

/// A run leaves this, and writes these two parts of a text. The case is told where it doesn't.
pub fn leaves(
    rt: &impl Abort,
    users: &mut Users,
    want: &Left,
    front: &[u8],
    told: &[u8],
    case: u64,
) -> Result<(), Fail> {
    let left = run_users(rt, users)?;
    assert_eq!(rt; left, *want, "case {case}");
    says(rt, &users.outside, front, told, case);
    Ok(())
}

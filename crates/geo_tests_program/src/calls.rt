//! What no clause says: runs over a disk of which one call fails, a write or a delete after a part of its sectors.
ghost use Rattle.std.specs.Prelude.{◌≡◌, [], Contains};

use crate::contents::{Failures, failures_of, has_contents};
use crate::outside::{Outside, Unready, behind, name, outside_of, put_failing, run};
use crate::scripts::EACH;
use geo_base::{Block, Name};
use geo_disk::{MemDisk, MemShelf, Shelf, Taken};
use geo_log::Log;
use geo_run::Ended;
use std::alloc::Global;
use std::process::Abort;
use std::test::Fail;

/// The bytes of the disk, which has four sectors.
const SIZE: u32 = 2048;

const SECTOR: usize = 512;

/// One call of the disk fails.
#[derive(Clone, Copy)]
struct Case {
    /// Its number. The taste of the disk has four calls, and each command of the actor one.
    call: u64,
    /// How many sectors it is to do first, and how many it does, which is never all of them.
    part: u64,
    done: u64,
    /// The replies to all lines but the open.
    replies: &'static [u8],
    /// The byte that fills each sector then.
    sectors: [u8; 4],
}

const CASES: [Case; 11] = [
    // The write.
    Case {
        call: 5,
        part: 0,
        done: 0,
        replies: b"4 EIO\n5 ok 00*2048\n6 ok\n7 ok\n8 ok 00*2048\n",
        sectors: [0, 0, 0, 0],
    },
    Case {
        call: 5,
        part: 1,
        done: 1,
        replies: b"4 EIO\n5 ok 11*512 00*1536\n6 ok\n7 ok\n8 ok 00*2048\n",
        sectors: [0, 0, 0, 0],
    },
    Case {
        call: 5,
        part: 2,
        done: 2,
        replies: b"4 EIO\n5 ok 11*1024 00*1024\n6 ok\n7 ok\n8 ok 00*2048\n",
        sectors: [0, 0, 0, 0],
    },
    Case {
        call: 5,
        part: 3,
        done: 3,
        replies: b"4 EIO\n5 ok 11*1536 00*512\n6 ok\n7 ok\n8 ok 00*1024 11*512 00*512\n",
        sectors: [0, 0, 0x11, 0],
    },
    Case {
        call: 5,
        part: 4,
        done: 3,
        replies: b"4 EIO\n5 ok 11*1536 00*512\n6 ok\n7 ok\n8 ok 00*1024 11*512 00*512\n",
        sectors: [0, 0, 0x11, 0],
    },
    // The first read.
    Case {
        call: 6,
        part: 1,
        done: 0,
        replies: b"4 ok\n5 EIO\n6 ok\n7 ok\n8 ok 00*1024 11*1024\n",
        sectors: [0, 0, 0x11, 0x11],
    },
    // The delete of two sectors.
    Case {
        call: 7,
        part: 0,
        done: 0,
        replies: b"4 ok\n5 ok 11*2048\n6 EIO\n7 ok\n8 ok 11*2048\n",
        sectors: [0x11, 0x11, 0x11, 0x11],
    },
    Case {
        call: 7,
        part: 1,
        done: 1,
        replies: b"4 ok\n5 ok 11*2048\n6 EIO\n7 ok\n8 ok 00*512 11*1536\n",
        sectors: [0, 0x11, 0x11, 0x11],
    },
    Case {
        call: 7,
        part: 2,
        done: 1,
        replies: b"4 ok\n5 ok 11*2048\n6 EIO\n7 ok\n8 ok 00*512 11*1536\n",
        sectors: [0, 0x11, 0x11, 0x11],
    },
    // The flush.
    Case {
        call: 8,
        part: 1,
        done: 0,
        replies: b"4 ok\n5 ok 11*2048\n6 ok\n7 EIO\n8 ok 00*1024 11*1024\n",
        sectors: [0, 0, 0x11, 0x11],
    },
    // The second read.
    Case {
        call: 9,
        part: 1,
        done: 0,
        replies: b"4 ok\n5 ok 11*2048\n6 ok\n7 ok\n8 EIO\n",
        sectors: [0, 0, 0x11, 0x11],
    },
];

const OPENED: &[u8] = b"3 ok\n";

const MESH: &[u8] = b"geom DISK d0 rank 1\n  provider d0 size 2048 sector 512 r1w1e0\n";

// Gives back a disk that was taken, whose failing calls first do so many sectors from now on.
fn give_failing(shelf: &mut MemShelf, name: &Name, mut disk: MemDisk, part: u64) -> Result<(), Fail>
    requires { Contains shelf.old.loans.lent name.now }
{
    disk.failing_after(part);
    let given = shelf.give(name, disk);
    let is_given = given.is_ok();
    drop(given);
    if is_given {
        Ok(())
    } else {
        Err("not given back".into())
    }
}

// From now on a failing call of the disk first does so many sectors.
fn fail_after(shelf: &mut MemShelf, name: &Name, part: u64) -> Result<(), Fail> {
    match shelf.take(name, 512) {
        Ok(Taken::Disk(disk)) => give_failing(shelf, name, disk, part),
        other => {
            drop(other);
            Err("no disk".into())
        }
    }
}

// Puts the disk of a case on a shelf of which none is lent.
fn put_disk(alloc: Global, shelf: &mut MemShelf, d0: &Name, case: &Case) -> Result<(), Unready>
    requires { shelf.old.loans.lent ≡ [] }
{
    let zeros = Block::zeros(alloc, SIZE)?;
    put_failing(alloc, shelf, d0, zeros, &[case.call])
}

// Whether a byte fills each sector.
fn are_filled(bytes: &[u8], sectors: &[u8; 4]) -> bool {
    for (at, byte) in bytes.iter().enumerate() {
        if sectors.get(at / SECTOR) != Some(byte) {
            return false;
        }
    }
    bytes.len() == SIZE as usize
}

// The disk of a run has the bytes that the log tells, and that are due.
fn has_bytes(
    rt: &impl Abort,
    alloc: Global,
    outside: &Outside,
    log: &Option<Log>,
    d0: &Name,
    case: &Case,
) -> Result<(), Fail> {
    let bytes = outside.shelf.bytes_of(d0).ok_or("not on the shelf")?;
    assert!(rt;
        are_filled(bytes, &case.sectors),
        "call {}, {} sectors",
        case.call,
        case.part
    );
    let same = has_contents(alloc, log, 0, SIZE, bytes)?;
    assert!(rt; same, "call {}, {} sectors", case.call, case.part);
    Ok(())
}

// A run tells of the failure in its log, and gives the replies that are due.
fn has_told(rt: &impl Abort, outside: &Outside, ended: &Ended, case: &Case) -> Result<(), Fail> {
    let due = Failures {
        answers: 1,
        sectors: case.done,
    };
    assert_eq!(rt;
        (ended.status, failures_of(&ended.log)),
        (0, due),
        "call {}",
        case.call
    );
    let replies = behind(outside.sink.written(), OPENED).ok_or("the open failed")?;
    let mesh = behind(replies, case.replies).ok_or("other replies")?;
    assert_eq!(rt; mesh, MESH, "call {}, {} sectors", case.call, case.part);
    Ok(())
}

// Both of a run.
fn is_due(
    rt: &impl Abort,
    alloc: Global,
    outside: &Outside,
    d0: &Name,
    case: &Case,
    ended: &Ended,
) -> Result<(), Fail> {
    has_told(rt, outside, ended, case)?;
    has_bytes(rt, alloc, outside, &ended.log, d0, case)
}

// The same of a run whose end is dropped then.
fn ran(
    rt: &impl Abort,
    alloc: Global,
    outside: &mut Outside,
    d0: &Name,
    case: &Case,
) -> Result<(), Fail> {
    let ended = run(rt, alloc, outside).ok_or("no memory")?;
    let answer = is_due(rt, alloc, outside, d0, case, &ended);
    drop(ended);
    answer
}

// The same of a disk that is put on the shelf first.
fn fails_with(
    rt: &impl Abort,
    alloc: Global,
    outside: &mut Outside,
    case: &Case,
) -> Result<(), Fail>
    requires { outside.old.shelf.loans.lent ≡ [] }
{
    let d0 = name(b"d0")?;
    put_disk(alloc, &mut outside.shelf, &d0, case)?;
    fail_after(&mut outside.shelf, &d0, case.part)?;
    ran(rt, alloc, outside, &d0, case)
}

// The same of an outside that is dropped then.
fn fails(rt: &impl Abort, alloc: Global, case: &Case) -> Result<(), Fail> {
    let mut outside = outside_of(alloc, EACH)?;
    let answer = fails_with(rt, alloc, &mut outside, case);
    drop(outside);
    answer
}

#[test]
fn each_failing_call_of_an_actor_is_told_and_leaves_what_the_log_says(
    rt: HostRuntime,
) -> Result<(), Fail> {
    for case in &CASES {
        fails(&rt, rt.alloc(), case)?;
    }
    Ok(())
}

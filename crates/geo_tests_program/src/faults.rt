//! What no clause says: runs of the program whose source, sink, shelf or disk fails at each of its calls in turn,
//! against worked reports.
ghost use Rattle.std.specs.Prelude.{◌≡◌, [], Contains};

use crate::contents::Failures;
use crate::outside::{Outside, Unready, name, outside_of, put_failing, run_to_end, says};
use crate::scripts::{LABEL, LABEL_REPORT, NO_LABEL_REPORT, NO_READ_REPORT, USERS, USERS_REPORT};
use crate::users::{DONE, Left, Users, leaves, set_up};
use geo_base::{Block, Calls, Name, NoMemory};
use geo_disk::MemShelf;
use geo_io::{MemSink, MemSource};
use std::alloc::Global;
use std::mem;
use std::process::Abort;
use std::test::Fail;

// A script, which is given 100 bytes a call. These calls fail.
fn source_of(alloc: Global, script: &[u8], fails: Calls) -> Result<MemSource, NoMemory> {
    match Block::from_slice(alloc, script) {
        Ok(text) => Ok(MemSource::new(text, 100, fails)),
        Err(error) => {
            drop(fails);
            Err(error)
        }
    }
}

/// The source gives a script and fails at one call.
pub fn fail_source(users: &mut Users, script: &[u8], call: u64) -> Result<(), Fail> {
    let fails = Calls::of(users.alloc, &[call])?;
    let source = source_of(users.alloc, script, fails)?;
    drop(mem::replace(&mut users.outside.source, source));
    Ok(())
}

// What a run of the users leaves then, and writes.
fn reads_of(
    rt: &impl Abort,
    users: &mut Users,
    call: u64,
    want: &Left,
    text: &[u8],
) -> Result<(), Fail> {
    fail_source(users, USERS, call)?;
    leaves(rt, users, want, text, b"", call)
}

// The same of users that are dropped then.
fn reads(rt: &impl Abort, alloc: Global, call: u64, want: &Left, text: &[u8]) -> Result<(), Fail> {
    let mut users = set_up(alloc, USERS)?;
    let answer = reads_of(rt, &mut users, call, want, text);
    drop(users);
    answer
}

/// The script has 322 bytes: four calls, and a fifth that finds the end.
const READS: u64 = 5;

/// A script that wasn't read.
pub const UNREAD: Left = Left {
    status: 3,
    opened: false,
    disks: [Some(0), Some(0)],
};

#[test]
fn each_failing_call_of_a_source_is_told(rt: HostRuntime) -> Result<(), Fail> {
    for call in 1..=READS {
        reads(&rt, rt.alloc(), call, &UNREAD, b"read fault\n")?;
    }
    reads(&rt, rt.alloc(), READS + 1, &DONE, USERS_REPORT)
}

/// The sink takes 10 bytes a call, and fails at one call.
pub fn fail_sink(users: &mut Users, call: u64) -> Result<(), Fail> {
    let fails = Calls::of(users.alloc, &[call])?;
    let sink = MemSink::new(users.alloc, 4096, 10, fails)?;
    drop(mem::replace(&mut users.outside.sink, sink));
    Ok(())
}

// What a run of the users leaves then, and writes.
fn writes_of(
    rt: &impl Abort,
    users: &mut Users,
    call: u64,
    want: &Left,
    text: &[u8],
) -> Result<(), Fail> {
    fail_sink(users, call)?;
    leaves(rt, users, want, text, b"", call)
}

// The same of users that are dropped then.
fn writes(rt: &impl Abort, alloc: Global, call: u64, want: &Left, text: &[u8]) -> Result<(), Fail> {
    let mut users = set_up(alloc, USERS)?;
    let answer = writes_of(rt, &mut users, call, want, text);
    drop(users);
    answer
}

/// The report has 157 bytes.
const WRITES: usize = 16;

/// A run whose report wasn't written whole.
pub const CUT: Left = Left {
    status: 4,
    opened: true,
    disks: [Some(0x11), Some(0x22)],
};

#[test]
fn each_failing_call_of_a_sink_cuts_the_report(rt: HostRuntime) -> Result<(), Fail> {
    for call in 1..=WRITES {
        let front = USERS_REPORT.get(..(call - 1) * 10).ok_or("short")?;
        writes(&rt, rt.alloc(), call as u64, &CUT, front)?;
    }
    writes(&rt, rt.alloc(), WRITES as u64 + 1, &DONE, USERS_REPORT)
}

/// Calls of the shelf that fail, what is told then, behind the report if the mesh opened, and what stands on the shelf.
/// The calls are the two takes and then the two gives, or the one of the disk that was taken.
const SHELVES: [(&[u64], &[u8], bool, [Option<u8>; 2]); 6] = [
    (&[1], b"shelf fault ada0\n", false, [Some(0), Some(0)]),
    (&[2], b"shelf fault ada1\n", false, [Some(0), Some(0)]),
    (&[2, 3], b"shelf fault ada1\n", false, [None, Some(0)]),
    (&[3], b"shelf fault ada0\n", true, [None, Some(0x22)]),
    (&[4], b"shelf fault ada1\n", true, [Some(0x11), None]),
    (&[3, 4], b"shelf fault ada0\n", true, [None, None]),
];

/// These calls of the shelf fail.
pub fn fail_shelf(users: &mut Users, calls: &[u64]) -> Result<(), Fail> {
    let fails = Calls::of(users.alloc, calls)?;
    users.outside.shelf.fail_calls(fails);
    Ok(())
}

// What a run of the users leaves then, and what it tells behind its report.
fn lends_of(
    rt: &impl Abort,
    users: &mut Users,
    calls: &[u64],
    want: &Left,
    told: &[u8],
) -> Result<(), Fail> {
    fail_shelf(users, calls)?;
    let front = if want.opened { USERS_REPORT } else { b"" };
    leaves(rt, users, want, front, told, calls.len() as u64)
}

// The same of users that are dropped then.
fn lends(
    rt: &impl Abort,
    alloc: Global,
    calls: &[u64],
    want: &Left,
    told: &[u8],
) -> Result<(), Fail> {
    let mut users = set_up(alloc, USERS)?;
    let answer = lends_of(rt, &mut users, calls, want, told);
    drop(users);
    answer
}

#[test]
fn each_failing_call_of_a_shelf_is_told(rt: HostRuntime) -> Result<(), Fail> {
    for (calls, told, opened, disks) in SHELVES {
        let want = Left {
            status: 5,
            opened,
            disks,
        };
        lends(&rt, rt.alloc(), calls, &want, told)?;
    }
    lends(&rt, rt.alloc(), &[5], &DONE, b"")
}

// Four sectors, of which the last has the label `vol`.
fn labelled(alloc: Global) -> Result<Block, Unready> {
    let mut block = Block::zeros(alloc, 2048)?;
    if block.len() == 2048 {
        let bytes = block.bytes_mut();
        bytes[1536..1548].copy_from_slice(b"RGEOM::LABEL");
        bytes[1552] = 1;
        bytes[1556..1559].copy_from_slice(b"vol");
    }
    Ok(block)
}

// Puts a labelled disk of which one call fails on a shelf of which none is lent.
fn put_labelled(alloc: Global, shelf: &mut MemShelf, d0: &Name, call: u64) -> Result<(), Unready>
    requires { shelf.old.loans.lent ≡ [] }
{
    let image = labelled(alloc)?;
    put_failing(alloc, shelf, d0, image, &[call])
}

// What is due where this call of the disk fails. The taste of the disk reads for MBR, LABEL, CONCAT and STRIPE, that of
// the label does too, and the ninth call is the actor's read.
fn due_at(call: u64) -> &'static [u8] {
    match call {
        2 => NO_LABEL_REPORT,
        9 => NO_READ_REPORT,
        _ => LABEL_REPORT,
    }
}

// Whether these are the bytes of a labelled disk.
fn is_labelled(alloc: Global, bytes: &[u8]) -> Result<bool, Unready> {
    let image = labelled(alloc)?;
    let same = bytes == image.bytes();
    drop(image);
    Ok(same)
}

// The disk has nine calls, all of them reads.
fn failures_at(call: u64) -> Failures {
    Failures {
        answers: if call <= 9 { 1 } else { 0 },
        sectors: 0,
    }
}

// A run writes what is due, its log has the failure, and the disk is left as it was.
fn asks_of(
    rt: &impl Abort,
    alloc: Global,
    outside: &mut Outside,
    d0: &Name,
    call: u64,
) -> Result<(), Fail> {
    let end = run_to_end(rt, alloc, outside).ok_or("no memory")?;
    assert_eq!(rt;
        (end.status, end.failures),
        (0, failures_at(call)),
        "at call {call}"
    );
    says(rt, outside, due_at(call), b"", call);
    let bytes = outside.shelf.bytes_of(d0).ok_or("no disk")?;
    let same = is_labelled(alloc, bytes)?;
    assert!(rt; same, "at call {call}");
    Ok(())
}

// The same of a labelled disk that is put on the shelf first.
fn asks_with(rt: &impl Abort, alloc: Global, outside: &mut Outside, call: u64) -> Result<(), Fail>
    requires { outside.old.shelf.loans.lent ≡ [] }
{
    let d0 = name(b"d0")?;
    put_labelled(alloc, &mut outside.shelf, &d0, call)?;
    asks_of(rt, alloc, outside, &d0, call)
}

// The same of an outside that is dropped then.
fn asks(rt: &impl Abort, alloc: Global, call: u64) -> Result<(), Fail> {
    let mut outside = outside_of(alloc, LABEL)?;
    let answer = asks_with(rt, alloc, &mut outside, call);
    drop(outside);
    answer
}

#[test]
fn each_failing_call_of_a_disk_has_its_answer(rt: HostRuntime) -> Result<(), Fail> {
    for call in 1..=10u64 {
        asks(&rt, rt.alloc(), call)?;
    }
    Ok(())
}

//! A live mesh that is given commands.
use crate::bench::{Bench, begin, give, go_on, run, settle};
use crate::same::assert_same;
use std::alloc::Global;
use std::test::Fail;

/// A disk that is read, written and read again.
const READS: &[u8] = b"ram md0 512 8
actor a
a open h md0 r1w1e0
a read h 512 1024
a write h 512 07*512 09*512
a read h 512 1024
a close h
";

/// Two writers, of whom one wants the disk for itself.
const WRITERS: &[u8] = b"ram md0 512 8
actor a
actor b
a open h md0 r1w1e0
b open k md0 r0w1e1
a close h
b open k md0 r0w1e1
a open h md0 r0w1e0
b close k
a open h md0 r0w1e0
";

/// A stripe, of which a disk is pulled while a read is out.
const PULL: &[u8] = b"ram md0 512 8
ram md1 512 8
actor a
actor b
a stripe s 512 md0 md1
a open h stripe/s r1w0e0
a read h 0 2048
b pull md1
a close h
b mesh
";

/// What is read and written again and again.
const MANY: &[u8] = b"ram md0 512 64
actor a
a open h md0 r1w1e0
a write h 512 01*512
a read h 512 512
a close h
";

/// So many times it is written and read.
const ROUNDS: u32 = 50_000;

// The first byte of what was last read, and how many there are.
fn last_read(bench: &Bench) -> (u8, usize) {
    match &bench.replies.bytes {
        Some(bytes) => match bytes.bytes().first() {
            Some(first) => (*first, bytes.bytes().len()),
            None => (0, 0),
        },
        None => (0, 0),
    }
}

// So many replies were ok, and so many refused.
fn counts(bench: &Bench) -> (u64, u64) {
    (bench.replies.well, bench.replies.refused)
}

// The commands of the script, one after another.
fn run_all(bench: &mut Bench, count: usize) -> Result<(), Fail> {
    for place in 0..count {
        if !run(bench, place)? {
            return Err("a command isn't made".into());
        }
    }
    Ok(())
}

// What a script's commands are answered, and what was read last.
fn answers(
    alloc: Global,
    script: &[u8],
    count: usize,
) -> Result<((u64, u64), (u8, usize), bool), Fail> {
    let mut bench = begin(alloc, script)?;
    let all = run_all(&mut bench, count);
    let answer = (counts(&bench), last_read(&bench), bench.session.at_rest());
    drop(bench);
    all?;
    Ok(answer)
}

#[test]
fn what_is_written_is_read(rt: HostRuntime) -> Result<(), Fail> {
    let first = answers(rt.alloc(), READS, 2)?;
    assert_same(&rt, first, ((2, 0), (0, 1024), true));
    let all = answers(rt.alloc(), READS, 5)?;
    assert_same(&rt, all, ((5, 0), (7, 1024), true));
    Ok(())
}

#[test]
fn no_writer_stands_beside_an_exclusive_one(rt: HostRuntime) -> Result<(), Fail> {
    let both = answers(rt.alloc(), WRITERS, 2)?;
    assert_same(&rt, both, ((1, 1), (0, 0), true));
    let all = answers(rt.alloc(), WRITERS, 7)?;
    assert_same(&rt, all, ((5, 2), (0, 0), true));
    Ok(())
}

// A read is out at its disks when one is pulled.
fn pulled(bench: &mut Bench) -> Result<((u64, u64), u64), Fail> {
    run_all(bench, 2)?;
    if !give(bench, 2)? || !go_on(bench)? {
        return Err("the read isn't under way".into());
    }
    let out = bench.session.bios();
    if !give(bench, 3)? {
        return Err("the disk isn't pulled".into());
    }
    settle(bench)?;
    run(bench, 4)?;
    Ok((counts(bench), out))
}

#[test]
fn a_pull_ends_what_is_out(rt: HostRuntime) -> Result<(), Fail> {
    let mut bench = begin(rt.alloc(), PULL)?;
    let came = pulled(&mut bench);
    let left = (bench.session.bios(), bench.session.handles());
    let rests = bench.session.at_rest();
    drop(bench);
    let (replies, out) = came?;
    assert_same(&rt, left, (0, 0));
    assert!(rt; rests && out > 1, "{out} bios were out");
    // The stripe, the open, the pull and the close are ok; the read isn't.
    assert_same(&rt, replies, (4, 1));
    Ok(())
}

// It is written and read so many times.
fn rounds(bench: &mut Bench, count: u32) -> Result<(), Fail> {
    for _round in 0..count {
        if !run(bench, 1)? || !run(bench, 2)? {
            return Err("a request isn't made".into());
        }
    }
    Ok(())
}

// The same of the script, and what is left then.
fn worked(bench: &mut Bench) -> Result<(u64, u64), Fail> {
    run_all(bench, 1)?;
    rounds(bench, ROUNDS)?;
    Ok((bench.session.bios(), bench.session.handles()))
}

#[test]
fn each_of_many_requests_is_answered_and_none_is_left(rt: HostRuntime) -> Result<(), Fail> {
    let mut bench = begin(rt.alloc(), MANY)?;
    let came = worked(&mut bench);
    let replies = counts(&bench);
    let read = last_read(&bench);
    drop(bench);
    let left = came?;
    assert_same(&rt, left, (0, 1));
    assert_same(&rt, replies, (100_001, 0));
    assert_same(&rt, read, (1, 512));
    Ok(())
}

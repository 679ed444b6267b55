//! What raises the generation of the graph.
use crate::bench::{Bench, begin, run};
use crate::same::assert_same;
use crate::tagged::{Seen, begin as begin_tagged, handle, none_seen, settle};
use crate::tokens::{open_disk, read_as};
use geo_model::{Command, Reply};
use geo_session::SessionRefusal;
use geo_tags::TaggedSession;
use std::alloc::Global;
use std::test::Fail;

/// A disk that is read, and another that is inserted and pulled.
const SCRIPT: &[u8] = b"ram md0 512 16
ram md1 512 16 later
actor a
a open h md0 r1w0e0
a read h 0 512
a insert md1
a pull md1
";

// A command of the script is made. The generation then.
fn after(bench: &mut Bench, place: usize) -> Result<u64, Fail> {
    if !run(bench, place)? {
        return Err("a command isn't made".into());
    }
    Ok(bench.session.generation())
}

// A sector is read a hundred times. The generation then.
fn after_reads(bench: &mut Bench) -> Result<u64, Fail> {
    for _read in 0..100 {
        after(bench, 1)?;
    }
    Ok(bench.session.generation())
}

// The generations after the open, the reads, the insert and the pull.
fn generations(bench: &mut Bench) -> Result<(u64, u64, u64, u64), Fail> {
    let opened = after(bench, 0)?;
    let read = after_reads(bench)?;
    let inserted = after(bench, 2)?;
    let pulled = after(bench, 3)?;
    Ok((opened, read, inserted, pulled))
}

#[test]
fn a_pull_and_an_insert_raise_it_and_reads_do_not(rt: HostRuntime) -> Result<(), Fail> {
    let mut bench = begin(rt.alloc(), SCRIPT)?;
    let first = bench.session.generation();
    let came = generations(&mut bench);
    drop(bench);
    let (opened, read, inserted, pulled) = came?;
    assert_same(&rt, first, 0);
    assert_same(&rt, read, opened);
    assert_same(
        &rt,
        (opened > first, inserted > read, pulled > inserted),
        (true, true, true),
    );
    Ok(())
}

// What a command is answered, which is ok at once.
fn is_ok(came: Result<Option<Reply>, SessionRefusal>) -> Result<(), Fail> {
    match came {
        Ok(Some(Reply::Ok)) => Ok(()),
        Ok(other) => {
            drop(other);
            Err("a command isn't ok".into())
        }
        Err(_) => Err("a command is refused".into()),
    }
}

// A disk is inserted, and what comes of it. The generation at once, and then.
fn insert(alloc: Global, mesh: &mut TaggedSession, seen: &mut Seen) -> Result<(u64, u64), Fail> {
    let disk = handle(b"md1")?;
    is_ok(mesh.submit(0, Command::Insert(disk), 0))?;
    let inserted = mesh.session().generation();
    settle(alloc, mesh, seen)?;
    Ok((inserted, mesh.session().generation()))
}

// A disk is pulled, and what comes of it. The generation at once, and then.
fn pull(alloc: Global, mesh: &mut TaggedSession, seen: &mut Seen) -> Result<(u64, u64), Fail> {
    let disk = handle(b"md1")?;
    is_ok(mesh.submit(0, Command::Pull(disk), 0))?;
    let pulled = mesh.session().generation();
    settle(alloc, mesh, seen)?;
    Ok((pulled, mesh.session().generation()))
}

// A sector is read a hundred times.
fn read_often(alloc: Global, mesh: &mut TaggedSession, seen: &mut Seen) -> Result<(), Fail> {
    for token in 0..100 {
        read_as(mesh, b"h", 3, token)?;
        settle(alloc, mesh, seen)?;
    }
    Ok(())
}

// The generation before the reads and after them, and how often it was told in them.
fn read_all(
    alloc: Global,
    mesh: &mut TaggedSession,
    seen: &mut Seen,
) -> Result<(u64, u64, usize), Fail> {
    settle(alloc, mesh, seen)?;
    open_disk(mesh, b"h", b"md0")?;
    settle(alloc, mesh, seen)?;
    seen.generations.clear();
    let opened = mesh.session().generation();
    read_often(alloc, mesh, seen)?;
    Ok((opened, mesh.session().generation(), seen.generations.len()))
}

// The generation that was told last.
fn last_told(seen: &Seen) -> u64 {
    match seen.generations.last() {
        Some(generation) => *generation,
        None => 0,
    }
}

// What the generation is told and how it is raised: by no read, and by each insert and pull.
fn told(alloc: Global, mesh: &mut TaggedSession, seen: &mut Seen) -> Result<(), Fail> {
    let (opened, read, times) = read_all(alloc, mesh, seen)?;
    if read != opened || times != 0 {
        return Err("a read raises it".into());
    }
    let (inserted, tasted) = insert(alloc, mesh, seen)?;
    if inserted != read.wrapping_add(1) || tasted <= inserted || last_told(seen) != tasted {
        return Err("an insert doesn't raise it".into());
    }
    let (pulled, washed) = pull(alloc, mesh, seen)?;
    if pulled != tasted.wrapping_add(1) || washed <= pulled || last_told(seen) != washed {
        return Err("a pull doesn't raise it".into());
    }
    Ok(())
}

#[test]
fn each_change_of_the_graph_is_told(rt: HostRuntime) -> Result<(), Fail> {
    let mut mesh = begin_tagged(rt.alloc(), SCRIPT)?;
    let mut seen = none_seen(rt.alloc());
    let came = told(rt.alloc(), &mut mesh, &mut seen);
    drop(mesh);
    drop(seen);
    came
}

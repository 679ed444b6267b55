//! What no clause says: runs in which one allocation is refused. Without that each of these tests comes to the end of
//! its scripts; with it (`rt try --test --fail-alloc N`) the refusal is told, and nothing else changes.
use crate::bench::{
    ALL, Bench, answer, answer_if, begin_if, due, is_text, refusal_of, taken_by, told,
};
use crate::contents::has_contents;
use crate::outside::{Outside, outside_of, run, run_to_end};
use crate::scripts::{
    ASSEMBLY, ASSEMBLY_REPORT, STRIPE, STRIPE_REPORT, USERS, USERS_REPORT, WRITER, WRITER_REPORT,
};
use crate::users::{DONE, SIZE, Users, fronts, set_up_if};
use geo_base::{BioId, Name};
use geo_core::{ApplyRefusal, Mesh};
use geo_log::Log;
use geo_model::{DeviceResult, Step};
use geo_run::Ended;
use std::alloc::Global;
use std::process::Abort;
use std::test::Fail;

/// More steps than any script makes.
const MANY: u32 = 4096;

// Whether a step that is due was made, or memory was refused. Then nothing changed, and it is due again.
fn try_step(bench: &mut Bench, step: Step) -> Result<bool, Fail> {
    match refusal_of(bench, 0, step) {
        None => Ok(true),
        Some(ApplyRefusal::NoMemory) => Ok(false),
        Some(_) => Err("another refusal".into()),
    }
}

// The answer of the disk. Where memory was refused it is asked again, and has some.
fn answer_at_last(bench: &mut Bench) -> Result<DeviceResult, Fail> {
    match answer_if(bench)? {
        Some(got) => Ok(got),
        None => answer(bench),
    }
}

// A Deliver, which is never refused.
fn deliver(bench: &mut Bench, bio: BioId, got: DeviceResult) -> Result<(), Fail> {
    if try_step(bench, Step::Deliver { bio, got })? {
        Ok(())
    } else {
        Err("a Deliver was refused".into())
    }
}

// A Take, and its Deliver if it was made.
fn serve(bench: &mut Bench, disk: u32, bio: BioId) -> Result<(), Fail> {
    if !try_step(bench, Step::Take { disk, bio })? {
        return Ok(());
    }
    let got = answer_at_last(bench)?;
    deliver(bench, bio, got)
}

// Whether a step is the next command of an actor, of one of these lines.
fn is_sure(mesh: &Mesh, step: &Step, sure: &[u32]) -> bool {
    match step {
        Step::Go { actor } => sure.contains(&mesh.next_line(*actor).unwrap_or(0)),
        _ => false,
    }
}

// A step that is no Take, and is never refused if it is the command of one of these lines.
fn turn(bench: &mut Bench, step: Step, sure: &[u32]) -> Result<(), Fail> {
    let is_sure = is_sure(&bench.mesh, &step, sure);
    if !try_step(bench, step)? && is_sure {
        return Err("a close was refused".into());
    }
    Ok(())
}

// Makes a step that is due, and tells that there was one.
fn make_due(bench: &mut Bench, step: Step, sure: &[u32]) -> Result<bool, Fail> {
    match taken_by(&step) {
        Some((disk, bio)) => {
            drop(step);
            serve(bench, disk, bio)?;
        }
        None => turn(bench, step, sure)?,
    }
    Ok(true)
}

// One step of the fixed order, and whether there was one.
fn go_on(bench: &mut Bench, sure: &[u32]) -> Result<bool, Fail> {
    match due(&bench.mesh, ALL) {
        Some(step) => make_due(bench, step, sure),
        None => Ok(false),
    }
}

// All steps, each again where memory was refused.
fn to_rest(bench: &mut Bench, sure: &[u32]) -> Result<(), Fail> {
    for _ in 0..MANY {
        if !go_on(bench, sure)? {
            return Ok(());
        }
    }
    Err("no rest".into())
}

// Whether this report is told then, if there is memory for it.
fn tells_then(bench: &mut Bench, closes: &[u32], want: &[u8]) -> Result<bool, Fail> {
    to_rest(bench, closes)?;
    match told(bench) {
        Some(text) => Ok(is_text(text, want)),
        None => Ok(true),
    }
}

// The same of a bench that is dropped then.
fn tells_at_last(mut bench: Bench, closes: &[u32], want: &[u8]) -> Result<bool, Fail> {
    let tells = tells_then(&mut bench, closes, want);
    drop(bench);
    tells
}

// Whether a script whose closes in these lines are answered ok has this report, if there is memory for mesh and report.
fn tells(alloc: Global, script: &[u8], closes: &[u32], want: &[u8]) -> Result<bool, Fail> {
    match begin_if(alloc, script)? {
        Some(bench) => tells_at_last(bench, closes, want),
        None => Ok(true),
    }
}

#[test]
fn a_deliver_and_a_good_close_want_no_memory(rt: HostRuntime) -> Result<(), Fail> {
    assert!(rt; tells(rt.alloc(), STRIPE, &[9], STRIPE_REPORT)?);
    assert!(rt; tells(rt.alloc(), WRITER, &[6, 9], WRITER_REPORT)?);
    Ok(())
}

// Whether a run says what is due: its report, or that memory ran out.
fn is_due(status: u8, written: &[u8], report: &[u8]) -> bool {
    match status {
        0 => written == report,
        6 => written == b"out of memory\n".as_slice(),
        _ => false,
    }
}

// Whether a run over disks in memory says what is due, if there is memory for its words.
fn ends_well(rt: &impl Abort, alloc: Global, outside: &mut Outside) -> bool {
    match run_to_end(rt, alloc, outside) {
        Some(end) => is_due(end.status, outside.sink.written(), ASSEMBLY_REPORT),
        None => true,
    }
}

// The same of an outside that is dropped then.
fn ends_well_at_last(rt: &impl Abort, alloc: Global, mut outside: Outside) -> bool {
    let good = ends_well(rt, alloc, &mut outside);
    drop(outside);
    good
}

// The same of the assembly, if there is memory for its outside.
fn assembles(rt: &impl Abort, alloc: Global) -> bool {
    match outside_of(alloc, ASSEMBLY) {
        Ok(outside) => ends_well_at_last(rt, alloc, outside),
        Err(_) => true,
    }
}

#[test]
fn an_assembly_ends_well_or_without_memory(rt: HostRuntime) -> Result<(), Fail> {
    assert!(rt; assembles(&rt, rt.alloc()));
    Ok(())
}

// A disk stands on the shelf with the bytes that the log tells, which are zeros where no mesh opened.
fn is_as_logged(
    rt: &impl Abort,
    users: &Users,
    name: &Name,
    disk: u32,
    log: &Option<Log>,
) -> Result<(), Fail> {
    let bytes = users
        .outside
        .shelf
        .bytes_of(name)
        .ok_or("not on the shelf")?;
    let same = has_contents(users.alloc, log, disk, SIZE, bytes)?;
    assert!(rt; same, "disk {disk} has other bytes");
    Ok(())
}

// The disks after a run: as the script leaves them, or as logged.
fn have_bytes(rt: &impl Abort, users: &Users, status: u8, log: &Option<Log>) -> Result<(), Fail> {
    if status == 0 {
        assert_eq!(rt; fronts(users)?, DONE.disks);
        return Ok(());
    }
    is_as_logged(rt, users, &users.names[0], 0, log)?;
    is_as_logged(rt, users, &users.names[1], 1, log)
}

// A run says what is due, and leaves the disks so.
fn ended_well(rt: &impl Abort, users: &Users, ended: &Ended) -> Result<(), Fail> {
    assert!(rt; is_due(ended.status, users.outside.sink.written(), USERS_REPORT));
    have_bytes(rt, users, ended.status, &ended.log)
}

// The same of a run whose end is dropped then.
fn ended_well_at_last(rt: &impl Abort, users: &Users, ended: Ended) -> Result<(), Fail> {
    let answer = ended_well(rt, users, &ended);
    drop(ended);
    answer
}

// A run over the disks of the shelf.
fn use_disks(rt: &impl Abort, users: &mut Users) -> Result<(), Fail> {
    match run(rt, users.alloc, &mut users.outside) {
        Some(ended) => ended_well_at_last(rt, users, ended),
        None => Ok(()),
    }
}

// The same of disks that are dropped then.
fn use_disks_at_last(rt: &impl Abort, mut users: Users) -> Result<(), Fail> {
    let answer = use_disks(rt, &mut users);
    drop(users);
    answer
}

#[test]
fn disks_come_back_as_logged_without_memory(rt: HostRuntime) -> Result<(), Fail> {
    match set_up_if(rt.alloc(), USERS)? {
        Some(users) => use_disks_at_last(&rt, users),
        None => Ok(()),
    }
}

//! Two threads that drive one mesh under the lock: what each made is what the log says of its seat.
ghost use Rattle.std.specs.Prelude.{◌≡◌, ◌+◌, ◌<◌, ◌≤◌, [], ◌∷◌, ◌++◌, IfSome};
ghost use Rattle.geo_model.specs.Plans.{FactsFit, IsFact};
ghost use Rattle.geo_lock.specs.Pass.{IsSamePass};
ghost use Rattle.geo_lock.specs.Yard.{IsPassOf, IsWhole, first_pass};
ghost use Rattle.geo_jobs.specs.Mesh.{IsHistory};

use crate::same::assert_same;
use geo_core::Mesh;
use geo_lock::{Pass, PassList, Yard};
use geo_log::DiskFacts;
use geo_model::{DiskDecl, DiskKind, Entry, Outcome, Reply, Step};
use geo_script::{Plan, parse};
use std::alloc::Global;
use std::sync::Wait;
use std::test::Fail;
use std::thread::{Threads, join, yield_now};

// Readers alone, so the actors' commands are all that is to do. They stand in lines 4 to 15.
const SCRIPT: &[u8] = b"ram md0 512 16
actor alice
actor bob
alice open h md0 r1w0e0
alice mesh
alice close h
alice open h md0 r1w0e0
alice mesh
alice close h
bob open g md0 r1w0e0
bob mesh
bob close g
bob open g md0 r1w0e0
bob mesh
bob close g
";

// A thread ends after so many refusals in a row, and anyhow after so many turns.
const REFUSALS: u32 = 3;

const TURNS: u32 = 100;

// What a thread has: its pass, its actor, and the lines of the replies that it got.
#[derive(Drop)]
struct Job {
    pass: Pass<Mesh>,
    actor: u32,
    lines: Vec<u32>,
}

// The line that an outcome replies to without a refusal, else 0, which is no line.
fn line_of(outcome: &Outcome) -> u32 {
    match outcome {
        Outcome::Replied { line, reply } => {
            match reply {
                Reply::Refused(_) => 0,
                _ => *line,
            }
        }
        _ => 0,
    }
}

// Keeps the line of a step that was made. For want of memory it is lost, which the test finds. Whether one was made.
fn keep(job: &mut Job, line: Option<u32>) -> bool
    ensures { job.new.pass ≡ job.old.pass }
{
    match line {
        Some(line) => {
            let _ = job.lines.push(line);
            true
        }
        None => false,
    }
}

// One Go of the job's actor. Whether it was made.
fn go<R: Wait>(rt: &R, yard: &Yard<Mesh>, job: &mut Job) -> bool
    requires { IsPassOf yard.now job.old.pass }
    ensures { IsSamePass job.old.pass job.new.pass }
{
    let actor = job.actor;
    let answer = yard.apply(rt, &mut job.pass, Step::Go { actor });
    let line = match &answer {
        Ok(outcome) => Some(line_of(outcome)),
        Err(_) => None,
    };
    drop(answer);
    keep(job, line)
}

// Goes until some in a row were refused.
fn run<R: Wait>(rt: &R, yard: &Yard<Mesh>, mut job: Job) -> Job
    requires { IsPassOf yard.now job.pass }
    ensures { IsSamePass job.pass result.pass }
{
    let mut refused = 0u32;
    for _ in 0..TURNS {
        if refused >= REFUSALS {
            break;
        }
        let was_made = go(rt, yard, &mut job);
        refused = if was_made { 0 } else { refused.wrapping_add(1) };
        yield_now();
    }
    job
}

// Both jobs, each in a thread of its own.
fn run_both<R: Threads + Wait + Sync>(
    rt: &R,
    yard: &Yard<Mesh>,
    first: Job,
    second: Job,
) -> (Job, Job)
    requires { IsPassOf yard.now first.pass × IsPassOf yard.now second.pass }
    ensures { IsSamePass first.pass result.0.pass × IsSamePass second.pass result.1.pass }
{
    join(
        rt,
        || -> Job
            requires { IsPassOf yard.now first.pass }
            ensures { IsSamePass first.pass result.pass }
        { run(rt, yard, first) },
        || -> Job
            requires { IsPassOf yard.now second.pass }
            ensures { IsSamePass second.pass result.pass }
        { run(rt, yard, second) },
    )
}

// A mesh that was driven, and the lines of the replies that each thread got. The seat 0 makes no step.
#[derive(Drop)]
struct Driven {
    mesh: Mesh,
    first: Vec<u32>,
    second: Vec<u32>,
}

// Puts the pass of a job behind the others. Its lines are left.
fn put_back(passes: &mut PassList<Mesh>, job: Job) -> Vec<u32>
    requires { 0 < passes.old.spare }
    ensures items { passes.new.items ≡ passes.old.items ++ job.pass ∷ [] }
    ensures spare { passes.old.spare ≤ passes.new.spare + 1 }
{
    let Job {
        pass,
        actor: _,
        lines,
    } = job;
    passes.push(pass);
    lines
}

// Ends the yard, whose passes these are.
fn finish<R: AllocGlobal>(
    rt: &R,
    yard: Yard<Mesh>,
    mut passes: PassList<Mesh>,
    first: Job,
    second: Job,
) -> Driven
    requires whole { IsWhole yard (passes.items ++ first.pass ∷ second.pass ∷ []) }
    requires room { 2 ≤ passes.spare }
{
    let first = put_back(&mut passes, first);
    let second = put_back(&mut passes, second);
    let Ok(mesh) = yard.close(rt, passes) else {
        unreachable!()
    };
    Driven {
        mesh,
        first,
        second,
    }
}

// Two threads drive the mesh of a yard with one pass, as the seats 1 and 2.
fn drive_yard<R: Threads + Wait + Sync + AllocGlobal>(
    rt: &R,
    yard: Yard<Mesh>,
    mut opener: Pass<Mesh>,
    mut passes: PassList<Mesh>,
) -> Driven
    requires opener { opener ≡ first_pass yard }
    requires passes { passes.items ≡ [] }
    requires room { 3 ≤ passes.spare }
{
    let alloc: Global = rt.alloc();
    let first = yard.split(&mut opener);
    let second = yard.split(&mut opener);
    passes.push(opener);
    let first = Job {
        pass: first,
        actor: 0,
        lines: Vec::new(alloc),
    };
    let second = Job {
        pass: second,
        actor: 1,
        lines: Vec::new(alloc),
    };
    let (first, second) = run_both(rt, &yard, first, second);
    finish(rt, yard, passes, first, second)
}

// Two threads drive the mesh. None for want of memory.
fn drive<R: Threads + Wait + Sync + AllocGlobal>(
    rt: &R,
    mesh: Mesh,
    passes: PassList<Mesh>,
) -> Option<Driven>
    requires log { mesh.log ≡ [] }
    requires history { IsHistory mesh }
    requires passes { passes.items ≡ [] }
    requires room { 3 ≤ passes.spare }
{
    match Yard::create(rt, mesh) {
        Ok((yard, opener)) => Some(drive_yard(rt, yard, opener, passes)),
        Err(_) => None,
    }
}

// The sector size and the sectors of a small disk in memory, none of another one.
fn fact_of(decl: &DiskDecl) -> Option<(u32, u64)>
    ensures { IfSome result (IsFact decl.now) }
{
    match decl.kind {
        DiskKind::Ram if decl.sector == 512 && 1 <= decl.sectors && decl.sectors <= 1024 => {
            Some((512, decl.sectors))
        }
        _ => None,
    }
}

// The sizes of the only disk of a plan, if it is a small one in memory and there is memory for the sizes.
fn facts_of(alloc: Global, plan: &Plan) -> Option<DiskFacts>
    ensures { IfSome result (λ facts. FactsFit plan.now facts.items) }
{
    let [decl] = plan.disks() else { return None };
    let (sector, sectors) = fact_of(decl)?;
    let mut facts = DiskFacts::new(alloc);
    facts.reserve(1).ok()?;
    facts.push(sector, sectors);
    Some(facts)
}

// The mesh of a plan over its only disk, if there is memory.
pub(crate) fn mesh_of(alloc: Global, plan: Plan) -> Option<Mesh>
    ensures log { IfSome result (λ mesh. mesh.log ≡ []) }
    ensures history { IfSome result IsHistory }
{
    match facts_of(alloc, &plan) {
        Some(facts) => {
            let mesh = Mesh::begin(alloc, plan, &facts).ok();
            drop(facts);
            mesh
        }
        None => {
            drop(plan);
            None
        }
    }
}

// The mesh of the script, if there is memory.
fn script_mesh(alloc: Global) -> Option<Mesh>
    ensures log { IfSome result (λ mesh. mesh.log ≡ []) }
    ensures history { IfSome result IsHistory }
{
    match parse(alloc, SCRIPT) {
        Ok(plan) => mesh_of(alloc, plan),
        Err(_) => None,
    }
}

// Room for three passes, if there is memory.
fn pass_list(alloc: Global) -> Option<PassList<Mesh>>
    ensures passes { IfSome result (λ passes. passes.items ≡ []) }
    ensures room { IfSome result (λ passes. 3 ≤ passes.spare) }
{
    let mut passes = PassList::new(alloc);
    match passes.reserve(3) {
        Ok(()) => Some(passes),
        Err(_) => None,
    }
}

// The mesh of the script is driven. None for want of memory.
fn drive_script<R: Threads + Wait + Sync + AllocGlobal>(rt: &R) -> Option<Driven> {
    let alloc: Global = rt.alloc();
    let passes = pass_list(alloc)?;
    match script_mesh(alloc) {
        Some(mesh) => drive(rt, mesh, passes),
        None => {
            drop(passes);
            None
        }
    }
}

// Is the entry a Go of the actor with a reply to the line?
fn is_go(entry: &Entry, actor: u32, line: u32) -> bool {
    let is_of_actor = match &entry.step {
        Step::Go { actor: other } => *other == actor,
        _ => false,
    };
    is_of_actor && line_of(&entry.outcome) == line
}

// Are the seat's entries just the Goes of the actor with replies to these lines, in order?
fn is_log_of(log: &[Entry], seat: u32, actor: u32, lines: &[u32]) -> bool {
    let mut left = lines;
    for entry in log {
        if entry.seat == seat {
            match left {
                [line, rest @ ..] if is_go(entry, actor, *line) => left = rest,
                _ => return false,
            }
        }
    }
    left.is_empty()
}

// Whether each thread got the replies to its actor's lines, in order, and none is a refusal; and whether the entries of
// each seat are the steps of its thread, in order, and no other seat has one.
fn tells(driven: &Driven) -> (bool, bool) {
    let log = driven.mesh.log().entries();
    let first = driven.first.as_slice();
    let second = driven.second.as_slice();
    let are_answered = first == [4u32, 5, 6, 7, 8, 9].as_slice()
        && second == [10u32, 11, 12, 13, 14, 15].as_slice();
    let are_theirs = log.len() == 12 && is_log_of(log, 1, 0, first) && is_log_of(log, 2, 1, second);
    (are_answered, are_theirs)
}

#[test]
fn two_threads_drive_a_mesh(rt: HostRuntime) -> Result<(), Fail> {
    let Some(driven) = drive_script(&rt) else {
        panic!(rt; "memory")
    };
    let told = tells(&driven);
    drop(driven);
    assert_same(&rt, told, (true, true));
    Ok(())
}

//! The jobs of a script: one after another and at once, and where their lane is full. What they leave is made with
//! seat 0.
ghost use Rattle.std.specs.Prelude.{◌≡◌, ◌+◌, ◌<◌, ◌≤◌, [], ◌∷◌, ◌++◌, length};
ghost use Rattle.geo_lock.specs.Yard.{IsWhole, first_pass};
ghost use Rattle.geo_jobs.specs.Mesh.{IsHistory};
ghost use Rattle.geo_jobs.specs.Workers.{IsReady};
ghost use Rattle.geo_tests_jobs.specs.Benches.{HasRoom, IsTaker, seen_drive, two_facts};
ghost use Rattle.geo_tests_jobs.specs.Standing.{AreStanding, passes_of};

use crate::bench::{REPORT, make_room, script_mesh};
use crate::drain::drain;
use crate::fill::fill;
use crate::rooms::Room;
use crate::start::start;
use geo_base::Block;
use geo_core::Mesh;
use geo_disk::MemDisk;
use geo_jobs::{JobParts, Lanes, OpenGate, Turn, Worker, run_jobs};
use geo_lane::{Lane, LanePass};
use geo_lock::{Pass, PassList, Yard};
use geo_log::Log;
use geo_report::report;
use std::alloc::Global;
use std::sync::Wait;
use std::test::Fail;
use std::thread::Threads;

// Lets a job make one turn.
fn turn_one<R: Wait + AllocGlobal>(
    rt: &R,
    yard: &Yard<Mesh>,
    lanes: &Lanes,
    worker: &mut Worker<MemDisk>,
)
    requires { IsReady yard.now lanes.now seen_drive worker.old }
    ensures ready { IsReady yard.now lanes.now seen_drive worker.new }
    ensures number { worker.new.job.pass.number ≡ worker.old.job.pass.number }
{
    worker.answer = worker.job.turn(rt, yard, lanes, &OpenGate);
}

// Lets a job make one turn, and then go until it ends.
fn go_one<R: Wait + AllocGlobal>(
    rt: &R,
    yard: &Yard<Mesh>,
    lanes: &Lanes,
    worker: &mut Worker<MemDisk>,
)
    requires { IsReady yard.now lanes.now seen_drive worker.old }
    ensures ready { IsReady yard.now lanes.now seen_drive worker.new }
    ensures number { worker.new.job.pass.number ≡ worker.old.job.pass.number }
{
    turn_one(rt, yard, lanes, worker);
    worker.answer = worker.job.go(rt, yard, lanes, &OpenGate);
}

// Lets each job go, one after another.
#[tactic(auto, using(crate::proofs::Standing::standing_at))]
fn go_each<R: Wait + AllocGlobal>(
    rt: &R,
    yard: &Yard<Mesh>,
    lanes: &Lanes,
    workers: &mut Vec<Worker<MemDisk>>,
)
    requires { AreStanding yard.now lanes.now 1 workers.old.items }
    ensures standing { AreStanding yard.now lanes.now 1 workers.new.items }
    ensures count { length workers.new.items ≡ length workers.old.items }
{
    for k in 0..workers.len() {
        go_one(rt, yard, lanes, &mut workers[k]);
    }
}

// Lets all jobs go at once.
fn go_at_once<R: Threads + Wait + Sync + AllocGlobal>(
    rt: &R,
    yard: &Yard<Mesh>,
    lanes: &Lanes,
    workers: &mut Vec<Worker<MemDisk>>,
)
    requires some { 0 < length workers.old.items }
    requires standing { AreStanding yard.now lanes.now 1 workers.old.items }
    ensures standing { AreStanding yard.now lanes.now 1 workers.new.items }
    ensures count { length workers.new.items ≡ length workers.old.items }
{
    run_jobs(rt, yard, lanes, &OpenGate, workers.as_mut_slice());
}

/// How the jobs go: one after another, or at once; or one after another where the down lane was full before.
#[derive(Clone, Copy, Debug, PartialEq, Eq)]
enum Way {
    OneByOne,
    AtOnce,
    FullLane,
}

// Lets the jobs go.
fn go<R: Threads + Wait + Sync + AllocGlobal>(
    rt: &R,
    yard: &Yard<Mesh>,
    lanes: &Lanes,
    way: Way,
    workers: &mut Vec<Worker<MemDisk>>,
)
    requires some { 0 < length workers.old.items }
    requires standing { AreStanding yard.now lanes.now 1 workers.old.items }
    ensures standing { AreStanding yard.now lanes.now 1 workers.new.items }
    ensures count { length workers.new.items ≡ length workers.old.items }
{
    match way {
        Way::AtOnce => go_at_once(rt, yard, lanes, workers),
        _ => go_each(rt, yard, lanes, workers),
    }
}

// Fills a lane, if its jobs are to find it full, and tells how many tickets it had room for.
fn prepare<R: Wait + AllocGlobal>(rt: &R, lane: &Lane, way: Way, taker: &mut LanePass) -> u64
    requires { IsTaker lane.now 0 taker.old }
    ensures { IsTaker lane.now 1 taker.new }
{
    match way {
        Way::FullLane => fill(rt, lane, taker),
        _ => 0,
    }
}

// Did each job end idle or finished?
fn are_done(workers: &[Worker<MemDisk>]) -> bool {
    for worker in workers {
        match worker.answer {
            Turn::Idle | Turn::Finished => {}
            _ => return false,
        }
    }
    true
}

// The pass of a worker, whose drives are dropped.
fn pass_of(worker: Worker<MemDisk>) -> Pass<Mesh>
    ensures { result ≡ worker.job.pass }
{
    let Worker { job, answer: _ } = worker;
    let JobParts { pass, drives } = job.parts();
    drop(drives);
    pass
}

// The passes of workers, in room that was made.
fn take_back(workers: Vec<Worker<MemDisk>>, passes: &mut PassList<Mesh>)
    requires { length workers.items ≤ passes.old.spare }
    ensures { passes.new.items ≡ passes.old.items ++ passes_of workers.items }
{
    for worker in workers {
        passes.push(pass_of(worker));
    }
}

// Ends the yard, whose passes are those of the opener and of the workers.
fn finish<R: AllocGlobal>(
    rt: &R,
    yard: Yard<Mesh>,
    opener: Pass<Mesh>,
    workers: Vec<Worker<MemDisk>>,
    mut passes: PassList<Mesh>,
) -> Mesh
    requires whole { IsWhole yard (opener ∷ passes_of workers.items) }
    requires none { passes.items ≡ [] }
    requires room { length workers.items + 1 ≤ passes.spare }
{
    passes.push(opener);
    take_back(workers, &mut passes);
    let Ok(mesh) = yard.close(rt, passes) else {
        unreachable!()
    };
    mesh
}

/// A mesh that the jobs drove, how many tickets filled the down lane before, and whether each job ended idle or
/// finished.
#[derive(Drop)]
struct Driven {
    mesh: Mesh,
    filled: u64,
    are_done: bool,
}

// The jobs of the script drive the mesh of a yard.
#[tactic(auto, using(crate::proofs::Standing::is_first))]
fn drive_yard<R: Threads + Wait + Sync + AllocGlobal>(
    rt: &R,
    yard: Yard<Mesh>,
    mut opener: Pass<Mesh>,
    room: Room,
    way: Way,
) -> Driven
    requires opener { opener ≡ first_pass yard }
    requires facts { yard.start.facts ≡ two_facts }
    requires room { HasRoom room }
{
    let Room {
        first,
        second,
        mut workers,
        passes,
        lanes,
        mut takers,
    } = room;
    let filled = prepare(rt, &lanes.down, way, &mut takers.down);
    start(
        rt,
        &yard,
        &lanes,
        &mut opener,
        takers,
        first,
        second,
        &mut workers,
    );
    go(rt, &yard, &lanes, way, &mut workers);
    let are_done = are_done(workers.as_slice());
    let mesh = finish(rt, yard, opener, workers, passes);
    Driven {
        mesh,
        filled,
        are_done,
    }
}

// The jobs of the script drive its mesh. None for want of memory.
fn drive_in<R: Threads + Wait + Sync + AllocGlobal>(
    rt: &R,
    mesh: Mesh,
    room: Room,
    way: Way,
) -> Option<Driven>
    requires log { mesh.log ≡ [] }
    requires facts { mesh.facts ≡ two_facts }
    requires history { IsHistory mesh }
    requires room { HasRoom room }
{
    match Yard::create(rt, mesh) {
        Ok((yard, opener)) => Some(drive_yard(rt, yard, opener, room, way)),
        Err(fault) => {
            drop(fault);
            drop(room);
            None
        }
    }
}

// The same of a new mesh.
fn drive_new<R: Threads + Wait + Sync + AllocGlobal>(rt: &R, room: Room, way: Way) -> Option<Driven>
    requires { HasRoom room }
{
    match script_mesh(rt.alloc()) {
        Some(mesh) => drive_in(rt, mesh, room, way),
        None => {
            drop(room);
            None
        }
    }
}

// The same in room that is made for it.
fn drive<R: Threads + Wait + Sync + AllocGlobal>(rt: &R, way: Way) -> Option<Driven> {
    match make_room(rt) {
        Ok(room) => drive_new(rt, room, way),
        Err(_) => None,
    }
}

// How many entries each seat has: seat 0, the two clients, the event worker, the down worker, the up worker and the two
// disk workers.
fn by_seats(log: &Log) -> [u32; 8] {
    let mut counts = [0u32; 8];
    for entry in log.entries() {
        let seat = entry.seat as usize;
        if seat < 8 {
            counts[seat] = counts[seat].saturating_add(1);
        }
    }
    counts
}

// The report of the mesh as it is, if there is memory for it.
fn report_of(alloc: Global, mesh: &Mesh) -> Option<Block> {
    let lines = mesh.listing(alloc).ok()?;
    let text = report(alloc, mesh.plan(), mesh.log(), &lines).ok();
    drop(lines);
    text
}

// Whether the mesh has the report that is due.
fn reports(alloc: Global, mesh: &Mesh) -> bool {
    match report_of(alloc, mesh) {
        Some(text) => text.bytes() == REPORT,
        None => false,
    }
}

/// What is told of jobs that went: how many tickets filled the down lane before, whether each job ended idle or
/// finished, how many entries each seat had then, and whether the mesh was at rest; and whether, once seat 0 made what
/// was left, it was at rest and its report was due.
#[derive(Clone, Copy, Debug, PartialEq, Eq)]
struct Told {
    filled: u64,
    are_done: bool,
    by_seats: [u32; 8],
    rested: bool,
    rests: bool,
    reports: bool,
}

// What is told of jobs that went, once seat 0 made what was left.
fn tell(alloc: Global, driven: &mut Driven) -> Result<Told, Fail> {
    let by_seats = by_seats(driven.mesh.log());
    let rested = driven.mesh.at_rest();
    drain(alloc, &mut driven.mesh)?;
    Ok(Told {
        filled: driven.filled,
        are_done: driven.are_done,
        by_seats,
        rested,
        rests: driven.mesh.at_rest(),
        reports: reports(alloc, &driven.mesh),
    })
}

// The same of jobs that go this way.
fn tells<R: Threads + Wait + Sync + AllocGlobal>(rt: &R, way: Way) -> Result<Told, Fail> {
    match drive(rt, way) {
        Some(mut driven) => {
            let told = tell(rt.alloc(), &mut driven);
            drop(driven);
            told
        }
        None => Err("no memory".into()),
    }
}

#[test]
fn jobs_end_one_after_another_and_seat_0_makes_the_rest(rt: HostRuntime) -> Result<(), Fail> {
    let want = Told {
        filled: 0,
        are_done: true,
        // Each client made its open and its read, which wait for the disks; one read of a taste is out beside them.
        by_seats: [0, 2, 2, 2, 3, 0, 4, 2],
        rested: false,
        rests: true,
        reports: true,
    };
    assert_eq!(rt; tells(&rt, Way::OneByOne)?, want);
    Ok(())
}

#[test]
fn jobs_end_at_once(rt: HostRuntime) -> Result<(), Fail> {
    let told = tells(&rt, Way::AtOnce)?;
    assert_eq!(rt;
        (told.are_done, told.rests, told.reports),
        (true, true, true)
    );
    assert_eq!(rt; told.by_seats[0], 0);
    Ok(())
}

#[test]
fn what_a_full_lane_drops_is_made_by_seat_0(rt: HostRuntime) -> Result<(), Fail> {
    let want = Told {
        filled: 1024,
        are_done: true,
        // No bio is started, so the disks are asked nothing.
        by_seats: [0, 2, 2, 2, 0, 0, 0, 0],
        rested: false,
        rests: true,
        reports: true,
    };
    assert_eq!(rt; tells(&rt, Way::FullLane)?, want);
    Ok(())
}

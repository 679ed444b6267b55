//! What no clause says: what is found of each step that can't be made, met once on the way of a concrete mesh.
use crate::bench::{
    ALL, Bench, begin, deliver, go, make, make_as, refusal_of, rest, start, take, tells_at_rest, up,
};
use crate::scripts::{REAPED, REAPED_REPORT, SYNCS, SYNCS_REPORT, TWO_READS};
use geo_base::{BioId, Block, SharedBytes};
use geo_core::ApplyRefusal;
use geo_model::{DeviceResult, Found, Phase, Step};
use std::alloc::Global;
use std::process::Abort;
use std::test::Fail;

// Whether a step is said to be enabled, and why it is refused when it is to be made.
fn tried(bench: &mut Bench, seat: u32, step: Step) -> (bool, Option<ApplyRefusal>) {
    let enabled = bench.mesh.enabled(seat, &step);
    (enabled, refusal_of(bench, seat, step))
}

// A step of a seat is refused for what is found, and isn't logged.
fn refuses(rt: &impl Abort, bench: &mut Bench, seat: u32, step: Step, want: Found) {
    let entries = bench.mesh.log().len();
    let answer = tried(bench, seat, step);
    assert_eq!(rt;
        answer,
        (false, Some(ApplyRefusal::NotEnabled { found: want }))
    );
    assert_eq!(rt; bench.mesh.log().len(), entries, "{want:?}");
}

// Before the first step two events wait, and there is no request.
fn at_first(rt: &impl Abort, bench: &mut Bench) {
    let bio = BioId::new(1);
    refuses(rt, bench, 0, Step::Start { bio }, Found::NoSuchBio);
    refuses(rt, bench, 0, Step::Up { bio }, Found::NoSuchBio);
    refuses(rt, bench, 0, Step::Take { disk: 0, bio }, Found::NoSuchBio);
    let got = DeviceResult::Done;
    refuses(rt, bench, 0, Step::Deliver { bio, got }, Found::NoSuchBio);
    refuses(rt, bench, 0, Step::Go { actor: 2 }, Found::NoSuchActor);
    refuses(rt, bench, 0, Step::Go { actor: 1 }, Found::Unsettled);
    refuses(rt, bench, 0, Step::Judge, Found::NoTaste);
    refuses(rt, bench, 0, Step::Reap, Found::NothingToReap);
    refuses(rt, bench, 0, Step::Wash, Found::NothingToWash);
}

// A taste begins and reads, and then all comes to rest.
fn in_a_taste(rt: &impl Abort, bench: &mut Bench) -> Result<(), Fail> {
    make(bench, Step::Event)?;
    refuses(rt, bench, 0, Step::Event, Found::TasteUnderWay);
    make(bench, Step::Judge)?;
    let bio = BioId::new(1);
    refuses(rt, bench, 0, Step::Judge, Found::ReadOut { bio });
    rest(bench, 0)?;
    refuses(rt, bench, 0, Step::Event, Found::QueueEmpty);
    Ok(())
}

/// The requests of the actor: the tastes of both disks had four each.
const FIRST: u64 = 9;

const SECOND: u64 = 10;

// The first disk is asked for the first request of the actor, which isn't there yet.
fn before_a_disk(rt: &impl Abort, bench: &mut Bench) {
    let bio = BioId::new(FIRST);
    let take = Step::Take { disk: 0, bio };
    refuses(rt, bench, 3, take, Found::InPhase(Phase::Down));
}

// Both requests wait for the first disk.
fn at_a_disk(rt: &impl Abort, bench: &mut Bench) -> Result<(), Fail> {
    start(bench, FIRST)?;
    start(bench, SECOND)?;
    let bio = BioId::new(FIRST);
    let start = Step::Start { bio };
    refuses(rt, bench, 3, start, Found::InPhase(Phase::Sent));
    let up = Step::Up { bio };
    refuses(rt, bench, 3, up, Found::InPhase(Phase::Sent));
    let take = Step::Take { disk: 1, bio };
    refuses(rt, bench, 3, take, Found::OtherDisk { disk: 0 });
    Ok(())
}

// Seat 3 has the first disk take the first request.
fn on_a_disk(rt: &impl Abort, bench: &mut Bench) -> Result<(), Fail> {
    let bio = BioId::new(FIRST);
    make_as(bench, 3, Step::Take { disk: 0, bio })?;
    let take = Step::Take { disk: 0, bio };
    refuses(rt, bench, 3, take, Found::InPhase(Phase::Busy(3)));
    let other = BioId::new(SECOND);
    let take = Step::Take {
        disk: 0,
        bio: other,
    };
    refuses(rt, bench, 3, take, Found::DiskBusy { bio });
    Ok(())
}

// So many bytes of the first request.
fn bytes_step(bench: &Bench, count: u32) -> Result<Step, Fail> {
    Ok(Step::Deliver {
        bio: BioId::new(FIRST),
        got: DeviceResult::Bytes(SharedBytes::from_block(Block::zeros(bench.alloc, count)?)),
    })
}

// The first request is answered by another seat, and by answers that don't fit it.
fn at_an_answer(rt: &impl Abort, bench: &mut Bench) -> Result<(), Fail> {
    let bio = BioId::new(FIRST);
    let fitting = bytes_step(bench, 512)?;
    refuses(rt, bench, 4, fitting, Found::OtherSeat { seat: 3 });
    let short = bytes_step(bench, 511)?;
    refuses(rt, bench, 3, short, Found::Unfit);
    let got = DeviceResult::Done;
    refuses(rt, bench, 3, Step::Deliver { bio, got }, Found::Unfit);
    let got = DeviceResult::Failed { done: 1 };
    refuses(rt, bench, 3, Step::Deliver { bio, got }, Found::Unfit);
    let fitting = bytes_step(bench, 512)?;
    make_as(bench, 3, fitting)?;
    let late = bytes_step(bench, 512)?;
    refuses(rt, bench, 3, late, Found::InPhase(Phase::Up));
    Ok(())
}

// The actor's two requests are out, and it waits for them.
fn at_a_sync(rt: &impl Abort, bench: &mut Bench) -> Result<(), Fail> {
    go(bench, 0)?;
    go(bench, 0)?;
    go(bench, 0)?;
    let bio = BioId::new(FIRST);
    refuses(
        rt,
        bench,
        0,
        Step::Go { actor: 0 },
        Found::OwnBiosOut { bio },
    );
    refuses(rt, bench, 0, Step::Go { actor: 1 }, Found::Unsettled);
    Ok(())
}

// The whole way.
fn all_are_found(rt: &impl Abort, bench: &mut Bench) -> Result<(), Fail> {
    at_first(rt, bench);
    in_a_taste(rt, bench)?;
    at_a_sync(rt, bench)?;
    before_a_disk(rt, bench);
    at_a_disk(rt, bench)?;
    on_a_disk(rt, bench)?;
    at_an_answer(rt, bench)?;
    rest(bench, ALL)?;
    refuses(rt, bench, 0, Step::Go { actor: 0 }, Found::NoCommand);
    Ok(())
}

// The same of the script.
fn all_of_two_reads(rt: &impl Abort, alloc: Global) -> Result<(), Fail> {
    let mut bench = begin(alloc, TWO_READS)?;
    let answer = all_are_found(rt, &mut bench);
    drop(bench);
    answer
}

#[test]
fn a_step_that_cannot_be_made_says_what_is_found(rt: HostRuntime) -> Result<(), Fail> {
    all_of_two_reads(&rt, rt.alloc())
}

// The sync of an actor waits for this request.
fn waits(rt: &impl Abort, bench: &mut Bench, actor: u32, bio: u64) {
    let bio = BioId::new(bio);
    refuses(rt, bench, 0, Step::Go { actor }, Found::OwnBiosOut { bio });
}

// A request goes all its way. Before each of its steps the sync of its actor waits for the smallest that is out.
fn pass(rt: &impl Abort, bench: &mut Bench, actor: u32, bio: u64, least: u64) -> Result<(), Fail> {
    waits(rt, bench, actor, least);
    start(bench, bio)?;
    waits(rt, bench, actor, least);
    take(bench, 0, BioId::new(bio))?;
    waits(rt, bench, actor, least);
    deliver(bench)?;
    waits(rt, bench, actor, least);
    up(bench, bio)
}

/// The read of the second actor, behind the four of the disk's taste.
const OTHER: u64 = 5;

/// The reads of the first actor.
const LESS: u64 = 6;

const MORE: u64 = 7;

// All three reads are out. Those of the first actor go their way in this order, and then that of the other one.
fn syncs(rt: &impl Abort, bench: &mut Bench, order: [u64; 2]) -> Result<bool, Fail> {
    rest(bench, 5)?;
    go(bench, 1)?;
    go(bench, 0)?;
    go(bench, 0)?;
    pass(rt, bench, 0, order[0], LESS)?;
    pass(rt, bench, 0, order[1], order[1])?;
    waits(rt, bench, 1, OTHER);
    go(bench, 0)?;
    pass(rt, bench, 1, OTHER, OTHER)?;
    go(bench, 1)?;
    tells_at_rest(bench, SYNCS_REPORT)
}

// The same of the script.
fn synced(rt: &impl Abort, alloc: Global, order: [u64; 2]) -> Result<bool, Fail> {
    let mut bench = begin(alloc, SYNCS)?;
    let answer = syncs(rt, &mut bench, order);
    drop(bench);
    answer
}

#[test]
fn a_sync_waits_for_the_last_of_its_own_requests(rt: HostRuntime) -> Result<(), Fail> {
    for order in [[LESS, MORE], [MORE, LESS]] {
        assert!(rt; synced(&rt, rt.alloc(), order)?, "{order:?}");
    }
    Ok(())
}

/// The read that the disk has when it is pulled, and the one that isn't sent yet.
const TAKEN: u64 = 5;

const UNSENT: u64 = 6;

// The reads are on their way when the disk is pulled, and the handle dies.
fn kill(rt: &impl Abort, bench: &mut Bench) -> Result<(), Fail> {
    rest(bench, 4)?;
    go(bench, 0)?;
    go(bench, 0)?;
    start(bench, TAKEN)?;
    take(bench, 0, BioId::new(TAKEN))?;
    go(bench, 1)?;
    refuses(rt, bench, 0, Step::Reap, Found::NothingToReap);
    make(bench, Step::Event)
}

// A read comes back, from the disk or because it can't be sent any more. It isn't up yet, and nothing is to be reaped.
fn come_back(rt: &impl Abort, bench: &mut Bench, bio: u64) -> Result<(), Fail> {
    refuses(rt, bench, 0, Step::Reap, Found::NothingToReap);
    if bio == TAKEN {
        deliver(bench)?;
    } else {
        start(bench, bio)?;
    }
    refuses(rt, bench, 0, Step::Reap, Found::NothingToReap);
    up(bench, bio)
}

// The reads come back in this order. The handle is reaped once.
fn reaps(rt: &impl Abort, bench: &mut Bench, order: [u64; 2]) -> Result<bool, Fail> {
    kill(rt, bench)?;
    come_back(rt, bench, order[0])?;
    come_back(rt, bench, order[1])?;
    make(bench, Step::Reap)?;
    refuses(rt, bench, 0, Step::Reap, Found::NothingToReap);
    tells_at_rest(bench, REAPED_REPORT)
}

// The same of the script.
fn reaped(rt: &impl Abort, alloc: Global, order: [u64; 2]) -> Result<bool, Fail> {
    let mut bench = begin(alloc, REAPED)?;
    let answer = reaps(rt, &mut bench, order);
    drop(bench);
    answer
}

#[test]
fn a_dead_handle_is_reaped_after_its_last_request(rt: HostRuntime) -> Result<(), Fail> {
    for order in [[TAKEN, UNSENT], [UNSENT, TAKEN]] {
        assert!(rt; reaped(&rt, rt.alloc(), order)?, "{order:?}");
    }
    Ok(())
}

//! What no clause says: whole lists of steps against worked reports: a taste that is disturbed before each of its
//! steps, pieces that come back in another order, and a concat that may not grow under a request.
use crate::bench::{Bench, advance, begin, due, go, rest, serve, start, tells_at_rest, up};
use crate::scripts::{
    APPEND, APPEND_REPORT, DISK_FIRST, DISK_FIRST_REPORT, NO_APPEND_REPORT, NOP_FIRST,
    NOP_FIRST_REPORT, PULL, PULL_REPORT, STRIPE, STRIPE_REPORT, WRITER, WRITER_REPORT,
};
use geo_core::Mesh;
use geo_model::Step;
use std::alloc::Global;
use std::test::Fail;

/// No list of steps before another actor's command is so long.
const LONGEST: u32 = 200;

// A script goes on to a line. Then the first actor's next command is made, so many steps of the fixed order without a
// command, and the other actor's next command. Whether there were so many steps.
fn disturb(bench: &mut Bench, line: u32, steps: u32) -> Result<bool, Fail> {
    rest(bench, line)?;
    go(bench, 0)?;
    if !advance(bench, steps)? {
        return Ok(false);
    }
    go(bench, 1)?;
    Ok(true)
}

// Whether this is the report then, none where there were fewer steps.
fn tells_disturbed(
    bench: &mut Bench,
    line: u32,
    steps: u32,
    want: &[u8],
) -> Result<Option<bool>, Fail> {
    if !disturb(bench, line, steps)? {
        return Ok(None);
    }
    Ok(Some(tells_at_rest(bench, want)?))
}

// The same of a script.
fn disturbed(
    alloc: Global,
    script: &[u8],
    line: u32,
    steps: u32,
    want: &[u8],
) -> Result<Option<bool>, Fail> {
    let mut bench = begin(alloc, script)?;
    let answer = tells_disturbed(&mut bench, line, steps, want);
    drop(bench);
    answer
}

#[test]
fn a_pull_before_each_step_of_a_taste_ends_it(rt: HostRuntime) -> Result<(), Fail> {
    for steps in 0..LONGEST {
        let Some(same) = disturbed(rt.alloc(), PULL, 5, steps, PULL_REPORT)? else {
            // The tastes of the disk and of its label have four reads each.
            assert!(rt; steps > 50, "{steps} steps");
            return Ok(());
        };
        assert!(rt; same, "another report after {steps} steps");
    }
    Err("no end of the taste".into())
}

// How many events were begun since a place of the log.
fn events_since(bench: &Bench, place: usize) -> u32 {
    let mut count = 0u32;
    for (at, entry) in bench.mesh.log().entries().iter().enumerate() {
        if at >= place && matches!(entry.step, Step::Event) && count < u32::MAX {
            count += 1;
        }
    }
    count
}

// Whether a step is an Event.
fn is_event(step: Step) -> bool {
    let is_event = matches!(&step, Step::Event);
    drop(step);
    is_event
}

// Whether an Event is due.
fn is_event_due(mesh: &Mesh) -> bool {
    match due(mesh, 0) {
        Some(step) => is_event(step),
        None => false,
    }
}

// So many steps of the fixed order after a close, if the taste of its provider lasts so long.
fn into_taste(bench: &mut Bench, steps: u32) -> Result<bool, Fail> {
    let place = bench.mesh.log().entries().len();
    advance(bench, steps)?;
    let over = is_event_due(&bench.mesh) && steps > 0;
    Ok(!over && events_since(bench, place) < 2)
}

// Whether the report is the writer's where the disk is opened for writing after so many steps of its taste, none where
// the taste is over.
fn tells_written(bench: &mut Bench, steps: u32) -> Result<Option<bool>, Fail> {
    rest(bench, 5)?;
    go(bench, 0)?;
    if !into_taste(bench, steps)? {
        return Ok(None);
    }
    go(bench, 1)?;
    Ok(Some(tells_at_rest(bench, WRITER_REPORT)?))
}

// The same of the script.
fn written(alloc: Global, steps: u32) -> Result<Option<bool>, Fail> {
    let mut bench = begin(alloc, WRITER)?;
    let answer = tells_written(&mut bench, steps);
    drop(bench);
    answer
}

#[test]
fn a_writer_before_each_step_of_a_taste_ends_it(rt: HostRuntime) -> Result<(), Fail> {
    for steps in 0..LONGEST {
        let Some(same) = written(rt.alloc(), steps)? else {
            // It has four reads.
            assert!(rt; steps > 20, "{steps} steps");
            return Ok(());
        };
        assert!(rt; same, "another report after {steps} steps");
    }
    Err("no end of the taste".into())
}

/// The pieces of the read on the stripe, from the last to the first, each with its disk.
const PIECES: [(u32, u64); 7] = [
    (0, 36),
    (2, 35),
    (1, 34),
    (0, 33),
    (2, 32),
    (1, 31),
    (0, 30),
];

// The read on the stripe, whose pieces are delivered and go up from the last to the first.
fn reverse(bench: &mut Bench) -> Result<(), Fail> {
    rest(bench, 7)?;
    go(bench, 0)?;
    for bio in 29..37u64 {
        start(bench, bio)?;
    }
    for (disk, bio) in PIECES {
        serve(bench, disk, bio)?;
    }
    for (_, bio) in PIECES {
        up(bench, bio)?;
    }
    up(bench, 29)
}

// Whether the bytes are told in their order all the same.
fn tells_reversed(bench: &mut Bench) -> Result<bool, Fail> {
    reverse(bench)?;
    tells_at_rest(bench, STRIPE_REPORT)
}

// The same of the script.
fn reversed(alloc: Global) -> Result<bool, Fail> {
    let mut bench = begin(alloc, STRIPE)?;
    let answer = tells_reversed(&mut bench);
    drop(bench);
    answer
}

#[test]
fn pieces_in_reverse_order_give_the_same_bytes(rt: HostRuntime) -> Result<(), Fail> {
    assert!(rt; reversed(rt.alloc())?);
    Ok(())
}

// A read of two pieces, which start and go up in this order: one at the window that fails each request, one at the
// disk that is pulled before.
fn fail_both(bench: &mut Bench, pieces: [u64; 2]) -> Result<(), Fail> {
    rest(bench, 7)?;
    go(bench, 0)?;
    start(bench, 21)?;
    go(bench, 1)?;
    for bio in pieces {
        start(bench, bio)?;
        up(bench, bio)?;
    }
    up(bench, 21)
}

// Whether this is the report then.
fn tells_failed(bench: &mut Bench, pieces: [u64; 2], want: &[u8]) -> Result<bool, Fail> {
    fail_both(bench, pieces)?;
    tells_at_rest(bench, want)
}

// The same of a script.
fn failed(alloc: Global, script: &[u8], pieces: [u64; 2], want: &[u8]) -> Result<bool, Fail> {
    let mut bench = begin(alloc, script)?;
    let answer = tells_failed(&mut bench, pieces, want);
    drop(bench);
    answer
}

#[test]
fn the_error_told_is_that_of_the_first_piece(rt: HostRuntime) -> Result<(), Fail> {
    for pieces in [[22, 23], [23, 22]] {
        let nop = failed(rt.alloc(), NOP_FIRST, pieces, NOP_FIRST_REPORT)?;
        assert!(rt; nop, "{pieces:?}");
        let disk = failed(rt.alloc(), DISK_FIRST, pieces, DISK_FIRST_REPORT)?;
        assert!(rt; disk, "{pieces:?}");
    }
    Ok(())
}

/// The steps of the read on the concat: it and its piece start, the piece is taken and delivered, and both go up.
const STEPS_OF_READ: u32 = 6;

#[test]
fn a_concat_grows_only_before_or_after_a_request(rt: HostRuntime) -> Result<(), Fail> {
    for steps in 0..=STEPS_OF_READ {
        let want = if steps < STEPS_OF_READ {
            NO_APPEND_REPORT
        } else {
            APPEND_REPORT
        };
        let same = disturbed(rt.alloc(), APPEND, 6, steps, want)?.ok_or("fewer steps")?;
        assert!(rt; same, "another report after {steps} steps");
    }
    Ok(())
}

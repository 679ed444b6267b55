//! Requests of many handles over one disk.
use crate::same::assert_same;
use crate::tagged::{Seen, begin, none_seen, settle};
use crate::tokens::{open_disk, read_as};
use geo_tags::TaggedSession;
use std::alloc::Global;
use std::test::Fail;

/// A disk and an actor.
const DISK: &[u8] = b"ram md0 512 16
actor a
";

// The name of a handle, by its number.
fn name_of(number: u64) -> [u8; 2] {
    [b'h', b'a' + (number % 16) as u8]
}

// Sixteen handles of the disk are opened.
fn open_all(tagged: &mut TaggedSession) -> Result<(), Fail> {
    for number in 0..16 {
        open_disk(tagged, name_of(number).as_slice(), b"md0")?;
    }
    Ok(())
}

// Each handle has three reads out, each in its turn. The tokens count them.
fn read_all(tagged: &mut TaggedSession) -> Result<(), Fail> {
    for token in 0..48 {
        read_as(tagged, name_of(token).as_slice(), 48 - token, token)?;
    }
    Ok(())
}

// How many wait once all are out; then all are answered.
fn run(alloc: Global, tagged: &mut TaggedSession, seen: &mut Seen) -> Result<usize, Fail> {
    settle(alloc, tagged, seen)?;
    open_all(tagged)?;
    settle(alloc, tagged, seen)?;
    read_all(tagged)?;
    let waited = tagged.waiting();
    settle(alloc, tagged, seen)?;
    Ok(waited)
}

// Whether each reply came in its turn: their tokens count from 0.
fn in_turn(replies: &[(u64, u64)]) -> bool {
    let mut wanted: u64 = 0;
    for reply in replies {
        if reply.0 != wanted {
            return false;
        }
        wanted = wanted.wrapping_add(1);
    }
    true
}

#[test]
fn replies_come_in_the_order_of_arrival(rt: HostRuntime) -> Result<(), Fail> {
    let mut tagged = begin(rt.alloc(), DISK)?;
    let mut seen = none_seen(rt.alloc());
    let came = run(rt.alloc(), &mut tagged, &mut seen);
    let replies = (seen.replies.len(), in_turn(&seen.replies));
    let left = tagged.waiting();
    drop(tagged);
    drop(seen);
    assert_same(&rt, came?, 48);
    assert_same(&rt, replies, (48, true));
    assert_same(&rt, left, 0);
    Ok(())
}

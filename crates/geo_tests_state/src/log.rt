//! What no clause says: that there is memory, a log with several Delivers, and one that gets no more room.
use crate::same::assert_same;
use geo_base::{BioId, Block, SharedBytes};
use geo_bio::LogBytes;
use geo_log::Log;
use geo_model::{DeviceResult, Entry, Outcome, Step};
use std::alloc::Global;
use std::test::Fail;

// An entry of the step with no more to tell.
fn entry(step: Step, outcome: Outcome) -> Entry {
    Entry {
        seat: 0,
        step,
        outcome,
    }
}

// A Deliver to the bio.
fn deliver(bio: u64, got: DeviceResult) -> Entry {
    let bio = BioId::new(bio);
    entry(Step::Deliver { bio, got }, Outcome::Delivered)
}

// The bytes of a text, as a disk's answer.
fn answer(alloc: Global, text: &[u8]) -> Result<DeviceResult, Fail> {
    let block = Block::from_slice(alloc, text)?;
    Ok(DeviceResult::Bytes(SharedBytes::from_block(block)))
}

// How many bytes a place has and their first, or nothing.
fn seen(log: &Log, place: u64) -> Option<(usize, u8)> {
    let bytes = log.bytes_at(place)?.bytes();
    Some((bytes.len(), bytes.first().copied().unwrap_or(0)))
}

// Two Delivers with bytes and two without, and one step more.
fn four_delivers(log: &mut Log, alloc: Global) -> Result<(), Fail> {
    let (first, last) = (answer(alloc, b"first")?, answer(alloc, b"last")?);
    log.reserve(5)?;
    log.push(deliver(1, DeviceResult::Failed { done: 0 }));
    log.push(deliver(2, first));
    log.push(entry(Step::Event, Outcome::Ran));
    log.push(deliver(3, DeviceResult::Done));
    log.push(deliver(4, last));
    Ok(())
}

#[test]
fn each_place_has_the_bytes_of_its_own_deliver(rt: HostRuntime) -> Result<(), Fail> {
    let mut log = Log::new(rt.alloc());
    four_delivers(&mut log, rt.alloc())?;
    for place in [0u64, 2, 3, 5, u64::MAX] {
        assert_eq!(rt; seen(&log, place), None, "at {place}");
    }
    assert_same(&rt, seen(&log, 1), Some((5, b'f')));
    assert_same(&rt, seen(&log, 4), Some((4, b'l')));
    Ok(())
}

// Room for more than there can be is refused, and then the bytes go into the room that was made before: from there on
// no memory is asked for, and they are moved.
fn without_memory(log: &mut Log, alloc: Global) -> Result<Option<(usize, u8)>, Fail> {
    let bytes = answer(alloc, b"moved")?;
    log.reserve(1)?;
    let Err(_) = log.reserve(u64::MAX) else {
        return Err("there is room".into());
    };
    log.push(deliver(1, bytes));
    Ok(seen(log, 0))
}

#[test]
fn bytes_are_moved_where_no_memory_is_left(rt: HostRuntime) -> Result<(), Fail> {
    let alloc = rt.alloc();
    let mut log = Log::new(alloc);
    assert_same(&rt, without_memory(&mut log, alloc)?, Some((5, b'm')));
    assert_same(&rt, (log.len(), log.entries().len()), (1, 1));
    Ok(())
}

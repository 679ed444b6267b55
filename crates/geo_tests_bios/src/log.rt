//! What no clause says: that there is memory, a log with a Deliver, and the sizes of disks.
use crate::same::assert_same;
use geo_base::{BioId, Block, ConsId, ProvId, SharedBytes};
use geo_bio::{LogBytes, Targets};
use geo_log::{DiskFacts, Log};
use geo_model::{DeviceResult, Entry, Outcome, Step};
use std::alloc::Global;
use std::test::Fail;

// An entry of the step with no more to tell.
fn entry(step: Step, outcome: Outcome) -> Entry {
    Entry {
        seat: 0,
        step,
        outcome,
    }
}

// Three entries, of which the second delivers two bytes. How many bytes each place has.
fn one_deliver(log: &mut Log, alloc: Global) -> Result<[Option<usize>; 3], Fail> {
    log.reserve(3)?;
    let bytes = SharedBytes::from_block(Block::from_slice(alloc, b"ok")?);
    let got = DeviceResult::Bytes(bytes);
    let bio = BioId::new(1);
    log.push(entry(Step::Event, Outcome::Ran));
    log.push(entry(Step::Deliver { bio, got }, Outcome::Delivered));
    log.push(entry(Step::Up { bio }, Outcome::TasteBack));
    Ok([
        log.bytes_at(0).map(|bytes| bytes.len()),
        log.bytes_at(1).map(|bytes| bytes.len()),
        log.bytes_at(2).map(|bytes| bytes.len()),
    ])
}

#[test]
fn delivered_bytes_stand_at_their_place(rt: HostRuntime) -> Result<(), Fail> {
    let alloc = rt.alloc();
    let mut log = Log::new(alloc);
    assert_same(&rt, one_deliver(&mut log, alloc)?, [None, Some(2), None]);
    assert_same(&rt, log.len(), 3);
    Ok(())
}

// The sizes of two disks.
fn two_facts(facts: &mut DiskFacts) -> Result<[(u32, u64); 2], Fail> {
    facts.reserve(2)?;
    facts.push(512, 8);
    facts.push(4096, 2);
    match facts.items() {
        [first, second] => Ok([*first, *second]),
        _ => Err("not two".into()),
    }
}

#[test]
fn sizes_stand_in_their_order(rt: HostRuntime) -> Result<(), Fail> {
    let mut facts = DiskFacts::new(rt.alloc());
    assert_same(&rt, two_facts(&mut facts)?, [(512, 8), (4096, 2)]);
    Ok(())
}

// Two targets.
fn two_targets(targets: &mut Targets) -> Result<[(ConsId, ProvId); 2], Fail> {
    targets.reserve(2)?;
    targets.push((ConsId::new(1), ProvId::new(4)));
    targets.push((ConsId::new(2), ProvId::new(3)));
    match targets.items() {
        [first, second] => Ok([*first, *second]),
        _ => Err("not two".into()),
    }
}

#[test]
fn targets_stand_in_their_order(rt: HostRuntime) -> Result<(), Fail> {
    let mut targets = Targets::new(rt.alloc());
    let want = [
        (ConsId::new(1), ProvId::new(4)),
        (ConsId::new(2), ProvId::new(3)),
    ];
    assert_same(&rt, two_targets(&mut targets)?, want);
    Ok(())
}

//! A lane that is full, one that is empty, and two senders in threads of their own.
ghost use Rattle.std.specs.Prelude.{◌≡◌, ◌+◌, ◌-◌, ◌<◌, ◌≤◌, ◌^◌, [], length};
ghost use Rattle.geo_lane.specs.LanePass.{IsSamePass};

use crate::same::assert_same;
use geo_base::BioId;
use geo_lane::{Full, Lane, LanePass, Ticket, TicketStep};
use std::sync::Wait;
use std::test::Fail;
use std::thread::{Threads, join};

const EACH: u32 = 100;

// The next ticket of a pass, to start this bio.
fn next_ticket(pass: &LanePass, bio: u64) -> Ticket
    ensures sender { result.sender ≡ pass.now.sender }
    ensures number { result.number ≡ length pass.now.put }
{
    Ticket {
        sender: pass.sender(),
        number: pass.put_so_far(),
        step: TicketStep::Start(BioId::new(bio)),
    }
}

fn is_start_of(ticket: &Ticket, bio: u64) -> bool {
    ticket.step == TicketStep::Start(BioId::new(bio))
}

// Puts tickets to start the bios 0, 1, 2 and so on.
fn put_all<R: Wait>(rt: &R, lane: &Lane, mut pass: LanePass, count: u32) -> LanePass
    requires own { pass.lane ≡ lane.now }
    requires fresh { pass.put ≡ [] }
    ensures same { IsSamePass pass result }
    ensures put { length result.put ≤ count }
{
    for bio in 0..u64::from(count) {
        let ticket = next_ticket(&pass, bio);
        let _ = lane.put(rt, &mut pass, ticket);
    }
    pass
}

// Puts one more ticket, to start this bio, and gives it back where the lane is full.
fn put_one<R: Wait>(rt: &R, lane: &Lane, pass: &mut LanePass, bio: u64) -> Option<Ticket>
    requires own { pass.old.lane ≡ lane.now }
    requires room { length pass.old.put < 2 ^ 64 - 1 }
    ensures same { IsSamePass pass.old pass.new }
    ensures put { length pass.new.put ≤ length pass.old.put + 1 }
{
    let ticket = next_ticket(pass, bio);
    match lane.put(rt, pass, ticket) {
        Ok(()) => None,
        Err(Full { ticket }) => Some(ticket),
    }
}

// Puts tickets to start the bios 0, 1, 2 and so on, and tells for how many the lane was full.
fn put_many<R: Wait>(rt: &R, lane: &Lane, pass: &mut LanePass, count: u32) -> u32
    requires own { pass.old.lane ≡ lane.now }
    requires fresh { pass.old.put ≡ [] }
    ensures same { IsSamePass pass.old pass.new }
    ensures put { length pass.new.put ≤ count }
{
    let mut refused = 0u32;
    for bio in 0..u64::from(count) {
        if put_one(rt, lane, pass, bio).is_some() {
            refused = refused.wrapping_add(1);
        }
    }
    refused
}

// Both senders, each in a thread of its own.
fn put_both<R: Threads + Wait + Sync>(
    rt: &R,
    lane: &Lane,
    first: LanePass,
    second: LanePass,
) -> (LanePass, LanePass)
    requires own { (first.lane ≡ lane.now) × (second.lane ≡ lane.now) }
    requires fresh { (first.put ≡ []) × (second.put ≡ []) }
    ensures { IsSamePass first result.0 × IsSamePass second result.1 }
{
    join(
        rt,
        || -> LanePass
            requires { (first.lane ≡ lane.now) × (first.put ≡ []) }
            ensures { IsSamePass first result }
        { put_all(rt, lane, first, EACH) },
        || -> LanePass
            requires { (second.lane ≡ lane.now) × (second.put ≡ []) }
            ensures { IsSamePass second result }
        { put_all(rt, lane, second, EACH) },
    )
}

// Takes as many tickets as both senders put, and tells how many had the wrong step.
fn take_all<R: Wait>(rt: &R, lane: &Lane, mut pass: LanePass) -> (LanePass, u64)
    requires own { pass.lane ≡ lane.now }
    requires first { pass.sender ≡ 0 }
    ensures { IsSamePass pass result.0 }
{
    let mut left = 2 * EACH;
    let mut wrong = 0u64;
    for _ in rt.forever() {
        if left == 0 {
            return (pass, wrong);
        }
        if let Some(ticket) = lane.take(rt, &mut pass) {
            left -= 1;
            if !is_start_of(&ticket, ticket.number) {
                wrong = wrong.wrapping_add(1);
            }
        }
    }
    unreachable!()
}

// One taker and two senders. None for want of memory.
fn send_and_take<R: Threads + Wait + Sync + AllocGlobal>(rt: &R) -> Option<(bool, u64)> {
    let (lane, mut taker) = Lane::create(rt).ok()?;
    let first = lane.split_pass(rt, &mut taker).ok()?;
    let second = lane.split_pass(rt, &mut taker).ok()?;
    let ((first, second), (mut taker, wrong)) = join(
        rt,
        || -> (LanePass, LanePass)
            requires { (first.lane ≡ lane) × (second.lane ≡ lane) × (first.put ≡ []) × (second.put ≡ []) }
            ensures { IsSamePass first result.0 × IsSamePass second result.1 }
        { put_both(rt, &lane, first, second) },
        || -> (LanePass, u64)
            requires { (taker.lane ≡ lane) × (taker.sender ≡ 0) }
            ensures { IsSamePass taker result.0 }
        { take_all(rt, &lane, taker) },
    );
    lane.take_in(&mut taker, first);
    lane.take_in(&mut taker, second);
    Some((lane.take(rt, &mut taker).is_none(), wrong))
}

#[test]
fn each_ticket_of_two_senders_comes(rt: HostRuntime) -> Result<(), Fail> {
    assert_same(&rt, send_and_take(&rt), Some((true, 0)));
    Ok(())
}

#[test]
fn a_lane_with_1024_tickets_is_full(rt: HostRuntime) -> Result<(), Fail> {
    let (lane, pass) = Lane::create(&rt)?;
    let mut pass = put_all(&rt, &lane, pass, 1024);
    assert_same(&rt, pass.put_so_far(), 1024);
    let ticket = next_ticket(&pass, 5000);
    let Err(Full { ticket }) = lane.put(&rt, &mut pass, ticket) else {
        panic!(rt; "room for one more")
    };
    assert!(rt; is_start_of(&ticket, 5000));
    assert_same(&rt, (ticket.sender, ticket.number), (0, 1024));
    let Some(first) = lane.take(&rt, &mut pass) else {
        panic!(rt; "an empty lane")
    };
    assert!(rt; is_start_of(&first, 0));
    assert!(rt; lane.put(&rt, &mut pass, ticket).is_ok());
    Ok(())
}

#[test]
fn an_empty_lane_gives_nothing(rt: HostRuntime) -> Result<(), Fail> {
    let (lane, mut pass) = Lane::create(&rt)?;
    assert!(rt; lane.take(&rt, &mut pass).is_none());
    let ticket = next_ticket(&pass, 7);
    assert!(rt; lane.put(&rt, &mut pass, ticket).is_ok());
    let Some(back) = lane.take(&rt, &mut pass) else {
        panic!(rt; "an empty lane")
    };
    assert!(rt; is_start_of(&back, 7));
    assert!(rt; lane.take(&rt, &mut pass).is_none());
    Ok(())
}

#[test]
fn a_sender_fills_a_lane_with_1024_tickets(rt: HostRuntime) -> Result<(), Fail> {
    let (lane, mut taker) = Lane::create(&rt)?;
    let mut sender = lane.split_pass(&rt, &mut taker)?;
    assert_same(&rt, put_many(&rt, &lane, &mut sender, 1023), 0);
    assert_same(&rt, sender.put_so_far(), 1023);
    assert_same(&rt, put_one(&rt, &lane, &mut sender, 1023), None);
    assert_same(&rt, sender.put_so_far(), 1024);
    let Some(back) = put_one(&rt, &lane, &mut sender, 5000) else {
        panic!(rt; "room for one more")
    };
    assert!(rt; is_start_of(&back, 5000));
    assert_same(&rt, (back.sender, back.number), (1, 1024));
    assert_same(&rt, sender.put_so_far(), 1024);
    let Some(first) = lane.take(&rt, &mut taker) else {
        panic!(rt; "an empty lane")
    };
    assert!(rt; is_start_of(&first, 0));
    assert_same(&rt, (first.sender, first.number), (1, 0));
    assert_same(&rt, put_one(&rt, &lane, &mut sender, 5001), None);
    assert!(rt; put_one(&rt, &lane, &mut sender, 5002).is_some());
    Ok(())
}

#[test]
fn a_taker_gets_a_ticket_of_a_pass_that_it_has_not_taken_in(rt: HostRuntime) -> Result<(), Fail> {
    let (lane, mut taker) = Lane::create(&rt)?;
    let mut sender = lane.split_pass(&rt, &mut taker)?;
    assert!(rt; lane.take(&rt, &mut taker).is_none());
    assert_same(&rt, put_one(&rt, &lane, &mut sender, 7), None);
    let Some(ticket) = lane.take(&rt, &mut taker) else {
        panic!(rt; "an empty lane")
    };
    assert!(rt; is_start_of(&ticket, 7));
    assert_same(&rt, (ticket.sender, ticket.number), (1, 0));
    assert!(rt; lane.take(&rt, &mut taker).is_none());
    Ok(())
}

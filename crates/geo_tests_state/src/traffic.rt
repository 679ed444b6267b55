//! What no clause says: that there is memory, and READs that pass over each other on their way.
ghost use Rattle.std.specs.Prelude.{◌≡◌};
ghost use Rattle.geo_model.specs.World.{is_down, is_sent, is_busy, is_up};
ghost use Rattle.geo_bio.specs.BioTable.{has_phase};

use crate::same::assert_same;
use geo_base::{BioCmd, BioId, ConsId, Errno, HandleId, ProvId, SharedBytes};
use geo_log::Log;
use geo_model::{Owner, Phase, Span};
use geo_state::Traffic;
use std::alloc::Global;
use std::process::Abort;
use std::test::Fail;

// A READ of a line.
fn submit(traffic: &mut Traffic, alloc: Global) -> Result<(), Fail> {
    let (from, to) = (ConsId::new(1), ProvId::new(1));
    let (handle, line) = (HandleId::new(1), 1);
    let span = Span {
        offset: 0,
        len: 512,
    };
    let bytes = SharedBytes::none(alloc);
    let owner = Owner::Line { handle, line };
    traffic.submit(BioCmd::Read, span, bytes, from, to, owner)?;
    Ok(())
}

fn is_down(traffic: &Traffic, bio: BioId) -> bool
    ensures { result ≡ has_phase is_down traffic.now.bios bio }
{
    match traffic.get(bio) {
        Some(found) => matches!(found.phase, Phase::Down),
        None => false,
    }
}

fn is_sent(traffic: &Traffic, bio: BioId) -> bool
    ensures { result ≡ has_phase is_sent traffic.now.bios bio }
{
    match traffic.get(bio) {
        Some(found) => matches!(found.phase, Phase::Sent),
        None => false,
    }
}

fn is_busy(traffic: &Traffic, bio: BioId) -> bool
    ensures { result ≡ has_phase is_busy traffic.now.bios bio }
{
    match traffic.get(bio) {
        Some(found) => matches!(found.phase, Phase::Busy(_)),
        None => false,
    }
}

fn is_up(traffic: &Traffic, bio: BioId) -> bool
    ensures { result ≡ has_phase is_up traffic.now.bios bio }
{
    match traffic.get(bio) {
        Some(found) => matches!(found.phase, Phase::Up),
        None => false,
    }
}

// The bio isn't let down.
fn bounce(traffic: &mut Traffic, bio: u64) -> Result<(), Fail> {
    let bio = BioId::new(bio);
    if !is_down(traffic, bio) {
        return Err("not down".into());
    }
    traffic.bounce(bio, Errno::ENXIO);
    Ok(())
}

// The first bio that is Down goes to its disk. Its number.
fn send(traffic: &mut Traffic) -> Result<u64, Fail> {
    let bio = traffic.first_down().ok_or("none is down")?;
    if !is_down(traffic, bio) {
        return Err("not down".into());
    }
    traffic.send(bio);
    Ok(bio.number())
}

// The seat takes the first bio that is Sent. Its number.
fn take(traffic: &mut Traffic, seat: u32) -> Result<u64, Fail> {
    let bio = traffic.first_sent().ok_or("none is sent")?;
    if !is_sent(traffic, bio) {
        return Err("not sent".into());
    }
    traffic.take(bio, seat);
    Ok(bio.number())
}

// The seat that has the bio, if one does.
fn seat_of(traffic: &Traffic, bio: u64) -> Option<u32> {
    match traffic.get(BioId::new(bio))?.phase {
        Phase::Busy(seat) => Some(seat),
        _ => None,
    }
}

// The bio's disk answers with an error.
fn deliver(traffic: &mut Traffic, bio: u64) -> Result<(), Fail> {
    let bio = BioId::new(bio);
    if !is_busy(traffic, bio) {
        return Err("not busy".into());
    }
    traffic.deliver(bio, 0, Some(Errno::EIO));
    Ok(())
}

// The first bio that is Up goes up. Its number.
fn up(traffic: &mut Traffic, alloc: Global, log: &Log) -> Result<u64, Fail> {
    let bio = traffic.first_up().ok_or("none is up")?;
    if !is_up(traffic, bio) {
        return Err("not up".into());
    }
    traffic.up(alloc, bio, log)?;
    Ok(bio.number())
}

// How many bios are Busy and how many there are, and whether one waits for a step.
fn left(traffic: &Traffic) -> ([u64; 2], bool) {
    let down = traffic.first_down().is_some();
    let waits = down || traffic.first_sent().is_some() || traffic.first_up().is_some();
    ([traffic.busy(), traffic.len()], waits)
}

// Of six READs the fifth and the second are bounced. In which order the others go to their disks, and in which they are
// taken by two seats, by turns.
fn all_taken(traffic: &mut Traffic, alloc: Global) -> Result<[[u64; 4]; 2], Fail> {
    for _number in 0..6u32 {
        submit(traffic, alloc)?;
    }
    bounce(traffic, 5)?;
    bounce(traffic, 2)?;
    let sent = [
        send(traffic)?,
        send(traffic)?,
        send(traffic)?,
        send(traffic)?,
    ];
    let taken = [
        take(traffic, 0)?,
        take(traffic, 1)?,
        take(traffic, 0)?,
        take(traffic, 1)?,
    ];
    Ok([sent, taken])
}

// Three that are Up go up. In which order.
fn three_up(traffic: &mut Traffic, alloc: Global) -> Result<[u64; 3], Fail> {
    let log = Log::new(alloc);
    Ok([
        up(traffic, alloc, &log)?,
        up(traffic, alloc, &log)?,
        up(traffic, alloc, &log)?,
    ])
}

// Those that are Busy, but the fourth, are delivered, the last one first.
fn deliver_others(traffic: &mut Traffic) -> Result<(), Fail> {
    deliver(traffic, 6)?;
    deliver(traffic, 3)?;
    deliver(traffic, 1)
}

// Six READs pass over each other, two of which are bounced, and each goes up.
fn pass_over(rt: &impl Abort, traffic: &mut Traffic, alloc: Global) -> Result<(), Fail> {
    let taken = all_taken(traffic, alloc)?;
    assert_same(rt, taken, [[1, 3, 4, 6], [1, 3, 4, 6]]);
    assert_same(rt, left(traffic), ([4, 6], true));
    deliver(traffic, 4)?;
    let seats = [seat_of(traffic, 3), seat_of(traffic, 4)];
    assert_same(rt, seats, [Some(1), None]);
    assert_same(rt, three_up(traffic, alloc)?, [2, 4, 5]);
    assert_same(rt, left(traffic), ([3, 3], false));
    deliver_others(traffic)?;
    assert_same(rt, three_up(traffic, alloc)?, [1, 3, 6]);
    assert_same(rt, left(traffic), ([0, 0], false));
    Ok(())
}

#[test]
fn none_is_skipped(rt: HostRuntime) -> Result<(), Fail> {
    let mut traffic = Traffic::new(rt.alloc());
    let passed = pass_over(&rt, &mut traffic, rt.alloc());
    drop(traffic);
    passed
}

// Room for more READs than there can be is refused, after one was made. What is left then, and the number of the next
// one.
fn refused(traffic: &mut Traffic, alloc: Global) -> Result<(([u64; 2], bool), u64), Fail> {
    submit(traffic, alloc)?;
    let Err(_) = traffic.reserve(u64::MAX) else {
        return Err("there is room".into());
    };
    let seen = left(traffic);
    submit(traffic, alloc)?;
    let next = traffic.next_from(2).ok_or("no second one")?;
    Ok((seen, next.number()))
}

#[test]
fn requests_stay_where_memory_is_wanting(rt: HostRuntime) -> Result<(), Fail> {
    let mut traffic = Traffic::new(rt.alloc());
    let (seen, next) = refused(&mut traffic, rt.alloc())?;
    assert_same(&rt, seen, ([0, 1], true));
    assert_same(&rt, next, 2);
    Ok(())
}

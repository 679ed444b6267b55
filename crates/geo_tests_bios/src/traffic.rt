//! What no clause says: that there is memory, and what is due while two READs go their way, with the log's bytes.
ghost use Rattle.std.specs.Prelude.{◌≡◌};
ghost use Rattle.geo_model.specs.World.{is_down, is_sent, is_busy, is_up};
ghost use Rattle.geo_bio.specs.BioTable.{has_phase};

use crate::same::assert_same;
use geo_base::{BioCmd, BioId, Block, ConsId, Errno, HandleId, NoMemory, ProvId, SharedBytes};
use geo_bio::{Risen, Targets};
use geo_class::PieceList;
use geo_log::Log;
use geo_model::{BioResult, DeviceResult, Entry, Outcome, Owner, Phase, Piece, Span, Step};
use geo_state::Traffic;
use std::alloc::Global;
use std::test::Fail;

// The first bio that is Down, the first that is Sent, the first that is Up (0 where there is none), how many are Busy,
// and how many there are.
fn due(traffic: &Traffic) -> [u64; 5] {
    [
        number(traffic.first_down()),
        number(traffic.first_sent()),
        number(traffic.first_up()),
        traffic.busy(),
        traffic.len(),
    ]
}

fn number(bio: Option<BioId>) -> u64 {
    match bio {
        Some(bio) => bio.number(),
        None => 0,
    }
}

// A READ of a line, of this many bytes.
fn submit(traffic: &mut Traffic, alloc: Global, len: u64) -> Result<(), NoMemory> {
    let owner = Owner::Line {
        handle: HandleId::new(1),
        line: 1,
    };
    let span = Span { offset: 0, len };
    let bytes = SharedBytes::none(alloc);
    let (from, to) = (ConsId::new(1), ProvId::new(1));
    traffic.submit(BioCmd::Read, span, bytes, from, to, owner)?;
    Ok(())
}

fn piece(at: u64) -> Piece {
    let span = Span {
        offset: at,
        len: 512,
    };
    Piece { child: 0, span, at }
}

// The bio is split into two pieces of 512 bytes.
fn split(traffic: &mut Traffic, alloc: Global, bio: u64) -> Result<(), Fail> {
    let mut pieces = PieceList::new(alloc);
    let mut targets = Targets::new(alloc);
    pieces.reserve(2)?;
    targets.reserve(2)?;
    pieces.push(piece(0));
    pieces.push(piece(512));
    targets.push((ConsId::new(2), ProvId::new(2)));
    targets.push((ConsId::new(3), ProvId::new(3)));
    let bio = BioId::new(bio);
    if !is_down(traffic, bio) {
        return Err("not down".into());
    }
    traffic.start(alloc, bio, &pieces, &targets)?;
    Ok(())
}

fn is_down(traffic: &Traffic, bio: BioId) -> bool
    ensures { result ≡ has_phase is_down traffic.now.bios bio }
{
    match traffic.get(bio) {
        Some(found) => matches!(found.phase, Phase::Down),
        None => false,
    }
}

fn is_sent(traffic: &Traffic, bio: BioId) -> bool
    ensures { result ≡ has_phase is_sent traffic.now.bios bio }
{
    match traffic.get(bio) {
        Some(found) => matches!(found.phase, Phase::Sent),
        None => false,
    }
}

fn is_busy(traffic: &Traffic, bio: BioId) -> bool
    ensures { result ≡ has_phase is_busy traffic.now.bios bio }
{
    match traffic.get(bio) {
        Some(found) => matches!(found.phase, Phase::Busy(_)),
        None => false,
    }
}

fn is_up(traffic: &Traffic, bio: BioId) -> bool
    ensures { result ≡ has_phase is_up traffic.now.bios bio }
{
    match traffic.get(bio) {
        Some(found) => matches!(found.phase, Phase::Up),
        None => false,
    }
}

// The bio goes to its disk.
fn send(traffic: &mut Traffic, bio: u64) -> Result<[u64; 5], Fail> {
    let bio = BioId::new(bio);
    if !is_down(traffic, bio) {
        return Err("not down".into());
    }
    traffic.send(bio);
    Ok(due(traffic))
}

// A seat takes the bio.
fn take(traffic: &mut Traffic, bio: u64) -> Result<[u64; 5], Fail> {
    let bio = BioId::new(bio);
    if !is_sent(traffic, bio) {
        return Err("not sent".into());
    }
    traffic.take(bio, 0);
    Ok(due(traffic))
}

// The bio's disk answers with 512 bytes of its number, which go into the log.
fn deliver(
    traffic: &mut Traffic,
    alloc: Global,
    log: &mut Log,
    bio: u64,
) -> Result<[u64; 5], Fail> {
    let fill = [(bio % 256) as u8; 512];
    let got = DeviceResult::Bytes(SharedBytes::from_block(Block::from_slice(alloc, &fill)?));
    let bio = BioId::new(bio);
    if !is_busy(traffic, bio) {
        return Err("not busy".into());
    }
    log.reserve(1)?;
    traffic.deliver(bio, log.len(), None);
    log.push(Entry {
        seat: 0,
        step: Step::Deliver { bio, got },
        outcome: Outcome::Delivered,
    });
    Ok(due(traffic))
}

// The bio isn't let down.
fn bounce(traffic: &mut Traffic, bio: u64) -> Result<[u64; 5], Fail> {
    let bio = BioId::new(bio);
    if !is_down(traffic, bio) {
        return Err("not down".into());
    }
    traffic.bounce(bio, Errno::EIO);
    Ok(due(traffic))
}

// The bio goes up.
fn up(traffic: &mut Traffic, alloc: Global, log: &Log, bio: u64) -> Result<Risen, Fail> {
    let bio = BioId::new(bio);
    if !is_up(traffic, bio) {
        return Err("not up".into());
    }
    Ok(traffic.up(alloc, bio, log)?)
}

// A READ of two pieces and one that goes to its disk itself: what is due after the children stand in the table, after
// each Send, and after two Takes, of which the second is of the first that is Sent.
fn downwards(traffic: &mut Traffic, alloc: Global) -> Result<[[u64; 5]; 6], Fail> {
    submit(traffic, alloc, 1024)?;
    submit(traffic, alloc, 512)?;
    split(traffic, alloc, 1)?;
    Ok([
        due(traffic),
        send(traffic, 2)?,
        send(traffic, 4)?,
        send(traffic, 3)?,
        take(traffic, 3)?,
        take(traffic, 2)?,
    ])
}

// The same with none before.
fn all_down(alloc: Global) -> Result<[[u64; 5]; 6], Fail> {
    let mut traffic = Traffic::new(alloc);
    downwards(&mut traffic, alloc)
}

#[test]
fn the_first_is_due_on_the_way_down(rt: HostRuntime) -> Result<(), Fail> {
    let seen = all_down(rt.alloc())?;
    assert_same(&rt, seen[0], [2, 0, 0, 0, 4]);
    assert_same(&rt, seen[1], [3, 2, 0, 0, 4]);
    assert_same(&rt, seen[2], [3, 2, 0, 0, 4]);
    assert_same(&rt, seen[3], [0, 2, 0, 0, 4]);
    assert_same(&rt, seen[4], [0, 2, 0, 1, 4]);
    assert_same(&rt, seen[5], [0, 4, 0, 2, 4]);
    Ok(())
}

// What is due after two Delivers out of order, and after each of them went up.
fn upwards(traffic: &mut Traffic, alloc: Global, log: &mut Log) -> Result<[[u64; 5]; 4], Fail> {
    let third = deliver(traffic, alloc, log, 3)?;
    let second = deliver(traffic, alloc, log, 2)?;
    up(traffic, alloc, log, 2)?;
    let gone = due(traffic);
    up(traffic, alloc, log, 3)?;
    Ok([third, second, gone, due(traffic)])
}

// The last child comes in. What is due then.
fn complete(traffic: &mut Traffic, alloc: Global, log: &mut Log) -> Result<[u64; 5], Fail> {
    take(traffic, 4)?;
    deliver(traffic, alloc, log, 4)?;
    up(traffic, alloc, log, 4)?;
    Ok(due(traffic))
}

// How many bytes the READ of the children has, before it goes up and then, and its first and its last byte.
fn joined(traffic: &mut Traffic, alloc: Global, log: &Log) -> Result<([usize; 2], [u8; 2]), Fail> {
    let early = length(&traffic.copied(alloc, BioId::new(1), log)?);
    let Risen::Root(got) = up(traffic, alloc, log, 1)? else {
        return Err("no root".into());
    };
    Ok(([early, length(&got)], ends(&got)))
}

// How many bytes there are.
fn length(got: &BioResult) -> usize {
    match got {
        BioResult::Bytes(bytes) => bytes.bytes().len(),
        _ => 0,
    }
}

// The first byte and the last, 0 where there is none.
fn ends(got: &BioResult) -> [u8; 2] {
    match got {
        BioResult::Bytes(bytes) => [
            bytes.bytes().first().copied().unwrap_or(0),
            bytes.bytes().last().copied().unwrap_or(0),
        ],
        _ => [0, 0],
    }
}

// What is seen on the way up.
#[derive(Debug, Drop)]
struct Rise {
    seen: [[u64; 5]; 4],
    complete: [u64; 5],
    lengths: [usize; 2],
    ends: [u8; 2],
    left: u64,
}

// All of it, after the way down.
fn rising(traffic: &mut Traffic, alloc: Global, log: &mut Log) -> Result<Rise, Fail> {
    downwards(traffic, alloc)?;
    let seen = upwards(traffic, alloc, log)?;
    let complete = complete(traffic, alloc, log)?;
    let (lengths, ends) = joined(traffic, alloc, log)?;
    let left = traffic.len();
    Ok(Rise {
        seen,
        complete,
        lengths,
        ends,
        left,
    })
}

// The same with no bio before.
fn all_up(alloc: Global) -> Result<Rise, Fail> {
    let mut traffic = Traffic::new(alloc);
    let mut log = Log::new(alloc);
    rising(&mut traffic, alloc, &mut log)
}

#[test]
fn the_first_is_due_on_the_way_up(rt: HostRuntime) -> Result<(), Fail> {
    let up = all_up(rt.alloc())?;
    assert_same(&rt, up.seen[0], [0, 4, 3, 1, 4]);
    assert_same(&rt, up.seen[1], [0, 4, 2, 0, 4]);
    assert_same(&rt, up.seen[2], [0, 4, 3, 0, 3]);
    assert_same(&rt, up.seen[3], [0, 4, 0, 0, 3]);
    assert_same(&rt, up.complete, [0, 0, 1, 0, 1]);
    assert_same(&rt, up.lengths, [1024, 1024]);
    assert_same(&rt, up.ends, [3, 4]);
    assert_same(&rt, up.left, 0);
    Ok(())
}

// Of two READs the first is bounced. What is due then, whether it goes up with the error, what is due after that, and
// the first of those that are left.
fn bounced(
    traffic: &mut Traffic,
    alloc: Global,
    log: &Log,
) -> Result<([u64; 5], bool, [u64; 5], u64), Fail> {
    traffic.reserve(2)?;
    submit(traffic, alloc, 512)?;
    submit(traffic, alloc, 512)?;
    let seen = bounce(traffic, 1)?;
    let failed = has_failed(&up(traffic, alloc, log, 1)?);
    Ok((seen, failed, due(traffic), number(traffic.next_from(1))))
}

// Whether it is a request of a line that failed with EIO.
fn has_failed(risen: &Risen) -> bool {
    match risen {
        Risen::Root(BioResult::Failed(errno)) => *errno == Errno::EIO,
        _ => false,
    }
}

// The same with no bio before.
fn first_bounced(alloc: Global) -> Result<([u64; 5], bool, [u64; 5], u64), Fail> {
    let mut traffic = Traffic::new(alloc);
    let log = Log::new(alloc);
    bounced(&mut traffic, alloc, &log)
}

#[test]
fn a_bounced_request_goes_up(rt: HostRuntime) -> Result<(), Fail> {
    let (seen, failed, then, next) = first_bounced(rt.alloc())?;
    assert_same(&rt, seen, [2, 0, 1, 0, 2]);
    assert!(rt; failed);
    assert_same(&rt, then, [2, 0, 0, 0, 1]);
    assert_same(&rt, next, 2);
    Ok(())
}

//! Requests that are on their way at once.
use crate::same::assert_same;
use crate::tagged::{Seen, begin, go, handle, none_seen, open, read, settle};
use geo_model::{Command, Reply};
use geo_session::SessionRefusal;
use geo_tags::TaggedSession;
use std::alloc::Global;
use std::test::Fail;

/// Two disks and an actor.
const DISKS: &[u8] = b"ram md0 512 16
ram md1 512 16
actor a
";

/// Opens a disk under a handle's name.
pub fn open_disk(tagged: &mut TaggedSession, name: &[u8], disk: &[u8]) -> Result<(), Fail> {
    let command = open(handle(name)?, handle(disk)?);
    match tagged.submit(0, command, 0) {
        Ok(Some(Reply::Ok)) => Ok(()),
        Ok(other) => {
            drop(other);
            Err("an open isn't ok".into())
        }
        Err(_) => Err("an open is refused".into()),
    }
}

/// Reads a sector, with a token.
pub fn read_as(
    tagged: &mut TaggedSession,
    name: &[u8],
    sector: u64,
    token: u64,
) -> Result<(), Fail> {
    let command = read(handle(name)?, sector % 16 * 512);
    match tagged.submit(0, command, token) {
        Ok(None) => Ok(()),
        Ok(reply) => {
            drop(reply);
            Err("a read is answered at once".into())
        }
        Err(_) => Err("a read is refused".into()),
    }
}

// Reads a sector, and its token is what the sector's bytes tell.
fn read_sector(
    tagged: &mut TaggedSession,
    name: &[u8],
    disk: u64,
    sector: u64,
) -> Result<(), Fail> {
    read_as(tagged, name, sector, disk % 8 * 16 + sector % 16)
}

// Whether a sync has to wait.
fn sync_waits(tagged: &mut TaggedSession) -> bool {
    match tagged.submit(0, Command::Sync, 99) {
        Err(SessionRefusal::NotEnabled { .. }) => true,
        Err(SessionRefusal::NoMemory) => false,
        Ok(reply) => {
            drop(reply);
            false
        }
    }
}

// Two disks are opened, and all is at rest.
fn prepare(alloc: Global, tagged: &mut TaggedSession, seen: &mut Seen) -> Result<(), Fail> {
    settle(alloc, tagged, seen)?;
    open_disk(tagged, b"h", b"md0")?;
    open_disk(tagged, b"k", b"md1")?;
    settle(alloc, tagged, seen)
}

// Four reads at once, two of each disk.
fn read_all(tagged: &mut TaggedSession) -> Result<(), Fail> {
    read_sector(tagged, b"h", 0, 3)?;
    read_sector(tagged, b"k", 1, 1)?;
    read_sector(tagged, b"h", 0, 2)?;
    read_sector(tagged, b"k", 1, 5)
}

// How many tags wait once four reads are out, and after a sync that has to wait; and how many are out at the disks.
fn run(
    alloc: Global,
    tagged: &mut TaggedSession,
    seen: &mut Seen,
) -> Result<(usize, usize, usize), Fail> {
    prepare(alloc, tagged, seen)?;
    read_all(tagged)?;
    let waited = tagged.waiting();
    if !sync_waits(tagged) {
        return Err("a sync doesn't wait".into());
    }
    go(alloc, tagged, seen)?;
    let after = (waited, tagged.waiting(), seen.out.len());
    settle(alloc, tagged, seen)?;
    Ok(after)
}

// How many replies came, whether each has the bytes that its token stands for, and the first token.
fn told(replies: &[(u64, u64)]) -> (usize, bool, u64) {
    let right = replies.iter().all(|reply| reply.0 == reply.1);
    match replies.first() {
        Some(first) => (replies.len(), right, first.0),
        None => (0, right, 0),
    }
}

#[test]
fn each_reply_has_its_token(rt: HostRuntime) -> Result<(), Fail> {
    let mut tagged = begin(rt.alloc(), DISKS)?;
    let mut seen = none_seen(rt.alloc());
    let came = run(rt.alloc(), &mut tagged, &mut seen);
    let replies = told(&seen.replies);
    let left = tagged.waiting();
    drop(tagged);
    drop(seen);
    assert_same(&rt, came?, (4, 4, 2));
    // The disk that was asked last answered first.
    assert_same(&rt, replies, (4, true, 17));
    assert_same(&rt, left, 0);
    Ok(())
}

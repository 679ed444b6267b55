//! What a log says of disks: the bytes of one, and which answers failed.
use geo_base::{BioCmd, Block};
use geo_log::Log;
use geo_model::{DeviceResult, Entry, Outcome, Request, Step};
use std::alloc::Global;
use std::test::Fail;

/// The bytes of each sector of the disks.
const SECTOR: usize = 512;

// How many sectors of a request were done.
fn done_of(request: &Request, got: &DeviceResult) -> u32 {
    match got {
        DeviceResult::Failed { done } => *done,
        _ => request.count,
    }
}

// The bytes from the first sector on become those of a write.
fn write(bytes: &mut [u8], first: usize, with: &[u8]) -> Result<(), Fail> {
    if first > bytes.len() || with.len() > bytes.len() - first {
        return Err("a write past the disk".into());
    }
    bytes[first..first + with.len()].copy_from_slice(with);
    Ok(())
}

// So many bytes from the first sector on become zeros.
fn zero(bytes: &mut [u8], first: usize, count: usize) -> Result<(), Fail> {
    if first > bytes.len() || count > bytes.len() - first {
        return Err("a delete past the disk".into());
    }
    bytes[first..first + count].fill(0);
    Ok(())
}

// What an answered request makes of the bytes.
fn redo(bytes: &mut [u8], request: &Request, got: &DeviceResult) -> Result<(), Fail> {
    if request.first > 4096 || request.count > 4096 || done_of(request, got) > request.count {
        return Err("a request past each disk".into());
    }
    let first = request.first as usize * SECTOR;
    let count = done_of(request, got) as usize * SECTOR;
    match request.cmd {
        BioCmd::Write => {
            let with = request.bytes.bytes().get(..count).ok_or("few bytes")?;
            write(bytes, first, with)
        }
        BioCmd::Delete => zero(bytes, first, count),
        BioCmd::Read | BioCmd::Flush => Ok(()),
    }
}

// What two entries in a row make of the bytes: a request to the disk, and its answer.
fn replay(bytes: &mut [u8], disk: u32, asked: &Entry, answered: &Entry) -> Result<(), Fail> {
    match (&asked.outcome, &answered.step) {
        (Outcome::Asked(request), Step::Deliver { got, .. }) if request.disk == disk => {
            redo(bytes, request, got)
        }
        _ => Ok(()),
    }
}

// What a log makes of the bytes of a disk.
fn replay_all(bytes: &mut [u8], disk: u32, entries: &[Entry]) -> Result<(), Fail> {
    for pair in entries.windows(2) {
        if let [asked, answered] = pair {
            replay(bytes, disk, asked, answered)?;
        }
    }
    Ok(())
}

// The same of a log, if there is one.
fn replay_log(bytes: &mut [u8], disk: u32, log: &Option<Log>) -> Result<(), Fail> {
    match log {
        Some(log) => replay_all(bytes, disk, log.entries()),
        None => Ok(()),
    }
}

/// Whether a disk of zeros has these bytes after a log, if there is one, in which each request is answered at once.
pub fn has_contents(
    alloc: Global,
    log: &Option<Log>,
    disk: u32,
    size: u32,
    bytes: &[u8],
) -> Result<bool, Fail> {
    let mut block = Block::zeros(alloc, size)?;
    let replayed = replay_log(block.bytes_mut(), disk, log);
    let same = bytes == block.bytes();
    drop(block);
    replayed?;
    Ok(same)
}

/// The answers of disks that failed: how many they are, and how many sectors were done before.
#[derive(Clone, Copy, Debug, PartialEq, Eq)]
pub struct Failures {
    pub answers: u64,
    pub sectors: u64,
}

// Counts an entry that delivers a failure.
fn count(failures: &mut Failures, entry: &Entry) {
    if let Step::Deliver {
        got: DeviceResult::Failed { done },
        ..
    } = &entry.step
    {
        failures.answers = failures.answers.saturating_add(1);
        failures.sectors = failures.sectors.saturating_add(u64::from(*done));
    }
}

// The failures of the entries of a log.
fn failures_in(log: &Log) -> Failures {
    let mut failures = Failures {
        answers: 0,
        sectors: 0,
    };
    for entry in log.entries() {
        count(&mut failures, entry);
    }
    failures
}

/// The failures in a log, if there is one.
pub fn failures_of(log: &Option<Log>) -> Failures {
    match log {
        Some(log) => failures_in(log),
        None => Failures {
            answers: 0,
            sectors: 0,
        },
    }
}

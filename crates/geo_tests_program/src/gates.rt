//! What no clause says: that jobs run at the same time. A gate holds one job at a place until another one has come on,
//! and the other until the first stands there, so that neither speed nor schedule decides whether they meet. On one
//! thread the first that waits gives up, and the other then finds nobody.
//!
//! A worker that has no ticket yet ends once 100,000 of its turns were idle. Where a thread isn't run at all for that
//! long, it may come too late to meet another one, so a run that met nobody is tried again some times.
use crate::outside::{Outside, outside_of, run_threads_to_end, says};
use crate::scripts::{OPENS, OPENS_REPORT, TWO_DISKS, TWO_DISKS_REPORT};
use geo_run::{Gate, GatePlace};
use std::process::Abort;
use std::sync::Wait;
use std::sync::atomic::{AtomicBool, AtomicU32, Ordering};
use std::test::Fail;
use std::thread::{Threads, yield_now};

/// A wait at a gate is given up after so many turns.
const TURNS: u32 = 1_000_000;

/// So many runs are tried.
const TRIES: u32 = 3;

/// Where two jobs meet: whether the first stands at its place, whether the second has come to its own, how often the
/// second has come on, and whether it came on while the first stood.
#[derive(Drop)]
struct Meeting {
    stands: AtomicBool,
    came: AtomicBool,
    count: AtomicU32,
    met: AtomicBool,
}

impl Meeting {
    fn new() -> Meeting {
        Meeting {
            stands: AtomicBool::new(false),
            came: AtomicBool::new(false),
            count: AtomicU32::new(0),
            met: AtomicBool::new(false),
        }
    }

    // The first job stands at its place, the first time, until the second comes on.
    fn stand(&self) {
        let seen = self.count.load(Ordering::SeqCst);
        if self.stands.swap(true, Ordering::SeqCst) {
            return;
        }
        for _ in 0..TURNS {
            if self.count.load(Ordering::SeqCst) != seen {
                self.met.store(true, Ordering::SeqCst);
                return;
            }
            yield_now();
        }
    }

    // The second job waits, the first time, until the first stands at its place.
    fn wait(&self) {
        if self.came.swap(true, Ordering::SeqCst) {
            return;
        }
        for _ in 0..TURNS {
            if self.stands.load(Ordering::SeqCst) {
                return;
            }
            yield_now();
        }
    }

    // The second job has come on.
    fn come_on(&self) {
        self.count.fetch_add(1, Ordering::SeqCst);
    }

    fn met(&self) -> bool {
        self.met.load(Ordering::SeqCst)
    }
}

/// The disk worker 0 stands before its first call of a disk until the disk worker 1 has delivered.
#[derive(Drop)]
struct DeviceGate {
    meeting: Meeting,
}

impl Gate for DeviceGate {
    fn hold(&self, at: GatePlace) {
        match at {
            GatePlace::DiskCall { worker: 0, .. } => self.meeting.stand(),
            GatePlace::DiskCall { .. } => self.meeting.wait(),
            GatePlace::Delivered { worker: 1, .. } => self.meeting.come_on(),
            _ => {}
        }
    }
}

/// The client of the second actor stands behind its first line until that of the first actor has come to another line.
/// `line` is the last line of the first actor.
#[derive(Drop)]
struct LineGate {
    meeting: Meeting,
    line: AtomicU32,
}

impl LineGate {
    // The client of the first actor is behind this line.
    fn come_to(&self, line: u32) {
        if self.line.swap(line, Ordering::SeqCst) != line {
            self.meeting.come_on();
        }
        self.meeting.wait();
    }
}

impl Gate for LineGate {
    fn hold(&self, at: GatePlace) {
        match at {
            GatePlace::ClientNext { actor: 1, line } if line > 0 => self.meeting.stand(),
            GatePlace::ClientNext { actor: 0, line } if line > 0 => self.come_to(line),
            _ => {}
        }
    }
}

// A run in threads, held by the gate, tells what is due.
fn tells_of<R: Threads + Wait + Sync + AllocGlobal + Abort, G: Gate + Sync>(
    rt: &R,
    outside: &mut Outside,
    gate: &G,
    want: &[u8],
) -> Result<(), Fail> {
    let end = run_threads_to_end(rt, outside, gate).ok_or("no memory")?;
    assert_eq!(rt; (end.status, end.opened), (0, true));
    says(rt, outside, want, b"", 0);
    Ok(())
}

// The same of a script, whose outside is dropped then.
fn tells<R: Threads + Wait + Sync + AllocGlobal + Abort, G: Gate + Sync>(
    rt: &R,
    script: &[u8],
    gate: &G,
    want: &[u8],
) -> Result<(), Fail> {
    let mut outside = outside_of(rt.alloc(), script)?;
    let answer = tells_of(rt, &mut outside, gate, want);
    drop(outside);
    answer
}

// Whether the disk workers meet in a run.
fn disks_meet<R: Threads + Wait + Sync + AllocGlobal + Abort>(rt: &R) -> Result<bool, Fail> {
    let gate = DeviceGate {
        meeting: Meeting::new(),
    };
    tells(rt, TWO_DISKS, &gate, TWO_DISKS_REPORT)?;
    Ok(gate.meeting.met())
}

#[test]
fn a_disk_delivers_while_another_is_called(rt: HostRuntime) -> Result<(), Fail> {
    for _ in 0..TRIES {
        if disks_meet(&rt)? {
            return Ok(());
        }
    }
    Err("the disk workers never met".into())
}

// Whether the clients meet in a run.
fn clients_meet<R: Threads + Wait + Sync + AllocGlobal + Abort>(rt: &R) -> Result<bool, Fail> {
    let gate = LineGate {
        meeting: Meeting::new(),
        line: AtomicU32::new(0),
    };
    tells(rt, OPENS, &gate, OPENS_REPORT)?;
    Ok(gate.meeting.met())
}

#[test]
fn an_actor_goes_on_while_another_stands(rt: HostRuntime) -> Result<(), Fail> {
    for _ in 0..TRIES {
        if clients_meet(&rt)? {
            return Ok(());
        }
    }
    Err("the clients never met".into())
}

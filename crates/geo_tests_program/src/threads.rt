//! What no clause says: runs in threads whose source, sink or shelf fails, and actors whose replies are the same in
//! each run, whatever becomes of others.
use crate::faults::{CUT, UNREAD, fail_shelf, fail_sink, fail_source};
use crate::outside::{Outside, behind, outside_of, run_threads_to_end, says};
use crate::scripts::{FOUR, FOUR_FRONT, WRITERS, WRITERS_REPORT};
use crate::users::{DONE, Left, Users, fronts, set_up};
use geo_run::OpenGate;
use std::process::Abort;
use std::sync::Wait;
use std::test::Fail;
use std::thread::Threads;

/// What fails in a run: one call of the source or of the sink, or calls of the shelf.
#[derive(Clone, Copy)]
enum Fault {
    Source(u64),
    Sink(u64),
    Shelf(&'static [u64]),
}

/// A run with a fault, what it leaves, and what it writes in two parts.
#[derive(Clone, Copy)]
struct Case {
    fault: Fault,
    left: Left,
    front: &'static [u8],
    told: &'static [u8],
}

/// A run whose shelf failed before the mesh opened.
const UNLENT: Left = Left {
    status: 5,
    opened: false,
    disks: [Some(0), Some(0)],
};

/// A run whose shelf failed to take the first disk back.
const KEPT: Left = Left {
    status: 5,
    opened: true,
    disks: [None, Some(0x22)],
};

const CASES: [Case; 5] = [
    Case {
        fault: Fault::Source(2),
        left: UNREAD,
        front: b"read fault\n",
        told: b"",
    },
    // The sink takes 10 bytes a call.
    Case {
        fault: Fault::Sink(2),
        left: CUT,
        front: b"5 ok\n6 ok\n",
        told: b"",
    },
    // The calls of the shelf are the two takes and then the two gives.
    Case {
        fault: Fault::Shelf(&[2]),
        left: UNLENT,
        front: b"",
        told: b"shelf fault ada1\n",
    },
    Case {
        fault: Fault::Shelf(&[3]),
        left: KEPT,
        front: WRITERS_REPORT,
        told: b"shelf fault ada0\n",
    },
    Case {
        fault: Fault::Shelf(&[5]),
        left: DONE,
        front: WRITERS_REPORT,
        told: b"",
    },
];

// From now on this fails.
fn fail(users: &mut Users, fault: &Fault) -> Result<(), Fail> {
    match fault {
        Fault::Source(call) => fail_source(users, WRITERS, *call),
        Fault::Sink(call) => fail_sink(users, *call),
        Fault::Shelf(calls) => fail_shelf(users, calls),
    }
}

// What a run in threads leaves.
fn run_users<R: Threads + Wait + Sync + AllocGlobal>(
    rt: &R,
    users: &mut Users,
) -> Result<Left, Fail> {
    let end = run_threads_to_end(rt, &mut users.outside, &OpenGate).ok_or("no memory")?;
    Ok(Left {
        status: end.status,
        opened: end.opened,
        disks: fronts(users)?,
    })
}

// A run with a fault leaves and writes what is due.
fn ends_of<R: Threads + Wait + Sync + AllocGlobal + Abort>(
    rt: &R,
    users: &mut Users,
    case: &Case,
    number: u64,
) -> Result<(), Fail> {
    fail(users, &case.fault)?;
    let left = run_users(rt, users)?;
    assert_eq!(rt; left, case.left, "case {number}");
    says(rt, &users.outside, case.front, case.told, number);
    Ok(())
}

// The same of users that are dropped then.
fn ends<R: Threads + Wait + Sync + AllocGlobal + Abort>(
    rt: &R,
    case: &Case,
    number: u64,
) -> Result<(), Fail> {
    let mut users = set_up(rt.alloc(), WRITERS)?;
    let answer = ends_of(rt, &mut users, case, number);
    drop(users);
    answer
}

#[test]
fn each_fault_beside_threads_is_told(rt: HostRuntime) -> Result<(), Fail> {
    for (number, case) in CASES.iter().enumerate() {
        ends(&rt, case, number as u64)?;
    }
    Ok(())
}

// A run of four actors replies to those of the first disk what is due.
fn replies_of<R: Threads + Wait + Sync + AllocGlobal + Abort>(
    rt: &R,
    outside: &mut Outside,
) -> Result<(), Fail> {
    let end = run_threads_to_end(rt, outside, &OpenGate).ok_or("no memory")?;
    assert_eq!(rt; (end.status, end.opened), (0, true));
    assert!(rt; behind(outside.sink.written(), FOUR_FRONT).is_some());
    Ok(())
}

// The same of an outside that is dropped then.
fn replies<R: Threads + Wait + Sync + AllocGlobal + Abort>(rt: &R) -> Result<(), Fail> {
    let mut outside = outside_of(rt.alloc(), FOUR)?;
    let answer = replies_of(rt, &mut outside);
    drop(outside);
    answer
}

#[test]
fn actors_of_one_disk_have_the_same_replies_whatever_becomes_of_another_disk(
    rt: HostRuntime,
) -> Result<(), Fail> {
    replies(&rt)?;
    replies(&rt)
}

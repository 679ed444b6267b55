//! What no clause says: runs whose log has room for few entries are told so, and give their disks back. In the program
//! a log has room for 2^32, so they come to their end; `tests/full` makes the room small, and runs these tests again.
use crate::outside::{End, run_threads_to_end, run_to_end, says};
use crate::scripts::{WRITERS, WRITERS_REPORT};
use crate::users::{Users, set_up};
use geo_base::MAX_LOG_ENTRIES;
use geo_run::OpenGate;
use std::process::Abort;
use std::sync::Wait;
use std::test::Fail;
use std::thread::Threads;

/// More entries than the log of the script has.
const PLENTY: u64 = 1000;

// A run that opened its mesh says what is due: its report, or that the log is full. Both disks are back.
fn is_due(rt: &impl Abort, users: &Users, end: &End) {
    let (status, text) = if MAX_LOG_ENTRIES < PLENTY {
        (7, b"log full\n".as_slice())
    } else {
        (0, WRITERS_REPORT)
    };
    assert_eq!(rt; (end.status, end.opened), (status, true));
    says(rt, &users.outside, text, b"", 0);
    for name in &users.names {
        assert!(rt; users.outside.shelf.bytes_of(name).is_some());
    }
}

// A run in the fixed order, over users that are dropped then.
fn ends_alone(rt: &impl Abort, mut users: Users) -> Result<(), Fail> {
    let end = run_to_end(rt, users.alloc, &mut users.outside);
    match &end {
        Some(end) => is_due(rt, &users, end),
        None => panic!(rt; "no memory"),
    }
    drop(users);
    Ok(())
}

// The same in threads.
fn ends_in_threads<R: Threads + Wait + Sync + AllocGlobal + Abort>(
    rt: &R,
    mut users: Users,
) -> Result<(), Fail> {
    let end = run_threads_to_end(rt, &mut users.outside, &OpenGate);
    match &end {
        Some(end) => is_due(rt, &users, end),
        None => panic!(rt; "no memory"),
    }
    drop(users);
    Ok(())
}

#[test]
fn a_run_whose_log_is_full_is_told_so(rt: HostRuntime) -> Result<(), Fail> {
    ends_alone(&rt, set_up(rt.alloc(), WRITERS)?)
}

#[test]
fn jobs_whose_log_is_full_are_told_so(rt: HostRuntime) -> Result<(), Fail> {
    ends_in_threads(&rt, set_up(rt.alloc(), WRITERS)?)
}

//! What no clause says: a run in threads that show the mesh ends well where there is memory.
use crate::outside::{Outside, outside_of, says, watch};
use crate::scripts::{UNLISTED, UNLISTED_REPORT, UNLISTED_VIEW};
use std::process::Abort;
use std::sync::Wait;
use std::test::Fail;
use std::thread::Threads;

// The mesh as it was shown last stands behind the report.
fn is_shown<R: Threads + Wait + Sync + AllocGlobal + Abort>(
    rt: &R,
    outside: &mut Outside,
) -> Result<(), Fail> {
    let Some(ended) = watch(rt, outside) else {
        return Err("no memory".into());
    };
    assert_eq!(rt; ended.status, 0);
    drop(ended);
    says(rt, outside, UNLISTED_REPORT, UNLISTED_VIEW, 0);
    Ok(())
}

// The same of the script.
fn is_watched<R: Threads + Wait + Sync + AllocGlobal + Abort>(rt: &R) -> Result<(), Fail> {
    let Ok(mut outside) = outside_of(rt.alloc(), UNLISTED) else {
        return Err("no memory".into());
    };
    let answer = is_shown(rt, &mut outside);
    drop(outside);
    answer
}

#[test]
fn the_mesh_stands_behind_the_report_as_it_was_shown_last(rt: HostRuntime) -> Result<(), Fail> {
    is_watched(&rt)
}

//! Turns on a tally: alone, and from two threads.
ghost use Rattle.geo_lock.specs.Pass.{IsSamePass};
ghost use Rattle.geo_lock.specs.Yard.{IsPassOf};

use crate::same::assert_same;
use geo_lock::{Added, Pass, PassList, Tally, TallyRefusal, Yard};
use std::alloc::Global;
use std::sync::Wait;
use std::test::Fail;
use std::thread::{Threads, join};

// Adds 100 numbers, from `base` on.
fn add_all<R: Wait>(rt: &R, yard: &Yard<Tally>, mut pass: Pass<Tally>, base: u32) -> Pass<Tally>
    requires { IsPassOf yard.now pass }
    ensures { IsSamePass pass result }
{
    for i in 0..100u32 {
        let _ = yard.apply(rt, &mut pass, u64::from(base) + u64::from(i));
    }
    pass
}

fn add_in_two<R: Threads + Wait + Sync + AllocGlobal>(rt: &R) -> Option<Tally> {
    let alloc: Global = rt.alloc();
    let Ok((yard, mut first)) = Yard::create(rt, Tally::new(alloc)) else {
        return None;
    };
    let mut passes = PassList::new(alloc);
    passes.reserve(2).ok()?;
    let second = yard.split(&mut first);
    let (first, second) = join(
        rt,
        || -> Pass<Tally>
            requires { IsPassOf yard first }
            ensures { IsSamePass first result }
        { add_all(rt, &yard, first, 1) },
        || -> Pass<Tally>
            requires { IsPassOf yard second }
            ensures { IsSamePass second result }
        { add_all(rt, &yard, second, 1001) },
    );
    passes.push(first);
    passes.push(second);
    yard.close(rt, passes).ok()
}

// Are the seat's entries the numbers from `base` on, in order?
fn is_counted(log: &[Added], seat: u32, base: u64) -> bool {
    let mut next = base;
    for entry in log {
        if entry.seat == seat {
            if entry.added != next {
                return false;
            }
            next = next.wrapping_add(1);
        }
    }
    next == base.wrapping_add(100)
}

#[test]
fn two_threads_add_in_their_own_order(rt: HostRuntime) -> Result<(), Fail> {
    let Some(tally) = add_in_two(&rt) else {
        panic!(rt; "memory")
    };
    let log = tally.log();
    assert_eq!(rt; log.len(), 200);
    assert!(rt; is_counted(log, 0, 1), "the first thread");
    assert!(rt; is_counted(log, 1, 1001), "the second thread");
    assert_same(&rt, log[199].sum, 5_050 + 105_050);
    Ok(())
}

#[test]
fn one_pass_adds_and_is_refused(rt: HostRuntime) -> Result<(), Fail> {
    let alloc: Global = rt.alloc();
    let Ok((yard, mut pass)) = Yard::create(&rt, Tally::new(alloc)) else {
        panic!(rt; "memory")
    };
    assert_same(&rt, pass.number(), 0);
    assert!(rt; matches!(yard.apply(&rt, &mut pass, u64::MAX - 1), Ok(sum) if sum == u64::MAX - 1));
    assert!(rt; matches!(yard.apply(&rt, &mut pass, 2), Err(TallyRefusal::Full)));
    assert!(rt; matches!(yard.apply(&rt, &mut pass, 1), Ok(u64::MAX)));
    let mut passes = PassList::new(alloc);
    passes.reserve(1)?;
    passes.push(pass);
    let Ok(tally) = yard.close(&rt, passes) else {
        panic!(rt; "memory")
    };
    assert_same(&rt, tally.log().len(), 2);
    Ok(())
}

#[test]
fn a_split_pass_has_the_next_number(rt: HostRuntime) -> Result<(), Fail> {
    let alloc: Global = rt.alloc();
    let Ok((yard, mut first)) = Yard::create(&rt, Tally::new(alloc)) else {
        panic!(rt; "memory")
    };
    let second = yard.split(&mut first);
    let third = yard.split(&mut first);
    assert_same(&rt, (second.number(), third.number()), (1, 2));
    Ok(())
}

//! What no clause says: that there is memory, the table at concrete types, and that past values cost nothing.
use crate::same::assert_same;
use geo_slots::Slots;
use std::alloc::{AllocError, Global};

// A table of this many values, of which every other one was removed: those of the even numbers are left.
fn half_removed(alloc: Global, count: u64) -> Result<Slots<u64>, AllocError> {
    let mut table: Slots<u64> = Slots::new(alloc);
    for value in 0..count {
        table.reserve(1)?;
        table.insert(value);
    }
    for number in 0..count {
        if number % 2 == 1 {
            let _ = table.remove(number);
        }
    }
    Ok(table)
}

// How many values are met on a walk in order of the numbers, and the last number.
fn walk(table: &Slots<u64>, count: u64) -> (u64, u64) {
    let mut met = 0u64;
    let mut last = 0u64;
    for _ in 0..count {
        if let Some(number) = table.first_from(last.saturating_add(1)) {
            met = met.saturating_add(1);
            last = number;
        }
    }
    (met, last)
}

#[test]
fn every_other_of_a_hundred_thousand_is_removed(rt: HostRuntime) {
    let mut table = half_removed(rt.alloc(), 100_000).expect(&rt, "memory");
    assert_same(&rt, walk(&table, 100_000), (50_000, 100_000));
    assert_same(&rt, table.get(99_999).copied(), None);
    assert_same(&rt, table.get(100_000).copied(), Some(99_999));
    table.reserve(1).expect(&rt, "memory");
    assert_same(&rt, table.insert(7), 100_001);
}

// A table that gave out this many numbers more than the first, of which the first alone kept its value.
fn first_kept(alloc: Global, count: u64) -> Result<Slots<u64>, AllocError> {
    let mut table: Slots<u64> = Slots::new(alloc);
    table.reserve(1)?;
    table.insert(7);
    for value in 0..count {
        table.reserve(1)?;
        let number = table.insert(value);
        let _ = table.remove(number);
    }
    Ok(table)
}

#[test]
fn many_numbers_are_given_out_behind_one_that_stays(rt: HostRuntime) {
    let mut table = first_kept(rt.alloc(), 200_000).expect(&rt, "memory");
    assert_same(&rt, table.get(1).copied(), Some(7));
    assert_same(&rt, walk(&table, 1_000), (1, 1));
    assert_same(&rt, table.get(200_000).copied(), None);
    assert_same(&rt, table.next_number(), 200_002);
    assert_same(&rt, table.remove(1), Some(7));
    assert_same(&rt, table.first_from(0), None);
}

#[test]
fn a_value_that_is_text_is_changed_and_taken_out(rt: HostRuntime) {
    let mut table: Slots<String> = Slots::new(rt.alloc());
    table.reserve(2).expect(&rt, "memory");
    let first = table.insert(String::from_str(rt.alloc(), "ada0").expect(&rt, "memory"));
    let second = table.insert(String::from_str(rt.alloc(), "ada1").expect(&rt, "memory"));
    assert_same(&rt, (first, second), (1, 2));
    if let Some(name) = table.get_mut(first) {
        name.push_str("s1").expect(&rt, "memory");
    }
    let taken = table.remove(first).expect(&rt, "a value");
    assert_same(&rt, taken.as_str(), "ada0s1");
    assert!(rt; table.remove(first).is_none());
    assert_same(&rt, table.first_from(0), Some(2));
}

// A table goes to another thread where its values may.
fn goes_to_another_thread<T: Send>(_value: &T) {}

#[test]
fn a_table_may_be_sent(rt: HostRuntime) {
    let table: Slots<u64> = Slots::new(rt.alloc());
    goes_to_another_thread(&table);
    assert_same(&rt, table.first_from(0), None);
}

//! What no clause says: that there is memory, and handles of actors at concrete names.
use crate::same::assert_same;
use geo_base::{ConsId, Counts, HandleId, Name};
use geo_handles::Handles;
use std::test::Fail;

const READS: Counts = Counts { r: 1, w: 0, e: 0 };

// The name of these bytes.
fn name(bytes: &[u8]) -> Result<Name, Fail> {
    Ok(Name::new(bytes).ok().ok_or("not a name")?)
}

// A handle of the actor, under a name that is free and for a consumer that is nobody's.
fn opened(handles: &mut Handles, actor: u32, name: &Name, consumer: u64) -> Result<HandleId, Fail> {
    handles.reserve(1)?;
    let consumer = ConsId::new(consumer);
    let None = handles.by_name(actor, name) else {
        return Err("the name is taken".into());
    };
    let None = handles.of_consumer(consumer) else {
        return Err("the consumer has a handle".into());
    };
    Ok(handles.open(actor, name, consumer, READS))
}

// Two actors have a handle of one name; that of the first is closed. What is found then, by name and by consumer.
fn one_name_of_two_actors(handles: &mut Handles) -> Result<[Option<HandleId>; 4], Fail> {
    let h = name(b"h")?;
    let first = opened(handles, 0, &h, 7)?;
    opened(handles, 1, &h, 8)?;
    handles.remove(first);
    Ok([
        handles.by_name(0, &h),
        handles.by_name(1, &h),
        handles.of_consumer(ConsId::new(7)),
        handles.of_consumer(ConsId::new(8)),
    ])
}

#[test]
fn handle_names_belong_to_their_actor(rt: HostRuntime) -> Result<(), Fail> {
    let mut handles = Handles::new(rt.alloc())?;
    let second = Some(HandleId::new(2));
    assert_same(
        &rt,
        one_name_of_two_actors(&mut handles)?,
        [None, second, None, second],
    );
    Ok(())
}

// Notes that the handle of a number can be reaped, if it stands.
fn note(handles: &mut Handles, id: u64) {
    let id = HandleId::new(id);
    if handles.get(id).is_some() {
        handles.set_ready(id, true);
    }
}

// Three handles, of which the last and then the second can be reaped. The first of them, before and after it is reaped.
fn two_to_reap(handles: &mut Handles) -> Result<[Option<HandleId>; 2], Fail> {
    for consumer in 1..4u64 {
        opened(handles, consumer as u32, &name(b"h")?, consumer)?;
    }
    handles.kill(ConsId::new(3));
    note(handles, 3);
    handles.kill(ConsId::new(2));
    note(handles, 2);
    let before = handles.first_ready();
    handles.release(ConsId::new(2));
    handles.remove(HandleId::new(2));
    Ok([before, handles.first_ready()])
}

#[test]
fn the_smallest_is_reaped_first(rt: HostRuntime) -> Result<(), Fail> {
    let mut handles = Handles::new(rt.alloc())?;
    let reaped = [Some(HandleId::new(2)), Some(HandleId::new(3))];
    assert_same(&rt, two_to_reap(&mut handles)?, reaped);
    Ok(())
}

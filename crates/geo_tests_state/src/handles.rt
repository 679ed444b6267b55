//! What no clause says: that there is memory, and handles that another actor doesn't find, that can be reaped no more,
//! and for which there is no room.
use crate::same::assert_same;
use geo_base::{ConsId, Counts, HandleId, Name};
use geo_handles::Handles;
use std::test::Fail;

const READS: Counts = Counts { r: 1, w: 0, e: 0 };

/// The name of these bytes.
pub fn name(bytes: &[u8]) -> Result<Name, Fail> {
    Ok(Name::new(bytes).ok().ok_or("not a name")?)
}

// A handle of the actor, under a name that is free and for a consumer that is nobody's, in room that was kept.
fn open(handles: &mut Handles, actor: u32, name: &Name, consumer: u64) -> Result<u64, Fail> {
    handles.reserve(1)?;
    let consumer = ConsId::new(consumer);
    let None = handles.by_name(actor, name) else {
        return Err("the name is taken".into());
    };
    let None = handles.of_consumer(consumer) else {
        return Err("the consumer has a handle".into());
    };
    Ok(handles.open(actor, name, consumer, READS).number())
}

// The number, 0 where there is none.
fn number(handle: Option<HandleId>) -> u64 {
    match handle {
        Some(handle) => handle.number(),
        None => 0,
    }
}

// What the actors 0, 1 and 2 find under a name.
fn found(handles: &Handles, name: &Name) -> [u64; 3] {
    [
        number(handles.by_name(0, name)),
        number(handles.by_name(1, name)),
        number(handles.by_name(2, name)),
    ]
}

// Each of two actors has a handle of a name that the other one doesn't have. Who finds which.
fn two_names(handles: &mut Handles) -> Result<[[u64; 3]; 2], Fail> {
    let (ours, theirs) = (name(b"ours")?, name(b"theirs")?);
    open(handles, 0, &ours, 7)?;
    open(handles, 1, &theirs, 8)?;
    Ok([found(handles, &ours), found(handles, &theirs)])
}

#[test]
fn no_handle_of_another_actor_is_found(rt: HostRuntime) -> Result<(), Fail> {
    let mut handles = Handles::new(rt.alloc())?;
    assert_same(&rt, two_names(&mut handles)?, [[1, 0, 0], [0, 2, 0]]);
    Ok(())
}

// The first handle that can be reaped, once this was noted of the one of a number, if it stands.
fn noted(handles: &mut Handles, id: u64, ready: bool) -> u64 {
    let id = HandleId::new(id);
    if handles.get(id).is_some() {
        handles.set_ready(id, ready);
    }
    number(handles.first_ready())
}

// Of two handles both can be reaped, then the second alone, then none, and then the first.
fn on_and_off(handles: &mut Handles) -> Result<[u64; 5], Fail> {
    let name = name(b"h")?;
    open(handles, 0, &name, 7)?;
    open(handles, 1, &name, 8)?;
    Ok([
        noted(handles, 2, true),
        noted(handles, 1, true),
        noted(handles, 1, false),
        noted(handles, 2, false),
        noted(handles, 1, true),
    ])
}

#[test]
fn a_handle_is_ready_for_as_long_as_it_is_noted(rt: HostRuntime) -> Result<(), Fail> {
    let mut handles = Handles::new(rt.alloc())?;
    assert_same(&rt, on_and_off(&mut handles)?, [2, 1, 2, 0, 1]);
    Ok(())
}

// Room for more than there can be is refused, after a handle was opened and while there is room for one more. How many
// there are then, what is found, and the number of the one more.
fn refused(handles: &mut Handles) -> Result<(u64, [u64; 3], u64), Fail> {
    let (ours, theirs) = (name(b"ours")?, name(b"theirs")?);
    handles.reserve(2)?;
    open(handles, 0, &ours, 7)?;
    let Err(_) = handles.reserve(u64::MAX) else {
        return Err("there is room".into());
    };
    let count = handles.len();
    let found = found(handles, &ours);
    Ok((count, found, open(handles, 1, &theirs, 8)?))
}

#[test]
fn handles_stay_where_memory_is_wanting(rt: HostRuntime) -> Result<(), Fail> {
    let mut handles = Handles::new(rt.alloc())?;
    assert_same(&rt, refused(&mut handles)?, (1, [1, 0, 0], 2));
    Ok(())
}

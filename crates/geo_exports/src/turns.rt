//! Turns of a live mesh, and what disks answer.
ghost use Rattle.std.specs.Prelude.{◌≡◌, ◌<◌, ◌≤◌, length};
ghost use Rattle.geo_base.specs.declared.limits.TheConstants.{MAX_REQUEST_BYTES};
ghost use Rattle.geo_model.specs.declared.step.DeviceResult.TheVariants as results;
ghost use Rattle.geo_exports.specs.Calls.{Answered, AnsweredBytes, Answers, HasNoRoom, Turned, Turns, generation_in, steps_in, waiting_in};
ghost use Rattle.geo_exports.specs.Held.{mesh_in};

use crate::codes::{CLOSED, NO_MEMORY, OK, ROOM, UNFIT};
use crate::event::{IDLE, TzbEvent, bytes_of, copy_to, event_of, plain};
use crate::held::TzbCore;
use geo_base::{BioId, Block, MAX_REQUEST_BYTES, SharedBytes};
use geo_model::DeviceResult;
use geo_tags::TaggedSession;
use std::alloc::Global;

// Makes the step that is due.
fn turn(session: &mut TaggedSession, event: &mut TzbEvent, bytes: &mut [u8]) -> i32
    ensures { Turns result event.new bytes.old bytes.new session.old session.new }
{
    match session.next() {
        Ok(due) => {
            *event = event_of(&due);
            copy_to(bytes_of(&due), bytes);
            drop(due);
            OK
        }
        Err(_) => {
            *event = plain(IDLE);
            NO_MEMORY
        }
    }
}

/// Makes the step that is due, and says what is due then.
#[unsafe(no_mangle)]
pub extern "C" fn tzb_core_next(
    alloc: Global,
    core: &mut TzbCore,
    event: &mut TzbEvent,
    bytes: &mut [u8],
) -> i32
    ensures turned { MAX_REQUEST_BYTES ≤ length bytes.old
        → Turned result event.new bytes.old bytes.new (mesh_in core.old) (mesh_in core.new) }
    ensures room { length bytes.old < MAX_REQUEST_BYTES
        → HasNoRoom result event.new bytes.old bytes.new (mesh_in core.old) (mesh_in core.new) }
{
    *event = plain(IDLE);
    if (bytes.len() as u64) < MAX_REQUEST_BYTES {
        return ROOM;
    }
    let Some(mut session) = core.take(alloc) else {
        return CLOSED;
    };
    let code = turn(&mut session, event, bytes);
    core.put(alloc, session);
    code
}

// Delivers an answer to a live mesh.
fn deliver(session: &mut TaggedSession, bio: u64, got: DeviceResult) -> i32
    ensures { Answers result session.old session.new bio got }
{
    match session.answer(BioId::new(bio), got) {
        Ok(()) => OK,
        Err(_) => UNFIT,
    }
}

// Delivers an answer to what a handle holds.
fn answer(alloc: Global, core: &mut TzbCore, bio: u64, got: DeviceResult) -> i32
    ensures { Answered result (mesh_in core.old) (mesh_in core.new) bio got }
{
    let Some(mut session) = core.take(alloc) else {
        drop(got);
        return CLOSED;
    };
    let code = deliver(&mut session, bio, got);
    core.put(alloc, session);
    code
}

/// The disk gave these bytes, which it was asked to read.
#[unsafe(no_mangle)]
pub extern "C" fn tzb_core_answer_bytes(
    alloc: Global,
    core: &mut TzbCore,
    bio: u64,
    bytes: &[u8],
) -> i32
    ensures { AnsweredBytes result (mesh_in core.old) (mesh_in core.new) bio (results.Bytes bytes.now) }
{
    let Ok(block) = Block::from_slice(alloc, bytes) else {
        return NO_MEMORY;
    };
    let got = SharedBytes::from_block(block).share(alloc);
    answer(alloc, core, bio, DeviceResult::Bytes(got))
}

/// The disk did what it was asked to write, delete or flush.
#[unsafe(no_mangle)]
pub extern "C" fn tzb_core_answer_done(alloc: Global, core: &mut TzbCore, bio: u64) -> i32
    ensures { Answered result (mesh_in core.old) (mesh_in core.new) bio results.Done }
{
    answer(alloc, core, bio, DeviceResult::Done)
}

/// The disk failed after it had done so many sectors.
#[unsafe(no_mangle)]
pub extern "C" fn tzb_core_answer_failed(
    alloc: Global,
    core: &mut TzbCore,
    bio: u64,
    done: u32,
) -> i32
    ensures { Answered result (mesh_in core.old) (mesh_in core.new) bio (results.Failed done) }
{
    answer(alloc, core, bio, DeviceResult::Failed { done })
}

/// How many requests wait for their reply.
#[unsafe(no_mangle)]
pub extern "C" fn tzb_core_waiting(alloc: Global, core: &mut TzbCore) -> u64
    ensures waiting { result ≡ waiting_in (mesh_in core.old) }
    ensures same { mesh_in core.new ≡ mesh_in core.old }
{
    let Some(session) = core.take(alloc) else {
        return 0;
    };
    let count = session.waiting() as u64;
    core.put(alloc, session);
    count
}

/// How many steps were made.
#[unsafe(no_mangle)]
pub extern "C" fn tzb_core_steps(alloc: Global, core: &mut TzbCore) -> u64
    ensures steps { result ≡ steps_in (mesh_in core.old) }
    ensures same { mesh_in core.new ≡ mesh_in core.old }
{
    let Some(session) = core.take(alloc) else {
        return 0;
    };
    let count = session.session().steps();
    core.put(alloc, session);
    count
}

/// How many of the steps were of the graph.
#[unsafe(no_mangle)]
pub extern "C" fn tzb_core_generation(alloc: Global, core: &mut TzbCore) -> u64
    ensures generation { result ≡ generation_in (mesh_in core.old) }
    ensures same { mesh_in core.new ≡ mesh_in core.old }
{
    let Some(session) = core.take(alloc) else {
        return 0;
    };
    let count = session.session().generation();
    core.put(alloc, session);
    count
}

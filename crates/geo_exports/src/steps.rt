//! The step that is due, for whoever writes the trace of a live mesh.
ghost use Rattle.std.specs.Prelude.{◌≡◌};
ghost use Rattle.geo_exports.specs.Held.{mesh_in};
ghost use Rattle.geo_exports.specs.Steps.{TellsDue, due_told, step_told, step_with};

use crate::codes::{CLOSED, OK};
use crate::held::TzbCore;
use geo_model::Step;
use std::alloc::Global;

/// No step is due.
pub const NO_STEP: u32 = 0;

/// A bio that is done goes up.
pub const UP: u32 = 1;

/// A disk takes a bio.
pub const TAKE: u32 = 2;

/// A bio begins its way down.
pub const START: u32 = 3;

/// The taste under way goes on.
pub const JUDGE: u32 = 4;

/// The oldest event is done.
pub const EVENT: u32 = 5;

/// A dead handle is let go.
pub const REAP: u32 = 6;

/// A part of a withering geom goes.
pub const WASH: u32 = 7;

/// An actor's command is done. It is made when it is given, and none is due.
pub const GO: u32 = 8;

/// A disk answers. It is made when the disk does, and none is due.
pub const DELIVER: u32 = 9;

/// A step. Fields that the kind doesn't speak of are 0.
#[repr(C)]
#[derive(Clone, Copy)]
pub struct TzbStep {
    pub kind: u32,
    /// The place in the header of the disk of a TAKE, or of the actor of a GO.
    pub place: u32,
    /// Of an UP, a TAKE, a START and a DELIVER.
    pub bio: u64,
}

fn step_with(kind: u32, place: u32, bio: u64) -> TzbStep
    ensures { result ≡ step_with kind place bio }
{
    TzbStep { kind, place, bio }
}

fn step_told(step: &Step) -> TzbStep
    ensures { result ≡ step_told step.now }
{
    match step {
        Step::Go { actor } => step_with(GO, *actor, 0),
        Step::Event => step_with(EVENT, 0, 0),
        Step::Judge => step_with(JUDGE, 0, 0),
        Step::Reap => step_with(REAP, 0, 0),
        Step::Wash => step_with(WASH, 0, 0),
        Step::Start { bio } => step_with(START, 0, bio.number()),
        Step::Take { disk, bio } => step_with(TAKE, *disk, bio.number()),
        Step::Deliver { bio, .. } => step_with(DELIVER, 0, bio.number()),
        Step::Up { bio } => step_with(UP, 0, bio.number()),
    }
}

// The same where a step is due.
fn due_told(due: &Option<Step>) -> TzbStep
    ensures { result ≡ due_told due.now }
{
    match due {
        Some(step) => step_told(step),
        None => step_with(NO_STEP, 0, 0),
    }
}

/// The step that the next turn makes. Nothing is made.
#[unsafe(no_mangle)]
pub extern "C" fn tzb_core_due(alloc: Global, core: &mut TzbCore, step: &mut TzbStep) -> i32
    ensures told { TellsDue result step.new (mesh_in core.old) }
    ensures same { mesh_in core.new ≡ mesh_in core.old }
{
    *step = step_with(NO_STEP, 0, 0);
    let Some(session) = core.take(alloc) else {
        return CLOSED;
    };
    let due = session.session().pick();
    *step = due_told(&due);
    drop(due);
    core.put(alloc, session);
    OK
}

//! The steps of a trace are made again.
ghost use Rattle.std.specs.Prelude.{◌≡◌, [], ◌<◌, ◌≤◌, ◌+◌, ◌^◌, length, IfOk, MatchResult};
ghost use Rattle.geo_base.specs.declared.limits.TheConstants.{MAX_TRACE_BYTES};
ghost use Rattle.geo_core.specs.Mesh.{IsHistory};
ghost use Rattle.geo_verify.specs.Forms.{IsFormFault, IsLineFault, steps_from};
ghost use Rattle.geo_verify.specs.Making.{MakesFront, Tries, TriesLine};
ghost use Rattle.geo_verify.specs.Shorts.{step_of};

use crate::cut::ended_line;
use crate::place::Place;
use crate::refusal::VerifyRefusal;
use crate::short::{Short, short_of_line, step_of};
use crate::steps::{REPORT_MARK, read_step};
use geo_base::NoMemory;
use geo_core::{ApplyRefusal, Mesh};
use geo_model::{DeviceResult, Step};
use geo_pool::Pool;
use std::alloc::Global;

/// The same answer, whose bytes share the memory of those in the pool, if these begin with them.
fn pooled_answer(pool: &mut Pool, got: DeviceResult) -> DeviceResult
    ensures { result ≡ got }
{
    match got {
        DeviceResult::Bytes(bytes) => DeviceResult::Bytes(pool.once(bytes)),
        other => other,
    }
}

/// The same step, with its bytes in the pool.
fn pooled(pool: &mut Pool, step: Step) -> Step
    ensures { result ≡ step }
{
    match step {
        Step::Deliver { bio, got } => Step::Deliver {
            bio,
            got: pooled_answer(pool, got),
        },
        other => other,
    }
}

/// Makes a step, if it is enabled, and tells whether it was.
fn try_step(mesh: &mut Mesh, seat: u32, step: Step) -> Result<bool, NoMemory>
    requires history { IsHistory mesh.old }
    requires few { length mesh.old.log ≤ MAX_TRACE_BYTES + 1 }
    ensures made { IfOk result (λ was. Tries was mesh.old mesh.new seat step) }
    ensures history { IsHistory mesh.new }
{
    match mesh.make(seat, step) {
        Ok(()) => Ok(true),
        Err(ApplyRefusal::NotEnabled { .. }) => Ok(false),
        Err(ApplyRefusal::LogFull) => unreachable!(),
        Err(ApplyRefusal::NoMemory) => Err(NoMemory),
    }
}

/// The same of a step of a short form.
fn try_short(mesh: &mut Mesh, seat: u32, short: Short) -> Result<bool, NoMemory>
    requires history { IsHistory mesh.old }
    requires few { length mesh.old.log ≤ MAX_TRACE_BYTES + 1 }
    ensures made { IfOk result (λ was. Tries was mesh.old mesh.new seat (step_of short)) }
    ensures history { IsHistory mesh.new }
{
    try_step(mesh, seat, step_of(short))
}

/// Reads the line of a number and makes its step, if it is enabled, and tells whether it was.
fn try_line(
    alloc: Global,
    mesh: &mut Mesh,
    pool: &mut Pool,
    number: u32,
    line: &[u8],
) -> Result<bool, VerifyRefusal>
    requires short { length line.now < 2 ^ 32 }
    requires history { IsHistory mesh.old }
    requires few { length mesh.old.log ≤ MAX_TRACE_BYTES + 1 }
    ensures made { MatchResult result (λ was. TriesLine was mesh.old mesh.new line.now) (IsLineFault number line.now) }
    ensures history { IsHistory mesh.new }
{
    if let Some((seat, short)) = short_of_line(line) {
        return Ok(try_short(mesh, seat, short)?);
    }
    let (seat, step) = read_step(alloc, number, line)?;
    match try_step(mesh, seat, pooled(pool, step)) {
        Ok(was) => Ok(was),
        Err(_) => Err(VerifyRefusal::NoMemory),
    }
}

/// Reads each line from a place on and makes its step at once, up to the mark or to the first step that isn't enabled.
/// Gives the line of that, and the place at which it or the mark stands: from there on all is still to be judged. No
/// list of steps is kept, and there are too few of them to fill the log.
pub fn make_steps<'a>(
    alloc: Global,
    mesh: &mut Mesh,
    place: Place<'a>,
) -> Result<(Option<u32>, Place<'a>), VerifyRefusal>
    requires history { IsHistory mesh.old }
    requires empty { mesh.old.log ≡ [] }
    requires few { place.line + length place.text.now ≤ MAX_TRACE_BYTES + 1 }
    ensures made { MatchResult result (λ x. MakesFront mesh.old mesh.new place.entry x.0 x.1)
        (IsFormFault (steps_from place.entry)) }
    ensures history { IsHistory mesh.new }
{
    let mut pool = Pool::new(alloc);
    let mut at = place;
    while let Some((line, behind)) = ended_line(at.text) {
        if line == REPORT_MARK {
            return Ok((None, at));
        }
        let was = try_line(alloc, mesh, &mut pool, at.line, line)?;
        if !was {
            return Ok((Some(at.line), at));
        }
        at = Place {
            line: at.line + 1,
            text: behind,
        };
    }
    Err(VerifyRefusal::Trace { line: at.line })
}

//! A trace is read, and its steps are made again.
ghost use Rattle.std.specs.Prelude.{◌≤◌, ◌+◌, length, MatchResult};
ghost use Rattle.geo_model.specs.Plans.{FactsFit};
ghost use Rattle.geo_headline.specs.Traces.{parts_of, read_behind, read_trace};
ghost use Rattle.geo_verify.specs.Replays.{IsVerifyRefusal, ReplaysRead, IsReplayOf, trace_from};

use crate::cut::{cut, line_count};
use crate::make::make_steps;
use crate::place::Place;
use crate::refusal::VerifyRefusal;
use crate::sizes::read_sizes;
use crate::steps::read_report;
use geo_base::{Block, MAX_TRACE_BYTES};
use geo_core::Mesh;
use geo_log::DiskFacts;
use geo_script::{ParseRefusal, Plan, parse};
use std::alloc::Global;

/// What the steps of a trace made: the mesh, the line of the first step that isn't enabled, if there is one, and the
/// report that stands behind the steps.
#[derive(Drop)]
pub struct Replayed {
    pub mesh: Mesh,
    pub stopped: Option<u32>,
    pub report: Block,
}

/// Makes the steps of a trace from a place on, and judges the lines that are left.
fn replay_steps(
    alloc: Global,
    plan: Plan,
    facts: &DiskFacts,
    place: Place<'_>,
) -> Result<Replayed, VerifyRefusal>
    requires fit { FactsFit plan facts.now.items }
    requires few { place.line + length place.text.now ≤ MAX_TRACE_BYTES + 1 }
    ensures { ReplaysRead (trace_from plan facts.now.items place.entry) result }
{
    let mut mesh = Mesh::begin(alloc, plan, facts)?;
    let (stopped, left) = make_steps(alloc, &mut mesh, place)?;
    let behind = read_report(alloc, left)?;
    let report = Block::from_slice(alloc, behind)?;
    Ok(Replayed {
        mesh,
        stopped,
        report,
    })
}

/// Reads the sizes of the disks of a plan from a place on, and then the steps, which are made.
fn replay_behind(alloc: Global, plan: Plan, place: Place<'_>) -> Result<Replayed, VerifyRefusal>
    requires few { place.line + length place.text.now ≤ MAX_TRACE_BYTES + 1 }
    ensures { ReplaysRead (read_behind place.entry.line plan (parts_of place.entry.text.now)) result }
{
    let mut facts = DiskFacts::new(alloc);
    facts.reserve(plan.disks().len() as u64)?;
    let steps = read_sizes(plan.disks(), &mut facts, place)?;
    replay_steps(alloc, plan, &facts, steps)
}

/// Reads a trace of at most 64 MiB, and makes its steps up to the first that isn't enabled; the mesh is as it was
/// before that one. Each line is read and its step made at once, so that there is one pass over the text and no list of
/// steps; behind a step that isn't enabled the lines are only judged. `Script` where what stands before the first line
/// with a mark isn't a script, with its first fault; `Trace` only else, with the first line that isn't of the form.
pub fn replay(alloc: Global, text: &[u8]) -> Result<Replayed, VerifyRefusal>
    requires few { length text.now ≤ MAX_TRACE_BYTES }
    ensures { MatchResult result (λ r. IsReplayOf (read_trace text.now) r) (IsVerifyRefusal (read_trace text.now)) }
{
    let (script, marked) = cut(text);
    let line = line_count(script) + 1;
    match parse(alloc, script) {
        Ok(plan) => replay_behind(alloc, plan, Place { line, text: marked }),
        Err(ParseRefusal::Fault { line, cause }) => Err(VerifyRefusal::Script { line, cause }),
        Err(ParseRefusal::NoMemory) => Err(VerifyRefusal::NoMemory),
    }
}

//! What is found of a trace.
ghost use Rattle.std.specs.Prelude.{◌≡◌, ◌≤◌, Ok, length, bytes_eq, IfOk, MatchResult};
ghost use Rattle.geo_model.specs.Report.{report};
ghost use Rattle.geo_headline.specs.Verifying.{verified};
ghost use Rattle.geo_core.specs.Mesh.{opened};
ghost use Rattle.geo_verify.specs.Replays.{IsVerifyRefusal, found_with};

use crate::refusal::VerifyRefusal;
use crate::replaying::{Replayed, replay};
use geo_base::{MAX_TRACE_BYTES, NoMemory};
use geo_core::Mesh;
use geo_headline::Verified;
use geo_report::report;
use std::alloc::Global;

/// Whether this is the report of a mesh. The one that is printed to compare them isn't kept.
fn is_reported(alloc: Global, mesh: &Mesh, expected: &[u8]) -> Result<bool, NoMemory>
    ensures { IfOk result (λ same.
        same ≡ bytes_eq (report mesh.now.plan (opened mesh.now) mesh.now.log) expected.now) }
{
    let lines = mesh.listing(alloc)?;
    let printed = report(alloc, mesh.plan(), mesh.log(), &lines)?;
    Ok(printed.bytes() == expected)
}

/// What is found where the steps of a trace were made.
fn found(alloc: Global, replayed: &Replayed) -> Result<Verified, NoMemory>
    ensures { IfOk result (λ answer. answer ≡ found_with replayed.now) }
{
    if let Some(line) = replayed.stopped {
        return Ok(Verified::NotEnabled { line });
    }
    if !replayed.mesh.at_rest() {
        return Ok(Verified::NotAtRest);
    }
    if is_reported(alloc, &replayed.mesh, replayed.report.bytes())? {
        Ok(Verified::Yes)
    } else {
        Ok(Verified::OtherReport)
    }
}

/// The same, and what was made is dropped.
fn judge(alloc: Global, replayed: Replayed) -> Result<Verified, VerifyRefusal>
    ensures { MatchResult result (λ answer. answer ≡ found_with replayed)
        (λ refusal. refusal ≡ VerifyRefusal.NoMemory) }
{
    match found(alloc, &replayed) {
        Ok(answer) => Ok(answer),
        Err(_) => Err(VerifyRefusal::NoMemory),
    }
}

/// What is found of a text: whether all steps of its trace can be made, whether they end at rest, and whether they give
/// its report. It is refused as by `replay`: with its first fault, where it isn't a trace, or for want of memory.
#[tactic(auto, using(crate::proofs::TracesRead::text_unfound))]
pub fn verify(alloc: Global, text: &[u8]) -> Result<Verified, VerifyRefusal>
    requires few { length text.now ≤ MAX_TRACE_BYTES }
    ensures { MatchResult result (λ answer. verified text.now ≡ Ok answer) (IsVerifyRefusal (verified text.now)) }
{
    match replay(alloc, text) {
        Ok(replayed) => judge(alloc, replayed),
        Err(refusal) => Err(refusal),
    }
}

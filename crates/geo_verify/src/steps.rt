//! The lines of the steps of a trace.
ghost use Rattle.std.specs.Prelude.{◌<◌, ◌+◌, ◌^◌, length, MatchResult};
ghost use Rattle.geo_verify.specs.Forms.{IsFormFault, IsOfForm, JudgesStep, ReadsStep, steps_from};

use crate::cut::ended_line;
use crate::line::step_of_line;
use crate::place::Place;
use crate::refusal::VerifyRefusal;
use geo_model::Step;
use geo_script::LineRefusal;
use std::alloc::Global;

/// The line behind the steps of a trace.
pub const REPORT_MARK: &[u8] = b"% report";

/// The step of the line of a number, and the seat that made it.
pub fn read_step(alloc: Global, number: u32, line: &[u8]) -> Result<(u32, Step), VerifyRefusal>
    requires { length line.now < 2 ^ 32 }
    ensures { ReadsStep result number line.now }
{
    match step_of_line(alloc, line) {
        Ok(item) => Ok(item),
        Err(LineRefusal::Fault(_)) => Err(VerifyRefusal::Trace { line: number }),
        Err(LineRefusal::NoMemory) => Err(VerifyRefusal::NoMemory),
    }
}

/// Judges whether the line of a number is that of a step. The step is dropped.
fn judge_step(alloc: Global, number: u32, line: &[u8]) -> Result<(), VerifyRefusal>
    requires { length line.now < 2 ^ 32 }
    ensures { JudgesStep result number line.now }
{
    match read_step(alloc, number, line) {
        Ok(_) => Ok(()),
        Err(refusal) => Err(refusal),
    }
}

/// The report behind the lines of steps, each of which is judged: none is kept.
pub fn read_report<'a>(alloc: Global, place: Place<'a>) -> Result<&'a [u8], VerifyRefusal>
    requires { place.line + length place.text.now < 2 ^ 32 }
    ensures { MatchResult result (λ report. IsOfForm place.entry report.now)
        (IsFormFault (steps_from place.entry)) }
{
    let mut number = place.line;
    let mut rest = place.text;
    while let Some((line, behind)) = ended_line(rest) {
        if line == REPORT_MARK {
            return Ok(behind);
        }
        judge_step(alloc, number, line)?;
        number += 1;
        rest = behind;
    }
    Err(VerifyRefusal::Trace { line: number })
}

//! Traces are written.
ghost use Rattle.std.specs.Prelude.{◌≡◌, ◌++◌, ◌<◌, ◌^◌, length, zip, flat_map, All, IfOk, OnOk};
ghost use Rattle.geo_model.specs.declared.step.DeviceResult.TheVariants.{Bytes};
ghost use Rattle.geo_model.specs.Log.{Legal};
ghost use Rattle.geo_model.specs.Opening.{opening};
ghost use Rattle.geo_model.specs.Plans.{FactsFit};
ghost use Rattle.geo_model.specs.Report.{end_line};
ghost use Rattle.geo_model.specs.Script.{IsScript};
ghost use Rattle.geo_headline.specs.Traces.{answer_text, ended_script, report_mark, size_line, step_line, step_text, trace_text, IsTrace, steps_of};
ghost use Rattle.geo_laws_traces.specs.TraceLaws.{AreWritable, FewBytes, IsWritable, IsWritableAnswer};
ghost use Rattle.geo_verify.specs.Written.{is_last_line_ended, trace_of, written_of, IsShortAnswer};

use geo_base::{Block, NoMemory};
use geo_log::{DiskFacts, Log};
use geo_model::{DeviceResult, DiskDecl, DiskKind, Entry, Step};
use geo_report::add_runs;
use geo_script::Plan;
use geo_text::Text;
use std::alloc::Global;

/// The line before the report.
const REPORT_LINE: &[u8] = b"% report\n";

/// As many bytes as the sizes of sixteen disks, two line feeds and the mark of the report can take.
const FRAME: usize = 512;

/// Bytes that a disk gave, as runs. Each is below 256.
fn add_bytes(text: &mut Text, bytes: &[u8]) -> Result<(), NoMemory>
    ensures text { OnOk result (text.new ≡ text.old ++ answer_text (Bytes bytes.now)) }
    ensures fits { OnOk result (All (λ b. b < 256) bytes.now) }
{
    text.add(b"bytes ")?;
    add_runs(text, bytes)
}

/// What a device answered. What is written is within the ranges of its line, where the bytes aren't too many.
fn add_answer(text: &mut Text, got: &DeviceResult) -> Result<(), NoMemory>
    ensures text { OnOk result (text.new ≡ text.old ++ answer_text got.now) }
    ensures fits { OnOk result (IsShortAnswer got.now → IsWritableAnswer got.now) }
{
    match got {
        DeviceResult::Done => text.add(b"done"),
        DeviceResult::Failed { done } => text.add_labelled(b"failed ", u64::from(*done)),
        DeviceResult::Bytes(bytes) => add_bytes(text, bytes.bytes()),
    }
}

/// A step. Its numbers and bytes are within the ranges of a trace, where it doesn't deliver too many bytes.
fn add_step(text: &mut Text, step: &Step) -> Result<(), NoMemory>
    ensures text { OnOk result (text.new ≡ text.old ++ step_text step.now) }
    ensures fits { OnOk result (FewBytes step.now → IsWritable step.now) }
{
    match step {
        Step::Go { actor } => text.add_labelled(b"go ", u64::from(*actor)),
        Step::Event => text.add(b"event"),
        Step::Judge => text.add(b"judge"),
        Step::Reap => text.add(b"reap"),
        Step::Wash => text.add(b"wash"),
        Step::Start { bio } => text.add_labelled(b"start ", bio.number()),
        Step::Take { disk, bio } => {
            text.add_labelled(b"take ", u64::from(*disk))?;
            text.add_labelled(b" ", bio.number())
        }
        Step::Deliver { bio, got } => {
            text.add_labelled(b"deliver ", bio.number())?;
            text.add(b" ")?;
            add_answer(text, got)
        }
        Step::Up { bio } => text.add_labelled(b"up ", bio.number()),
    }
}

/// The line of an entry: its seat and its step.
fn add_line(text: &mut Text, entry: &Entry) -> Result<(), NoMemory>
    ensures text { OnOk result (text.new ≡ text.old ++ step_line (entry.now.seat, entry.now.step)) }
    ensures seat { OnOk result (entry.now.seat < 2 ^ 32) }
    ensures fits { OnOk result (FewBytes entry.now.step → IsWritable entry.now.step) }
{
    let seat = entry.seat;
    text.add_labelled(b"% ", u64::from(seat))?;
    text.add(b" ")?;
    add_step(text, &entry.step)?;
    text.add(b"\n")
}

/// The lines of the entries of a log. They can be read again where no step delivers more bytes than a request can ask
/// for.
fn add_lines(text: &mut Text, entries: &[Entry]) -> Result<(), NoMemory>
    ensures text { OnOk result (text.new
        ≡ text.old ++ flat_map (λ e. step_line (e.seat, e.step)) entries.now) }
    ensures fits { OnOk result (All (λ e. FewBytes e.step) entries.now → AreWritable (steps_of entries.now)) }
{
    for entry in entries {
        add_line(text, entry)?;
    }
    Ok(())
}

/// The line of the size of a disk, if it is one of the shelf.
fn add_size(text: &mut Text, disk: &DiskDecl, fact: (u32, u64)) -> Result<(), NoMemory>
    ensures { OnOk result (text.new ≡ text.old ++ size_line (disk.now, fact)) }
{
    match disk.kind {
        DiskKind::Ram => Ok(()),
        DiskKind::Shelf => {
            text.add_labelled(b"% disk ", fact.1)?;
            text.add(b"\n")
        }
    }
}

/// The lines of the sizes of disks.
fn add_sizes(text: &mut Text, disks: &[DiskDecl], facts: &[(u32, u64)]) -> Result<(), NoMemory>
    requires { length disks.now ≡ length facts.now }
    ensures { OnOk result (text.new ≡ text.old ++ flat_map size_line (zip disks.now facts.now)) }
{
    for place in 0..disks.len() {
        add_size(text, &disks[place], facts[place])?;
    }
    Ok(())
}

/// Whether the last line of a script is ended, if it has one.
fn is_ended(script: &[u8]) -> bool
    ensures { result ≡ is_last_line_ended script.now }
{
    match script.last() {
        Some(last) => *last == b'\n',
        None => true,
    }
}

/// A script, with its last line ended.
#[tactic(auto, using(crate::proofs::WrittenOut::ended_then))]
fn add_script(text: &mut Text, script: &[u8]) -> Result<(), NoMemory>
    ensures { OnOk result (text.new ≡ text.old ++ ended_script script.now) }
{
    text.add(script)?;
    if is_ended(script) {
        Ok(())
    } else {
        text.add(b"\n")
    }
}

/// What stands before the steps: a script, and the sizes of the disks of its plan.
fn add_front(
    text: &mut Text,
    script: &[u8],
    disks: &[DiskDecl],
    facts: &[(u32, u64)],
) -> Result<(), NoMemory>
    requires { length disks.now ≡ length facts.now }
    ensures { OnOk result (text.new
        ≡ text.old ++ ended_script script.now ++ flat_map size_line (zip disks.now facts.now)) }
{
    add_script(text, script)?;
    add_sizes(text, disks, facts)
}

/// What stands behind the steps: the report, behind its mark.
fn add_report(text: &mut Text, report: &[u8]) -> Result<(), NoMemory>
    ensures { OnOk result (text.new ≡ text.old ++ report_mark ++ end_line ++ report.now) }
{
    text.add(REPORT_LINE)?;
    text.add(report)
}

/// All that a trace has.
fn add_trace(
    text: &mut Text,
    plan: &Plan,
    script: &[u8],
    facts: &DiskFacts,
    log: &Log,
    report: &[u8],
) -> Result<(), NoMemory>
    requires { FactsFit plan.now facts.now.items }
    ensures text { OnOk result (text.new
        ≡ text.old ++ written_of script.now plan.now facts.now.items log.now.items report.now) }
    ensures fits { OnOk result (All (λ e. FewBytes e.step) log.now.items → AreWritable (steps_of log.now.items)) }
{
    add_front(text, script, plan.disks(), facts.items())?;
    add_lines(text, log.entries())?;
    add_report(text, report)
}

/// How many bytes the lines of the entries of a log take, or as many as can be told.
fn lines_len(alloc: Global, entries: &[Entry]) -> Result<usize, NoMemory> {
    let mut line = Text::new(alloc);
    let mut len = 0usize;
    for entry in entries {
        line.clear();
        add_line(&mut line, entry)?;
        len = len.saturating_add(line.len());
    }
    Ok(len)
}

/// A trace is written: a script with its last line ended, the sizes of the disks of its plan, the steps of a log with
/// their seats, and a report. Any mesh that began with this plan and these sizes has such a log, at each moment. What
/// its lines take is counted first, so that the memory is taken once. It is read as what it was written of.
pub fn trace_text(
    alloc: Global,
    plan: &Plan,
    script: &[u8],
    facts: &DiskFacts,
    log: &Log,
    report: &[u8],
) -> Result<Block, NoMemory>
    requires script { IsScript script.now plan.now }
    requires facts { FactsFit plan.now facts.now.items }
    requires legal { Legal (opening plan.now facts.now.items) log.now.items }
    ensures text { IfOk result (λ b.
        b ≡ trace_text script.now (trace_of plan.now facts.now.items log.now.items report.now)) }
    ensures trace { IfOk result (λ b. IsTrace b (trace_of plan.now facts.now.items log.now.items report.now)) }
{
    let lines = lines_len(alloc, log.entries())?;
    let room = lines
        .saturating_add(script.len())
        .saturating_add(report.len());
    let mut text = Text::with_room(alloc, room.saturating_add(FRAME))?;
    add_trace(&mut text, plan, script, facts, log, report)?;
    Ok(text.into_block())
}

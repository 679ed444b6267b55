//! What no clause says: the trace of a run, step by step: it is written, verified, and made again; and what is found
//! of one with a fault.
ghost use Rattle.std.specs.Prelude.{◌≡◌, IfSome};
ghost use Rattle.geo_model.specs.Script.{IsScript};
ghost use Rattle.geo_drain.specs.Meshes.{IsHistory};
ghost use Rattle.geo_tests_runs.specs.Bench.{one_fact};

use crate::bench::{Way, driven, facts_of, is_text, small_disk};
use crate::same::assert_same;
use geo_base::{BioCmd, BioId, Block};
use geo_drain::{Mesh, Spot};
use geo_log::DiskFacts;
use geo_model::Cause;
use geo_verify::{Replayed, Verified, VerifyRefusal, replay, trace_text, verify};
use std::alloc::Global;
use std::process::Abort;
use std::test::Fail;

const SCRIPT: &[u8] = b"ram md0 512 8
actor a
a open h md0 r1w0e0
a read h 512 1024
";

const REPORT: &[u8] = b"3 ok
4 ok 00*1024
geom DISK md0 rank 1
  provider md0 size 4096 sector 512 r1w0e0
";

/// The run of the script in the fixed order: the taste of the disk with its four reads, the open, and the read.
const TRACE: &[u8] = b"ram md0 512 8
actor a
a open h md0 r1w0e0
a read h 512 1024
% 0 event
% 0 judge
% 0 start 1
% 0 take 0 1
% 0 deliver 1 bytes 00*512
% 0 up 1
% 0 judge
% 0 judge
% 0 judge
% 0 start 2
% 0 take 0 2
% 0 deliver 2 bytes 00*512
% 0 up 2
% 0 judge
% 0 judge
% 0 start 3
% 0 take 0 3
% 0 deliver 3 bytes 00*512
% 0 up 3
% 0 judge
% 0 judge
% 0 start 4
% 0 take 0 4
% 0 deliver 4 bytes 00*512
% 0 up 4
% 0 judge
% 0 judge
% 0 go 0
% 0 go 0
% 0 start 5
% 0 take 0 5
% 0 deliver 5 bytes 00*1024
% 0 up 5
% report
3 ok
4 ok 00*1024
geom DISK md0 rank 1
  provider md0 size 4096 sector 512 r1w0e0
";

// The trace of the script of a mesh, over disks of these sizes.
fn written_with(alloc: Global, script: &[u8], mesh: &Mesh, facts: &DiskFacts) -> Result<Block, Fail>
    requires script { IsScript script.now mesh.now.plan }
    requires facts { mesh.now.facts ≡ facts.now.items }
    requires history { IsHistory mesh.now }
{
    Ok(trace_text(alloc, mesh.plan(), script, facts, mesh.log(), REPORT)?)
}

// The same of a mesh over the disk.
fn written(alloc: Global, script: &[u8], mesh: &Mesh) -> Result<Block, Fail>
    requires script { IsScript script.now mesh.now.plan }
    requires facts { mesh.now.facts ≡ one_fact }
    requires history { IsHistory mesh.now }
{
    let facts = facts_of(alloc, mesh.plan()).ok_or("no sizes")?;
    let text = written_with(alloc, script, mesh, &facts);
    drop(facts);
    text
}

#[test]
fn a_trace_is_written_step_by_step(rt: HostRuntime) -> Result<(), Fail> {
    let disk = small_disk(rt.alloc(), &[], 0)?;
    let mesh = driven(rt.alloc(), SCRIPT, Way::Fixed, disk)?;
    let text = written(rt.alloc(), SCRIPT, &mesh);
    drop(mesh);
    assert_same(&rt, is_text(text?, TRACE), true);
    Ok(())
}

// What is found of a trace of which these bytes are left, and one byte is another one.
fn found(
    alloc: Global,
    text: &[u8],
    at: usize,
    byte: u8,
) -> Result<Result<Verified, VerifyRefusal>, Fail> {
    if text.len() > 4096 || at >= text.len() {
        return Err("another text".into());
    }
    let mut block = Block::from_slice(alloc, text)?;
    block.bytes_mut()[at] = byte;
    let answer = verify(alloc, block.bytes());
    drop(block);
    Ok(answer)
}

/// What is changed in the trace: at which byte, to which one, and what is found.
const CHANGES: [(usize, u8, Result<Verified, VerifyRefusal>); 7] = [
    // Nothing.
    (0, b'r', Ok(Verified::Yes)),
    // The first line is no line of a script.
    (
        0,
        b'R',
        Err(VerifyRefusal::Script {
            line: 1,
            cause: Cause::Actor,
        }),
    ),
    // The last step has no mark.
    (
        TRACE.len() - REPORT.len() - 16,
        b'+',
        Err(VerifyRefusal::Trace { line: 37 }),
    ),
    // It is another bio's.
    (
        TRACE.len() - REPORT.len() - 11,
        b'6',
        Ok(Verified::NotEnabled { line: 37 }),
    ),
    // The report has another byte.
    (TRACE.len() - 2, b'1', Ok(Verified::OtherReport)),
    (TRACE.len() - REPORT.len(), b'4', Ok(Verified::OtherReport)),
    (TRACE.len() - REPORT.len() - 1, b'\n', Ok(Verified::Yes)),
];

#[test]
fn a_change_of_a_trace_is_found(rt: HostRuntime) -> Result<(), Fail> {
    for (at, byte, want) in CHANGES {
        assert_same(&rt, found(rt.alloc(), TRACE, at, byte)?, want);
    }
    Ok(())
}

/// A trace up to where a read waits for its disk, which has a single sector, so that its taste reads nothing.
const SENT: &[u8] = b"ram md0 4096 1
actor a
a open h md0 r1w0e0
a read h 0 4096
% 0 event
% 0 judge
% 0 judge
% 0 judge
% 0 judge
% 0 judge
% 0 judge
% 0 go 0
% 0 go 0
% 0 start 1
% report
none yet
";

// What a mesh tells whose one read waits for its disk: its bios, where the read goes, and the next line.
fn tells_sent(rt: &impl Abort, mesh: &Mesh) {
    let bio = BioId::new(1);
    let spot = Spot {
        disk: 0,
        cmd: BioCmd::Read,
        first: 0,
    };
    assert_same(rt, (mesh.next_bio(0), mesh.next_bio(2)), (Some(bio), None));
    assert_same(
        rt,
        (mesh.sent(bio), mesh.sent(BioId::new(2))),
        (Some(spot), None),
    );
    assert_same(rt, (mesh.next_line(0), mesh.next_line(1)), (None, None));
    assert_same(rt, mesh.at_rest(), false);
}

// What was made again of that trace.
fn is_made_again(rt: &impl Abort, replayed: &Replayed) {
    tells_sent(rt, &replayed.mesh);
    assert_same(rt, replayed.stopped, None);
    assert_same(
        rt,
        replayed.report.bytes() == b"none yet\n".as_slice(),
        true,
    );
}

// How many entries its log has, which is taken out of it.
fn entries_of(replayed: Replayed) -> usize {
    let Replayed { mesh, report, .. } = replayed;
    drop(report);
    let log = mesh.into_log();
    let count = log.entries().len();
    drop(log);
    count
}

#[test]
fn a_trace_is_made_again_to_its_last_step(rt: HostRuntime) -> Result<(), Fail> {
    let replayed = replay(rt.alloc(), SENT).ok().ok_or("no trace")?;
    is_made_again(&rt, &replayed);
    assert_same(&rt, entries_of(replayed), 10);
    Ok(())
}

#[test]
fn a_trace_that_ends_too_soon_is_not_at_rest(rt: HostRuntime) -> Result<(), Fail> {
    assert_same(&rt, verify(rt.alloc(), SENT), Ok(Verified::NotAtRest));
    Ok(())
}

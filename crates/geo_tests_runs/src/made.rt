//! What no clause says: the script that is made from a number, and the summary of a run.
ghost use Rattle.std.specs.Prelude.{◌<◌};

use crate::bench::{Way, driven, is_text, small_disk};
use crate::same::assert_same;
use geo_base::{Block, NoMemory};
use geo_drain::Mesh;
use geo_gen::make_script;
use geo_report::summary;
use geo_script::parse;
use std::alloc::Global;
use std::test::Fail;

/// The script from the number 1 with three lines that are drawn.
const MADE: &[u8] = b"ram md0 512 1024
ram md1 512 1024
ram md2 512 1024
ram md3 512 1024
actor a0
actor a1
actor a2
actor a3
a0 stripe s 4096 md0 md1
a0 concat c md2 md3
a0 open h0 stripe/s r1w1e0
a1 open h0 concat/c r1w1e0
a2 open h0 stripe/s r1w0e0
a3 open h0 concat/c r1w0e0
a0 delete h0 459264 4096
a1 read h1 259584 3072
a2 close h1
";

// Whether the script from a number is this one.
fn makes(alloc: Global, start: u32, count: u32, want: &[u8]) -> Result<bool, Fail>
    requires start { start < 2147483648 }
    requires count { count < 4001 }
{
    let text = make_script(alloc, start, count)?;
    Ok(is_text(text, want))
}

#[test]
fn three_lines_are_drawn_from_a_number(rt: HostRuntime) -> Result<(), Fail> {
    assert_same(&rt, makes(rt.alloc(), 1, 3, MADE)?, true);
    let fixed = MADE.get(..257).ok_or("short")?;
    assert_same(&rt, makes(rt.alloc(), 1, 0, fixed)?, true);
    Ok(())
}

// How many disks, actors and commands the longest script has that is made of the greatest number.
fn counts_of_longest(alloc: Global) -> Result<(usize, usize, usize), Fail> {
    let text = make_script(alloc, 2147483647, 4000)?;
    let plan = parse(alloc, text.bytes()).ok();
    drop(text);
    let counts = match &plan {
        Some(plan) => Some((
            plan.disks().len(),
            plan.actors().len(),
            plan.commands().len(),
        )),
        None => None,
    };
    drop(plan);
    Ok(counts.ok_or("no script")?)
}

#[test]
fn the_longest_script_that_is_made_is_one(rt: HostRuntime) -> Result<(), Fail> {
    assert_same(&rt, counts_of_longest(rt.alloc())?, (4, 4, 4006));
    Ok(())
}

/// Two reads of 1,536 bytes together, a read past the end, a handle that isn't there, and a second geom.
const TALLIED: &[u8] = b"ram md0 512 8
actor a
a open h md0 r1w0e0
a read h 0 512
a read h 512 1024
a read h 4096 512
a read k 0 512
a nop md0 0 512 0
";

const SUMMARY: &[u8] = b"commands 6
ok 4
ENOENT 0
EEXIST 0
EBADF 1
ENXIO 0
EPERM 0
EOVERFLOW 0
EBUSY 0
EINVAL 0
EIO 1
ELOOP 0
EDEEP 0
bytes 1536
geoms 2
";

// The summary of a mesh.
fn summed(alloc: Global, mesh: &Mesh) -> Result<Block, NoMemory> {
    let lines = mesh.listing(alloc)?;
    let text = summary(alloc, mesh.plan(), mesh.log(), &lines);
    drop(lines);
    text
}

#[test]
fn a_summary_counts_replies_bytes_and_geoms(rt: HostRuntime) -> Result<(), Fail> {
    let disk = small_disk(rt.alloc(), &[], 0)?;
    let mesh = driven(rt.alloc(), TALLIED, Way::Fixed, disk)?;
    let text = summed(rt.alloc(), &mesh);
    drop(mesh);
    assert_same(&rt, is_text(text?, SUMMARY), true);
    Ok(())
}

//! The mesh of a script: its disks, and its commands one behind the other.
ghost use Rattle.std.specs.Prelude.{◌≡◌, ◌<◌, ◌≤◌, ◌^◌, [], All, IfOk, IfSome, length, vec_len};
ghost use Rattle.geo_model.specs.Plans.{FactsFit};
ghost use Rattle.geomnbd.specs.Forms.{HasForm};

use crate::disks::{drives_of, fact_of};
use crate::due::settle;
use crate::stop::{Stop, not_made};
use geo_base::NoMemory;
use geo_disk::{Disk, Drive, Shelf};
use geo_log::DiskFacts;
use geo_model::{LineCommand, Reply};
use geo_script::{ParseRefusal, Plan, parse};
use geo_serving::Desk;
use geo_tags::TaggedSession;
use std::alloc::Global;
use std::sync::Wait;

/// The sizes of the disks of a plan, if they fit it, in room that was made.
fn fitted<D: Disk>(room: DiskFacts, plan: &Plan, drives: &[Drive<D>]) -> Option<DiskFacts>
    requires none { room.items ≡ [] }
    requires enough { length plan.now.disks ≤ room.spare }
    ensures { IfSome result (λ facts. FactsFit plan.now facts.items) }
{
    let mut facts = room;
    let mut place = 0;
    for decl in plan.disks() {
        if place >= drives.len() {
            return None;
        }
        let (sector, sectors) = fact_of(decl, &drives[place])?;
        facts.push(sector, sectors);
        place += 1;
    }
    Some(facts)
}

/// The same, with room.
fn facts_of<D: Disk>(
    alloc: Global,
    plan: &Plan,
    drives: &[Drive<D>],
) -> Result<Option<DiskFacts>, NoMemory>
    ensures { IfOk result (λ found. IfSome found (λ facts. FactsFit plan.now facts.items)) }
{
    let mut facts = DiskFacts::new(alloc);
    facts.reserve(plan.disks().len() as u64)?;
    Ok(fitted(facts, plan, drives))
}

/// The live mesh of a plan's header over its disks.
fn mesh_of<D: Disk>(
    alloc: Global,
    plan: &Plan,
    drives: &[Drive<D>],
) -> Result<TaggedSession, Stop> {
    let Some(facts) = facts_of(alloc, plan, drives)? else {
        return Err(Stop::NoDisk { disk: 0 });
    };
    Ok(TaggedSession::begin(alloc, plan, &facts)?)
}

/// The mesh of a plan's header, with its disks.
fn desk_of<H: Shelf>(alloc: Global, plan: &Plan, shelf: &mut H) -> Result<Desk<H::D>, Stop>
where
    H::D: Drop,
{
    let drives = drives_of(alloc, plan.disks(), shelf)?;
    let mesh = mesh_of(alloc, plan, drives.as_slice())?;
    Ok(Desk {
        alloc,
        mesh,
        drives,
    })
}

/// The command that is first, which goes.
fn take_first(commands: &mut Vec<LineCommand>) -> LineCommand
    requires some { 0 < vec_len commands.old }
    requires each { All HasForm commands.old.items }
    ensures first { HasForm result }
    ensures each { All HasForm commands.new.items }
    ensures fewer { vec_len commands.new < vec_len commands.old }
{
    commands.remove(0)
}

/// Whether a reply says that all went well.
fn is_well(reply: &Option<Reply>) -> bool {
    match reply {
        Some(Reply::Refused(_)) | None => false,
        Some(_) => true,
    }
}

/// Makes a command, and all that is due then.
fn make<R: Wait, D: Disk>(rt: &R, desk: &mut Desk<D>, line: LineCommand) -> Result<(), Stop>
    requires { HasForm line }
{
    let number = line.line;
    let at_once = match desk.mesh.submit(line.actor, line.command, 0) {
        Ok(reply) => reply,
        Err(refusal) => return Err(not_made(refusal, number)),
    };
    let later = settle(rt, desk)?;
    if is_well(&at_once) || is_well(&later) {
        Ok(())
    } else {
        Err(Stop::Refused { line: number })
    }
}

/// Makes the commands, one behind the other.
fn make_all<R: Wait, D: Disk>(
    rt: &R,
    desk: &mut Desk<D>,
    commands: Vec<LineCommand>,
) -> Result<(), Stop>
    requires { All HasForm commands.items }
{
    let mut left = commands;
    while left.len() > 0 {
        let line = take_first(&mut left);
        make(rt, desk, line)?;
    }
    Ok(())
}

/// The mesh of a script, with its disks of the shelf. The first command that is refused ends it.
pub fn set_up<R: Wait, H: Shelf>(
    rt: &R,
    alloc: Global,
    script: &[u8],
    shelf: &mut H,
) -> Result<Desk<H::D>, Stop>
where
    H::D: Drop,
    requires { length script.now < 2 ^ 32 }
{
    let plan = match parse(alloc, script) {
        Ok(plan) => plan,
        Err(ParseRefusal::Fault { line, .. }) => return Err(Stop::NoScript { line }),
        Err(ParseRefusal::NoMemory) => return Err(Stop::NoMemory),
    };
    let mut desk = desk_of(alloc, &plan, shelf)?;
    settle(rt, &mut desk)?;
    let (_disks, _actors, commands) = plan.into_parts();
    make_all(rt, &mut desk, commands)?;
    Ok(desk)
}

//! A live mesh over disks that the tests hold themselves. Its commands are those of a script, by their places in it;
//! what is due is made in the fixed order.
ghost use Rattle.std.specs.Prelude.{◌≤◌, IfOk, IfSome};
ghost use Rattle.geo_model.specs.Plans.{FactsFit, IsFact};

use geo_base::{BioCmd, BioId, Block, SharedBytes};
use geo_log::DiskFacts;
use geo_model::{DeviceResult, DiskDecl, DiskKind, Outcome, Reply, Request, Step};
use geo_script::{Plan, parse};
use geo_session::Session;
use std::alloc::Global;
use std::test::Fail;

/// The bytes of each sector of the disks.
const SECTOR: usize = 512;

/// More steps than any command of a test makes.
const MANY: u32 = 4096;

/// A live mesh, the script whose commands it is given, its disks, and what was replied since it was last asked: how
/// many were ok, how many were refused, and the last bytes. It is dropped by a call.
#[derive(Drop)]
pub struct Bench {
    pub alloc: Global,
    pub session: Session,
    pub plan: Plan,
    pub disks: Vec<Block>,
    pub replies: Replies,
}

/// What was replied.
#[derive(Drop)]
pub struct Replies {
    pub well: u64,
    pub refused: u64,
    pub bytes: Option<SharedBytes>,
}

// The sector size and the sectors of a small disk in memory, none of another one.
fn fact_of(decl: &DiskDecl) -> Option<(u32, u64)>
    ensures { IfSome result (IsFact decl.now) }
{
    match decl.kind {
        DiskKind::Ram if decl.sector == 512 && 1 <= decl.sectors && decl.sectors <= 1024 => {
            Some((512, decl.sectors))
        }
        _ => None,
    }
}

/// The sizes of the disks of a plan, if all are small and in memory and there is memory for the sizes.
pub fn facts_of(alloc: Global, plan: &Plan) -> Option<DiskFacts>
    ensures { IfSome result (λ facts. FactsFit plan.now facts.items) }
{
    let mut facts = DiskFacts::new(alloc);
    facts.reserve(plan.disks().len() as u64).ok()?;
    for decl in plan.disks() {
        let (sector, sectors) = fact_of(decl)?;
        facts.push(sector, sectors);
    }
    Some(facts)
}

// A small disk of zeros.
fn disk_of(alloc: Global, decl: &DiskDecl) -> Option<Block> {
    if decl.sectors > 1024 {
        return None;
    }
    Block::zeros(alloc, decl.sectors as u32 * 512).ok()
}

// Adds a disk of zeros for each of a plan, if there is memory for all.
fn add_zeros(alloc: Global, disks: &mut Vec<Block>, plan: &Plan) -> Option<()> {
    for decl in plan.disks() {
        disks.push(disk_of(alloc, decl)?).ok()?;
    }
    Some(())
}

// Disks of zeros.
fn zeros(alloc: Global, plan: &Plan) -> Option<Vec<Block>> {
    let mut disks = Vec::new(alloc);
    match add_zeros(alloc, &mut disks, plan) {
        Some(()) => Some(disks),
        None => {
            drop(disks);
            None
        }
    }
}

// The live mesh of a plan's header over small disks in memory, if there is memory.
fn session_of(alloc: Global, plan: &Plan) -> Option<Session> {
    let facts = facts_of(alloc, plan)?;
    let session = Session::begin(alloc, plan, &facts).ok();
    drop(facts);
    session
}

// Nothing was replied.
fn no_replies() -> Replies {
    Replies {
        well: 0,
        refused: 0,
        bytes: None,
    }
}

// The bench of a plan with these disks, if there is memory.
fn with_disks(alloc: Global, plan: Plan, disks: Vec<Block>) -> Option<Bench> {
    match session_of(alloc, &plan) {
        Some(session) => Some(Bench {
            alloc,
            session,
            plan,
            disks,
            replies: no_replies(),
        }),
        None => {
            drop(plan);
            drop(disks);
            None
        }
    }
}

// The bench of a plan, if there is memory.
fn opened(alloc: Global, plan: Plan) -> Option<Bench> {
    match zeros(alloc, &plan) {
        Some(disks) => with_disks(alloc, plan, disks),
        None => {
            drop(plan);
            None
        }
    }
}

/// The plan of a short script.
pub fn plan_of(alloc: Global, script: &[u8]) -> Result<Plan, Fail> {
    if script.len() > 4096 {
        return Err("a long script".into());
    }
    match parse(alloc, script) {
        Ok(plan) => Ok(plan),
        Err(_) => Err("no script".into()),
    }
}

/// The live mesh of a script's header over small disks in memory, in which no command was made yet.
pub fn begin(alloc: Global, script: &[u8]) -> Result<Bench, Fail> {
    match opened(alloc, plan_of(alloc, script)?) {
        Some(bench) => Ok(bench),
        None => Err("no memory".into()),
    }
}

// Where the sectors of a request begin and end in the bytes of its disk.
fn range_of(request: &Request) -> Result<(usize, usize), Fail>
    ensures { IfOk result (λ range. range.0 ≤ range.1) }
{
    if request.first > 1024 || request.count > 1024 {
        return Err("a request past each disk".into());
    }
    let first = request.first as usize * SECTOR;
    Ok((first, first + request.count as usize * SECTOR))
}

// The bytes that a disk answers.
fn bytes_of(alloc: Global, part: &[u8]) -> Result<DeviceResult, Fail> {
    match Block::from_slice(alloc, part) {
        Ok(block) => Ok(DeviceResult::Bytes(SharedBytes::from_block(block))),
        Err(_) => Err("no memory".into()),
    }
}

// What a disk answers that does all it is asked.
fn answer_of(alloc: Global, bytes: &mut [u8], request: &Request) -> Result<DeviceResult, Fail> {
    let (first, end) = range_of(request)?;
    if end > bytes.len() {
        return Err("a request past the disk".into());
    }
    let part = &mut bytes[first..end];
    match request.cmd {
        BioCmd::Read => return bytes_of(alloc, part),
        BioCmd::Write => write_over(part, request.bytes.bytes())?,
        BioCmd::Delete => part.fill(0),
        BioCmd::Flush => {}
    }
    Ok(DeviceResult::Done)
}

// Writes as many bytes over others.
fn write_over(part: &mut [u8], bytes: &[u8]) -> Result<(), Fail> {
    if part.len() != bytes.len() {
        return Err("a write of another length".into());
    }
    part.copy_from_slice(bytes);
    Ok(())
}

// The disk that a request asks answers it.
fn ask(alloc: Global, disks: &mut [Block], request: &Request) -> Result<DeviceResult, Fail> {
    let place = request.disk as usize;
    if place >= disks.len() {
        return Err("no such disk".into());
    }
    answer_of(alloc, disks[place].bytes_mut(), request)
}

// What is replied is kept: how many were ok or refused, and the last bytes.
fn note(replies: &mut Replies, reply: Reply) {
    match reply {
        Reply::Ok => replies.well = replies.well.saturating_add(1),
        Reply::Bytes(bytes) => {
            replies.well = replies.well.saturating_add(1);
            drop(replies.bytes.replace(bytes));
        }
        Reply::Refused(_) => replies.refused = replies.refused.saturating_add(1),
        Reply::Listing(lines) => drop(lines),
    }
}

// Of an outcome the reply is kept, if it is one.
fn note_outcome(replies: &mut Replies, outcome: Outcome) {
    match outcome {
        Outcome::Replied { reply, .. } => note(replies, reply),
        other => drop(other),
    }
}

// Makes a step of seat 0.
fn make(bench: &mut Bench, step: Step) -> Result<Outcome, Fail> {
    match bench.session.step(0, step) {
        Ok(outcome) => Ok(outcome),
        Err(_) => Err("a step is refused".into()),
    }
}

// A disk takes a bio, and what it answers.
fn take(bench: &mut Bench, disk: u32, bio: BioId) -> Result<DeviceResult, Fail> {
    let outcome = make(bench, Step::Take { disk, bio })?;
    let got = match &outcome {
        Outcome::Asked(request) => ask(bench.alloc, bench.disks.as_mut_slice(), request),
        _ => Err("nothing is asked".into()),
    };
    drop(outcome);
    got
}

// A disk takes a bio, and its answer is delivered.
fn serve(bench: &mut Bench, disk: u32, bio: BioId) -> Result<(), Fail> {
    let got = take(bench, disk, bio)?;
    let outcome = make(bench, Step::Deliver { bio, got })?;
    drop(outcome);
    Ok(())
}

/// The disk and the bio of a step that is a Take.
fn taken_by(step: &Step) -> Option<(u32, BioId)> {
    match step {
        Step::Take { disk, bio } => Some((*disk, *bio)),
        _ => None,
    }
}

// Makes a step that is due. A Take is answered at once.
fn make_due(bench: &mut Bench, step: Step) -> Result<(), Fail> {
    if let Some((disk, bio)) = taken_by(&step) {
        drop(step);
        return serve(bench, disk, bio);
    }
    let outcome = make(bench, step)?;
    note_outcome(&mut bench.replies, outcome);
    Ok(())
}

/// One step that is due, and whether there was one.
pub fn go_on(bench: &mut Bench) -> Result<bool, Fail> {
    match bench.session.pick() {
        Some(step) => {
            make_due(bench, step)?;
            Ok(true)
        }
        None => Ok(false),
    }
}

/// All steps that are due, until the mesh is at rest.
pub fn settle(bench: &mut Bench) -> Result<(), Fail> {
    for _step in 0..MANY {
        if !go_on(bench)? {
            return Ok(());
        }
    }
    Err("no rest".into())
}

/// Gives the mesh the command at a place of the script. Whether it was made.
pub fn give(bench: &mut Bench, place: usize) -> Result<bool, Fail> {
    let lines = bench.plan.commands();
    if place >= lines.len() {
        return Err("no such command".into());
    }
    match bench.session.command(&lines[place]) {
        Ok(outcome) => {
            note_outcome(&mut bench.replies, outcome);
            Ok(true)
        }
        Err(_) => Ok(false),
    }
}

/// Gives it the command, and lets the mesh come to rest.
pub fn run(bench: &mut Bench, place: usize) -> Result<bool, Fail> {
    let made = give(bench, place)?;
    settle(bench)?;
    Ok(made)
}

//! A mesh under way over disks that the tests hold themselves, which makes single steps, or those of the fixed order:
//! Up, Take and Start of the smallest bio, Judge, Event, Reap, Wash, and the Go of the actor whose next line is the
//! smallest.
ghost use Rattle.std.specs.Prelude.{◌≤◌, IfOk, IfSome};
ghost use Rattle.geo_model.specs.Plans.{FactsFit, IsFact};

use geo_base::{BioCmd, BioId, Block, SharedBytes};
use geo_core::{ApplyRefusal, Mesh};
use geo_log::{DiskFacts, Log};
use geo_model::{DeviceResult, DiskDecl, DiskKind, Outcome, Request, Step};
use geo_report::report;
use geo_script::{ParseRefusal, Plan, parse};
use std::alloc::Global;
use std::test::Fail;

/// The bytes of each sector of the disks.
const SECTOR: usize = 512;

/// No request of a test has a greater number, and none goes to a disk above the third.
const BIOS: u64 = 128;

const DISKS: u32 = 3;

/// More steps than any test makes.
const MANY: u32 = 4096;

/// Above every line.
pub const ALL: u32 = 4096;

/// A mesh, its disks, and what a disk answered that isn't delivered yet. It is dropped by a call.
#[derive(Drop)]
pub struct Bench {
    pub alloc: Global,
    pub mesh: Mesh,
    pub disks: Vec<Block>,
    pub answer: Option<(BioId, DeviceResult)>,
}

// The sector size and the sectors of a small disk in memory, none of another one.
fn fact_of(decl: &DiskDecl) -> Option<(u32, u64)>
    ensures { IfSome result (IsFact decl.now) }
{
    match decl.kind {
        DiskKind::Ram if decl.sector == 512 && 1 <= decl.sectors && decl.sectors <= 1024 => {
            Some((512, decl.sectors))
        }
        _ => None,
    }
}

// The sizes of the disks of a plan, if all are small and in memory and there is memory for the sizes.
fn facts_of(alloc: Global, plan: &Plan) -> Option<DiskFacts>
    ensures { IfSome result (λ facts. FactsFit plan.now facts.items) }
{
    let mut facts = DiskFacts::new(alloc);
    facts.reserve(plan.disks().len() as u64).ok()?;
    for decl in plan.disks() {
        let (sector, sectors) = fact_of(decl)?;
        facts.push(sector, sectors);
    }
    Some(facts)
}

// A small disk of zeros.
fn disk_of(alloc: Global, decl: &DiskDecl) -> Option<Block> {
    if decl.sectors > 1024 {
        return None;
    }
    Block::zeros(alloc, decl.sectors as u32 * 512).ok()
}

// Adds a disk of zeros for each of a plan, if there is memory for all.
fn add_zeros(alloc: Global, disks: &mut Vec<Block>, plan: &Plan) -> Option<()> {
    for decl in plan.disks() {
        disks.push(disk_of(alloc, decl)?).ok()?;
    }
    Some(())
}

// Disks of zeros.
fn zeros(alloc: Global, plan: &Plan) -> Option<Vec<Block>> {
    let mut disks = Vec::new(alloc);
    match add_zeros(alloc, &mut disks, plan) {
        Some(()) => Some(disks),
        None => {
            drop(disks);
            None
        }
    }
}

// The mesh of a plan over disks of these sizes, if there is memory.
fn mesh_over(alloc: Global, plan: Plan, facts: DiskFacts) -> Option<Mesh>
    requires { FactsFit plan facts.items }
{
    let mesh = Mesh::begin(alloc, plan, &facts).ok();
    drop(facts);
    mesh
}

// The mesh of a plan over small disks in memory, if there is memory.
fn mesh_of(alloc: Global, plan: Plan) -> Option<Mesh> {
    match facts_of(alloc, &plan) {
        Some(facts) => mesh_over(alloc, plan, facts),
        None => {
            drop(plan);
            None
        }
    }
}

// The mesh of a plan with these disks, if there is memory.
fn with_disks(alloc: Global, plan: Plan, disks: Vec<Block>) -> Option<Bench> {
    match mesh_of(alloc, plan) {
        Some(mesh) => Some(Bench {
            alloc,
            mesh,
            disks,
            answer: None,
        }),
        None => {
            drop(disks);
            None
        }
    }
}

// The mesh of a plan over small disks in memory, in which no step was made yet, if there is memory.
fn opened(alloc: Global, plan: Plan) -> Option<Bench> {
    match zeros(alloc, &plan) {
        Some(disks) => with_disks(alloc, plan, disks),
        None => {
            drop(plan);
            None
        }
    }
}

/// The mesh of a script over small disks in memory, if there is memory.
pub fn begin_if(alloc: Global, script: &[u8]) -> Result<Option<Bench>, Fail> {
    if script.len() > 4096 {
        return Err("a long script".into());
    }
    match parse(alloc, script) {
        Ok(plan) => Ok(opened(alloc, plan)),
        Err(ParseRefusal::NoMemory) => Ok(None),
        Err(ParseRefusal::Fault { .. }) => Err("no script".into()),
    }
}

/// The mesh of a script over small disks in memory.
pub fn begin(alloc: Global, script: &[u8]) -> Result<Bench, Fail> {
    match begin_if(alloc, script)? {
        Some(bench) => Ok(bench),
        None => Err("no memory".into()),
    }
}

// Where the sectors of a request begin and end in the bytes of its disk.
fn range_of(request: &Request) -> Result<(usize, usize), Fail>
    ensures { IfOk result (λ range. range.0 ≤ range.1) }
{
    if request.first > 1024 || request.count > 1024 {
        return Err("a request past each disk".into());
    }
    let first = request.first as usize * SECTOR;
    Ok((first, first + request.count as usize * SECTOR))
}

// The bytes that a disk answers, if there is memory for them.
fn bytes_of(alloc: Global, part: &[u8]) -> Option<DeviceResult> {
    match Block::from_slice(alloc, part) {
        Ok(block) => Some(DeviceResult::Bytes(SharedBytes::from_block(block))),
        Err(_) => None,
    }
}

// What a disk answers that does all it is asked, none where memory for a read is wanting.
fn answer_of(
    alloc: Global,
    bytes: &mut [u8],
    request: &Request,
) -> Result<Option<DeviceResult>, Fail> {
    let (first, end) = range_of(request)?;
    if end > bytes.len() {
        return Err("a request past the disk".into());
    }
    let part = &mut bytes[first..end];
    match request.cmd {
        BioCmd::Read => return Ok(bytes_of(alloc, part)),
        BioCmd::Write => write_over(part, request.bytes.bytes())?,
        BioCmd::Delete => part.fill(0),
        BioCmd::Flush => {}
    }
    Ok(Some(DeviceResult::Done))
}

// Writes as many bytes over others.
fn write_over(part: &mut [u8], bytes: &[u8]) -> Result<(), Fail> {
    if part.len() != bytes.len() {
        return Err("a write of another length".into());
    }
    part.copy_from_slice(bytes);
    Ok(())
}

// The disk that a request asks answers it, if there is memory for the answer.
fn ask(
    alloc: Global,
    disks: &mut [Block],
    request: &Request,
) -> Result<Option<DeviceResult>, Fail> {
    let place = request.disk as usize;
    if place >= disks.len() {
        return Err("no such disk".into());
    }
    answer_of(alloc, disks[place].bytes_mut(), request)
}

// What the last step of a log asked of a disk.
fn last_asked(log: &Log) -> Result<&Request, Fail> {
    let entry = log.entries().last().ok_or("no step")?;
    match &entry.outcome {
        Outcome::Asked(request) => Ok(request),
        _ => Err("nothing is asked".into()),
    }
}

/// The disk that the last step asks answers it, if there is memory for the answer.
pub fn answer_if(bench: &mut Bench) -> Result<Option<DeviceResult>, Fail> {
    let request = last_asked(bench.mesh.log())?;
    ask(bench.alloc, bench.disks.as_mut_slice(), request)
}

/// The disk that the last step asks answers it.
pub fn answer(bench: &mut Bench) -> Result<DeviceResult, Fail> {
    match answer_if(bench)? {
        Some(got) => Ok(got),
        None => Err("no memory".into()),
    }
}

// An answer is kept until it is delivered.
fn keep(bench: &mut Bench, bio: BioId, got: DeviceResult) {
    drop(bench.answer.replace((bio, got)));
}

/// A disk takes a bio with seat 0, and keeps its answer.
pub fn take(bench: &mut Bench, disk: u32, bio: BioId) -> Result<(), Fail> {
    make(bench, Step::Take { disk, bio })?;
    let got = answer(bench)?;
    keep(bench, bio, got);
    Ok(())
}

/// The answer that was kept is delivered.
pub fn deliver(bench: &mut Bench) -> Result<(), Fail> {
    match bench.answer.take() {
        Some((bio, got)) => make(bench, Step::Deliver { bio, got }),
        None => Err("nothing to deliver".into()),
    }
}

/// A disk takes a bio, and its answer is delivered.
pub fn serve(bench: &mut Bench, disk: u32, bio: u64) -> Result<(), Fail> {
    take(bench, disk, BioId::new(bio))?;
    deliver(bench)
}

/// A step of a seat, whose outcome is dropped: why it is refused, none where it is made.
pub fn refusal_of(bench: &mut Bench, seat: u32, step: Step) -> Option<ApplyRefusal> {
    bench.mesh.apply(seat, step).err()
}

/// A step of a seat.
pub fn make_as(bench: &mut Bench, seat: u32, step: Step) -> Result<(), Fail> {
    match bench.mesh.make(seat, step) {
        Ok(()) => Ok(()),
        Err(_) => Err("a step is refused".into()),
    }
}

/// A step of seat 0.
pub fn make(bench: &mut Bench, step: Step) -> Result<(), Fail> {
    make_as(bench, 0, step)
}

/// The next command of an actor.
pub fn go(bench: &mut Bench, actor: u32) -> Result<(), Fail> {
    make(bench, Step::Go { actor })
}

/// A bio goes down.
pub fn start(bench: &mut Bench, bio: u64) -> Result<(), Fail> {
    let bio = BioId::new(bio);
    make(bench, Step::Start { bio })
}

/// A bio goes up.
pub fn up(bench: &mut Bench, bio: u64) -> Result<(), Fail> {
    let bio = BioId::new(bio);
    make(bench, Step::Up { bio })
}

// Whether seat 0 can make a step.
fn is_enabled(mesh: &Mesh, step: Step) -> bool {
    let enabled = mesh.enabled(0, &step);
    drop(step);
    enabled
}

// The disk that can take the bio.
fn taking_disk(mesh: &Mesh, bio: BioId) -> Option<u32> {
    for disk in 0..DISKS {
        if is_enabled(mesh, Step::Take { disk, bio }) {
            return Some(disk);
        }
    }
    None
}

// The Take of the smallest bio that can be taken.
fn first_take(mesh: &Mesh) -> Option<Step> {
    for number in 1..BIOS {
        let bio = BioId::new(number);
        if let Some(disk) = taking_disk(mesh, bio) {
            return Some(Step::Take { disk, bio });
        }
    }
    None
}

// The step of a bio that is due.
fn due_of_bios(mesh: &Mesh) -> Option<Step> {
    if let Some(step) = mesh.first_up() {
        return Some(step);
    }
    if let Some(step) = first_take(mesh) {
        return Some(step);
    }
    mesh.first_down()
}

// The step that is due of a taste, an event, a reap or a wash.
fn due_of_rest(mesh: &Mesh) -> Option<Step> {
    if is_enabled(mesh, Step::Judge) {
        return Some(Step::Judge);
    }
    if is_enabled(mesh, Step::Event) {
        return Some(Step::Event);
    }
    if is_enabled(mesh, Step::Reap) {
        return Some(Step::Reap);
    }
    if is_enabled(mesh, Step::Wash) {
        return Some(Step::Wash);
    }
    None
}

// The actor of the smallest of the lines that can be next, if it is at most the last.
fn next_actor(mesh: &Mesh, last: u32) -> Option<u32> {
    let mut best = last;
    let mut found = None;
    for actor in 0..mesh.actors() {
        let line = mesh.next_line(actor).unwrap_or(u32::MAX);
        if line <= best && is_enabled(mesh, Step::Go { actor }) {
            best = line;
            found = Some(actor);
        }
    }
    found
}

// The command that is due of the lines up to the last.
fn due_of_lines(mesh: &Mesh, last: u32) -> Option<Step> {
    let actor = next_actor(mesh, last)?;
    Some(Step::Go { actor })
}

/// The step that is due, with the commands of the lines up to the last; it is no Deliver.
pub fn due(mesh: &Mesh, last: u32) -> Option<Step> {
    if let Some(step) = due_of_bios(mesh) {
        return Some(step);
    }
    if let Some(step) = due_of_rest(mesh) {
        return Some(step);
    }
    due_of_lines(mesh, last)
}

/// The disk and the bio of a step that is a Take.
pub fn taken_by(step: &Step) -> Option<(u32, BioId)> {
    match step {
        Step::Take { disk, bio } => Some((*disk, *bio)),
        _ => None,
    }
}

// Makes a step that is due, and tells that there was one. The answer to a Take is kept.
fn make_due(bench: &mut Bench, step: Step) -> Result<bool, Fail> {
    match taken_by(&step) {
        Some((disk, bio)) => {
            drop(step);
            take(bench, disk, bio)?;
        }
        None => make(bench, step)?,
    }
    Ok(true)
}

/// One step of the fixed order, and whether there was one. An answer of a disk is delivered first.
pub fn go_on(bench: &mut Bench, last: u32) -> Result<bool, Fail> {
    if bench.answer.is_some() {
        deliver(bench)?;
        return Ok(true);
    }
    match due(&bench.mesh, last) {
        Some(step) => make_due(bench, step),
        None => Ok(false),
    }
}

/// Steps of the fixed order until the lines up to the last are answered, and no other step can be made.
pub fn rest(bench: &mut Bench, last: u32) -> Result<(), Fail> {
    for _ in 0..MANY {
        if !go_on(bench, last)? {
            return Ok(());
        }
    }
    Err("no rest".into())
}

/// So many steps of the fixed order without a command, and whether there were so many.
pub fn advance(bench: &mut Bench, steps: u32) -> Result<bool, Fail> {
    for _ in 0..steps {
        if !go_on(bench, 0)? {
            return Ok(false);
        }
    }
    Ok(true)
}

/// The report of the mesh as it is, if there is memory for it.
pub fn told(bench: &Bench) -> Option<Block> {
    let lines = bench.mesh.listing(bench.alloc).ok()?;
    let text = report(bench.alloc, bench.mesh.plan(), bench.mesh.log(), &lines).ok();
    drop(lines);
    text
}

/// Whether a text is this one.
pub fn is_text(text: Block, want: &[u8]) -> bool {
    let same = text.bytes() == want;
    drop(text);
    same
}

/// Whether the report at the end of the fixed order is this one.
pub fn tells_at_rest(bench: &mut Bench, want: &[u8]) -> Result<bool, Fail> {
    rest(bench, ALL)?;
    match told(bench) {
        Some(text) => Ok(is_text(text, want)),
        None => Err("no memory".into()),
    }
}

//! A mesh over one disk of eight sectors, which is driven to rest.
ghost use Rattle.std.specs.Prelude.{◌≡◌, ◌≤◌, ◌<◌, ◌^◌, [], length, IfOk, IfSome, OnOk};
ghost use Rattle.geo_model.specs.Plans.{FactsFit, IsFact};
ghost use Rattle.geo_model.specs.Script.{IsScript};
ghost use Rattle.geo_drain.specs.Meshes.{IsHistory, opened};
ghost use Rattle.geo_elev.specs.Heads.{AreHeads};
ghost use Rattle.geo_tests_runs.specs.Bench.{IsSmall, one_fact};

use geo_base::{Block, Calls, NoMemory};
use geo_disk::{Drive, MemDisk};
use geo_drain::{DrainRefusal, FixedOrder, Mesh, run_to_rest};
use geo_elev::{Heads, sweep_to_rest};
use geo_log::DiskFacts;
use geo_model::{DiskDecl, DiskKind};
use geo_report::report;
use geo_script::{ParseRefusal, Plan, parse};
use std::alloc::Global;
use std::test::Fail;

/// The bytes of the disk.
const SIZE: u32 = 4096;

/// The order in which a mesh goes to rest.
#[derive(Clone, Copy, Debug, PartialEq, Eq)]
pub enum Way {
    Fixed,
    Elevator,
}

// The sizes of a disk with sectors of 512 bytes, eight of them where the script says how many.
fn fact_of(decl: &DiskDecl) -> Option<(u32, u64)>
    ensures fact { IfSome result (IsFact decl.now) }
    ensures is { IfSome result (λ fact. fact ≡ (512, 8)) }
{
    match decl.kind {
        DiskKind::Ram if decl.sector == 512 && decl.sectors == 8 => Some((512, 8)),
        DiskKind::Shelf if decl.sector == 512 => Some((512, 8)),
        _ => None,
    }
}

/// The sizes of the one disk of a plan.
pub fn facts_of(alloc: Global, plan: &Plan) -> Option<DiskFacts>
    ensures fit { IfSome result (λ facts. FactsFit plan.now facts.items) }
    ensures are { IfSome result (λ facts. facts.items ≡ one_fact) }
{
    let [only] = plan.disks() else {
        return None;
    };
    let (sector, sectors) = fact_of(only)?;
    let mut facts = DiskFacts::new(alloc);
    facts.reserve(1).ok()?;
    facts.push(sector, sectors);
    Some(facts)
}

// The mesh of a plan, which has made no step.
fn begin(alloc: Global, plan: Plan) -> Option<Mesh>
    ensures log { IfSome result (λ mesh. mesh.log ≡ []) }
    ensures facts { IfSome result (λ mesh. mesh.facts ≡ one_fact) }
    ensures plan { IfSome result (λ mesh. mesh.plan ≡ plan) }
{
    match facts_of(alloc, &plan) {
        Some(facts) => {
            let mesh = Mesh::begin(alloc, plan, &facts).ok();
            drop(facts);
            mesh
        }
        None => {
            drop(plan);
            None
        }
    }
}

/// The mesh of a script, which has made no step.
pub fn mesh_of(alloc: Global, script: &[u8]) -> Result<Mesh, Fail>
    requires few { length script.now < 2 ^ 32 }
    ensures log { IfOk result (λ mesh. mesh.log ≡ []) }
    ensures facts { IfOk result (λ mesh. mesh.facts ≡ one_fact) }
    ensures script { IfOk result (λ mesh. IsScript script.now mesh.plan) }
{
    match parse(alloc, script) {
        Ok(plan) => match begin(alloc, plan) {
            Some(mesh) => Ok(mesh),
            None => Err("no mesh of one small disk".into()),
        },
        Err(ParseRefusal::NoMemory) => Err("no memory".into()),
        Err(ParseRefusal::Fault { .. }) => Err("no script".into()),
    }
}

/// The disk, of zeros. Its calls of these numbers fail, after so many sectors of a write.
#[tactic(auto, using(crate::proofs::Disks::small_count))]
pub fn small_disk(alloc: Global, calls: &[u64], part: u64) -> Result<MemDisk, NoMemory>
    ensures { IfOk result IsSmall }
{
    let bytes = Block::zeros(alloc, SIZE)?;
    match Calls::of(alloc, calls) {
        Ok(fails) => {
            let mut disk = MemDisk::new(bytes, 512, fails);
            disk.failing_after(part);
            Ok(disk)
        }
        Err(error) => {
            drop(bytes);
            Err(error)
        }
    }
}

/// The heads of the disks of a mesh before its first step.
pub fn heads_of(alloc: Global, mesh: &Mesh) -> Result<Heads, NoMemory>
    ensures { IfOk result (λ heads. AreHeads (opened mesh.now) [] heads) }
{
    let plan = mesh.plan();
    let disks = plan.disks().len() as u32;
    match Heads::new(alloc, disks) {
        Ok(heads) => Ok(heads),
        Err(error) => Err(error),
    }
}

// A mesh goes to rest over its drive in the fixed order.
#[tactic(auto, using(crate::proofs::Idle::idle_mesh, crate::proofs::Disks::one_fits))]
fn in_fixed_order(alloc: Global, mesh: &mut Mesh, disk: MemDisk) -> Result<(), DrainRefusal>
    requires new { mesh.old.log ≡ [] }
    requires facts { mesh.old.facts ≡ one_fact }
    requires small { IsSmall disk }
    ensures history { IsHistory mesh.new }
    ensures facts { mesh.new.facts ≡ one_fact }
    ensures plan { mesh.new.plan ≡ mesh.old.plan }
{
    let mut drives = [Drive::Shelved(disk)];
    let answer = run_to_rest(alloc, mesh, &mut drives, &mut FixedOrder);
    drop(drives);
    answer
}

// The same in the elevator order.
#[tactic(auto, using(crate::proofs::Idle::idle_mesh, crate::proofs::Disks::one_fits))]
fn in_elevator_order(alloc: Global, mesh: &mut Mesh, disk: MemDisk) -> Result<(), DrainRefusal>
    requires new { mesh.old.log ≡ [] }
    requires facts { mesh.old.facts ≡ one_fact }
    requires small { IsSmall disk }
    ensures history { OnOk result (IsHistory mesh.new) }
    ensures facts { mesh.new.facts ≡ one_fact }
    ensures plan { mesh.new.plan ≡ mesh.old.plan }
{
    let mut heads = heads_of(alloc, mesh)?;
    let mut drives = [Drive::Shelved(disk)];
    let answer = sweep_to_rest(alloc, mesh, &mut drives, &mut heads);
    drop(drives);
    drop(heads);
    answer
}

// A mesh goes to rest over its disk.
fn go_to_rest(alloc: Global, mesh: &mut Mesh, disk: MemDisk, way: Way) -> Result<(), DrainRefusal>
    requires new { mesh.old.log ≡ [] }
    requires facts { mesh.old.facts ≡ one_fact }
    requires small { IsSmall disk }
    ensures history { OnOk result (IsHistory mesh.new) }
    ensures facts { OnOk result (mesh.new.facts ≡ one_fact) }
    ensures plan { OnOk result (mesh.new.plan ≡ mesh.old.plan) }
{
    match way {
        Way::Fixed => in_fixed_order(alloc, mesh, disk),
        Way::Elevator => in_elevator_order(alloc, mesh, disk),
    }
}

// The mesh at rest.
fn rested(alloc: Global, mut mesh: Mesh, disk: MemDisk, way: Way) -> Result<Mesh, Fail>
    requires new { mesh.log ≡ [] }
    requires facts { mesh.facts ≡ one_fact }
    requires small { IsSmall disk }
    ensures history { IfOk result IsHistory }
    ensures facts { IfOk result (λ after. after.facts ≡ one_fact) }
    ensures plan { IfOk result (λ after. after.plan ≡ mesh.plan) }
{
    match go_to_rest(alloc, &mut mesh, disk, way) {
        Ok(()) => Ok(mesh),
        Err(_) => {
            drop(mesh);
            Err("no rest".into())
        }
    }
}

/// The mesh of a script at rest, in an order, over the disk.
pub fn driven(alloc: Global, script: &[u8], way: Way, disk: MemDisk) -> Result<Mesh, Fail>
    requires few { length script.now < 2 ^ 32 }
    requires small { IsSmall disk }
    ensures history { IfOk result IsHistory }
    ensures facts { IfOk result (λ after. after.facts ≡ one_fact) }
    ensures script { IfOk result (λ after. IsScript script.now after.plan) }
{
    match mesh_of(alloc, script) {
        Ok(mesh) => rested(alloc, mesh, disk, way),
        Err(fail) => {
            drop(disk);
            Err(fail)
        }
    }
}

/// The report of a mesh.
pub fn told(alloc: Global, mesh: &Mesh) -> Result<Block, NoMemory> {
    let lines = mesh.listing(alloc)?;
    let text = report(alloc, mesh.plan(), mesh.log(), &lines);
    drop(lines);
    text
}

/// Whether a text is this one.
pub fn is_text(text: Block, want: &[u8]) -> bool {
    let same = text.bytes() == want;
    drop(text);
    same
}

/// Whether the report of a mesh is this one.
pub fn tells(alloc: Global, mesh: &Mesh, want: &[u8]) -> Result<bool, Fail> {
    let text = told(alloc, mesh)?;
    Ok(is_text(text, want))
}

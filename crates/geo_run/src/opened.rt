//! A mesh that is opened for a script: the script is read, its disks are taken, and the mesh begins with their sizes.
ghost use Rattle.std.specs.Prelude.{◌≡◌, ◌<◌, ◌^◌, [], length, map, IfErr, IfOk};
ghost use Rattle.geo_model.specs.Plans.{FactsFit};
ghost use Rattle.geo_elev.specs.Meshes.{IsHistory};
ghost use Rattle.geo_run.specs.Drives.{drive_view, size_of};
ghost use Rattle.geo_run.specs.Opened.{OpensPlan, OpensScript, StopsPlan, StopsScript};

use crate::lent::{Lent, give_back, take_disks};
use crate::stop::Stop;
use geo_base::NoMemory;
use geo_disk::{Disk, Drive, Shelf};
use geo_jobs::Mesh;
use geo_log::DiskFacts;
use geo_script::{ParseRefusal, Plan, parse};
use std::alloc::Global;

/// A mesh that has no step yet, the sizes with which it began, and the drives of its disks, which are out.
#[derive(Drop)]
pub struct Opened<D> {
    pub mesh: Mesh,
    pub facts: DiskFacts,
    pub lent: Lent<D>,
}

/// The sizes of the drives.
fn facts_of<D: Disk>(alloc: Global, drives: &[Drive<D>]) -> Result<DiskFacts, NoMemory>
    ensures { IfOk result (λ facts. facts.items
        ≡ map size_of (map (drive_view D.view) drives.now)) }
{
    let mut facts = DiskFacts::new(alloc);
    facts.reserve(drives.len() as u64)?;
    for drive in drives {
        facts.push(drive.sector_size(), drive.sectors());
    }
    Ok(facts)
}

/// The mesh of a plan over drives, and their sizes. On `NoMemory` the plan is dropped.
fn open_mesh<D: Disk>(
    alloc: Global,
    plan: Plan,
    drives: &[Drive<D>],
) -> Result<(Mesh, DiskFacts), NoMemory>
    requires { FactsFit plan
        (map size_of (map (drive_view D.view) drives.now)) }
    ensures mesh { IfOk result (λ made. made.0 ≡ record {
      plan = plan;
      facts = map size_of (map (drive_view D.view) drives.now);
      log = [];
    }) }
    ensures facts { IfOk result (λ made. made.1.items
        ≡ map size_of (map (drive_view D.view) drives.now)) }
    ensures history { IfOk result (λ made. IsHistory made.0) }
{
    let facts = facts_of(alloc, drives)?;
    let mesh = Mesh::begin(alloc, plan, &facts)?;
    Ok((mesh, facts))
}

/// Opens the mesh of a plan over the disks of a shelf. Where that can't be done, those that were taken are given back.
fn open_plan<H: Shelf>(alloc: Global, plan: Plan, shelf: &mut H) -> Result<Opened<H::D>, Stop>
where
    H::D: Drop,
    ensures opened { IfOk result (λ o. OpensPlan plan
        (H.view shelf.old) o.mesh o.facts.items o.lent.names.items
        (map (drive_view H.D.view) o.lent.drives.items)
        (H.view shelf.new)) }
    ensures stopped { IfErr result (λ stop. StopsPlan plan
        (H.view shelf.old) stop
        (H.view shelf.new)) }
{
    let lent = match take_disks(alloc, plan.disks(), shelf) {
        Ok(lent) => lent,
        Err(stop) => return Err(stop),
    };
    match open_mesh(alloc, plan, lent.drives.as_slice()) {
        Ok((mesh, facts)) => Ok(Opened { mesh, facts, lent }),
        Err(_) => {
            give_back(lent, shelf);
            Err(Stop::NoMemory)
        }
    }
}

/// Opens the mesh of a script over the disks of a shelf.
pub fn open_script<H: Shelf>(
    alloc: Global,
    text: &[u8],
    shelf: &mut H,
) -> Result<Opened<H::D>, Stop>
where
    H::D: Drop,
    requires { length text.now < 2 ^ 32 }
    ensures opened { IfOk result (λ o. OpensScript text.now
        (H.view shelf.old) o.mesh o.facts.items o.lent.names.items
        (map (drive_view H.D.view) o.lent.drives.items)
        (H.view shelf.new)) }
    ensures stopped { IfErr result (λ stop. StopsScript text.now
        (H.view shelf.old) stop
        (H.view shelf.new)) }
{
    match parse(alloc, text) {
        Ok(plan) => open_plan(alloc, plan, shelf),
        Err(ParseRefusal::Fault { line, cause }) => Err(Stop::NoScript { line, cause }),
        Err(ParseRefusal::NoMemory) => Err(Stop::NoMemory),
    }
}

//! Who makes the steps of an open mesh, and what is reported of it then.
ghost use Rattle.std.specs.Prelude.{◌≡◌, [], Some, map, IfOk, ⊤};
ghost use Rattle.geo_model.specs.Script.{IsScript};
ghost use Rattle.geo_model.specs.World.{World};
ghost use Rattle.geo_headline.specs.Endings.{reported};
ghost use Rattle.geo_headline.specs.Modes.{Mode};
ghost use Rattle.geo_elev.specs.Drain.{DrivesFit};
ghost use Rattle.geo_elev.specs.Meshes.{opened};
ghost use Rattle.geo_run.specs.Drives.{drive_view};
ghost use Rattle.geo_run.specs.Runners.{RanOrNot};

use geo_base::{Block, NoMemory};
use geo_disk::{Disk, Drive};
use geo_elev::DrainRefusal;
use geo_jobs::Mesh;
use geo_log::DiskFacts;
use std::alloc::Global;

/// What is left of a mesh that was run, and of the drives of its disks.
#[derive(Drop)]
pub struct Driven<D> {
    /// The mesh, unless memory was wanting before its first step.
    pub mesh: Option<Mesh>,
    /// The drives, in header order.
    pub drives: Vec<Drive<D>>,
    /// Whether the mesh is at rest, and if it isn't, why.
    pub answer: Result<(), DrainRefusal>,
}

/// What is reported of a mesh.
pub trait Reporter {
    /// What the program is asked to do.
    ghost mode: { Self → Mode };

    /// What it knows of the world with which the mesh opened.
    ghost knows: { Self → World → Type 0 } = { λ _ _. ⊤ };

    /// What is reported of a mesh that came of this script, and began with these sizes.
    fn report(
        &self,
        alloc: Global,
        script: &[u8],
        mesh: &Mesh,
        facts: &DiskFacts,
    ) -> Result<Block, NoMemory>
        requires script { IsScript script.now mesh.now.plan }
        requires facts { facts.now.items ≡ mesh.now.facts }
        requires known { knows self.now (opened mesh.now) }
        ensures { IfOk result (λ text.
            text ≡ reported (mode self.now) script.now mesh.now.plan mesh.now.facts (Some mesh.now.log)) };
}

/// What runs a mesh on one thread, and reports of it.
pub trait Runner<D: Disk>: Reporter {
    /// Makes the steps of a mesh that has none yet, as far as they come; each Take is served by the drive of its disk,
    /// and its answer delivered. There is one drive for each disk of the plan, in header order, with its sizes.
    fn run(&self, alloc: Global, mesh: Mesh, drives: Vec<Drive<D>>) -> Driven<D>
        requires new { mesh.log ≡ [] }
        requires drives { DrivesFit mesh (map (drive_view D.view) drives.items) }
        ensures { RanOrNot (Self.mode self.now) mesh result.mesh
            (map (drive_view D.view) drives.items)
            (map (drive_view D.view) result.drives.items) result.answer };

    /// It reports without knowing how the mesh opened.
    ghost knows_all: { (runner : Self) (w : World) → Self.knows runner w };
}

//! The works of one thread: a script in the fixed order, in the elevator order, and the script of a number.
ghost use Rattle.std.specs.Prelude.{◌≡◌, [], map, IfOk, OnOk, IsErrOf};
ghost use Rattle.geo_model.specs.History.{KeepsHistory, RanToItsEnd};
ghost use Rattle.geo_model.specs.Laws.{NoneBusy};
ghost use Rattle.geo_model.specs.Log.{Fits};
ghost use Rattle.geo_model.specs.FixedOrder.{fixed_order};
ghost use Rattle.geo_model.specs.Report.{report};
ghost use Rattle.geo_headline.specs.Modes.{GenMode, StepMode, SweepMode};
ghost use Rattle.geo_headline.specs.Sweep.{sweep_order};
ghost use Rattle.geo_elev.specs.Drain.{DrivesFit};
ghost use Rattle.geo_elev.specs.Meshes.{opened, world_of};
ghost use Rattle.geo_run.specs.Drives.{drive_view};
ghost use Rattle.geo_run.specs.Rest.{Adds, RanFull};
ghost use Rattle.geo_run.specs.Runners.{RanAlone, RanOrNot};

use crate::rest::{in_elevator_order, in_fixed_order};
use crate::runner::{Driven, Reporter, Runner};
use geo_base::{Block, NoMemory};
use geo_disk::{Disk, Drive};
use geo_elev::DrainRefusal;
use geo_jobs::Mesh;
use geo_log::DiskFacts;
use geo_report::{report, summary};
use std::alloc::Global;

/// Runs a script in the fixed order: the word `step`.
#[derive(Clone, Copy, Debug)]
pub struct Step;

/// Runs a script in the elevator order: the word `sweep`.
#[derive(Clone, Copy, Debug)]
pub struct Sweep;

/// Runs the script that is made from the number `start`, with `count` lines that are drawn, in the fixed order.
#[derive(Clone, Copy, Debug)]
pub struct Generation {
    pub start: u32,
    pub count: u32,
}

/// The report of a mesh.
pub fn report_of(alloc: Global, mesh: &Mesh) -> Result<Block, NoMemory>
    ensures { IfOk result (λ text. text ≡ report mesh.now.plan (opened mesh.now) mesh.now.log) }
{
    let lines = mesh.listing(alloc)?;
    report(alloc, mesh.plan(), mesh.log(), &lines)
}

/// Brings a mesh to rest over a list of drives in the fixed order.
fn fixed_over<D: Disk>(
    alloc: Global,
    mesh: &mut Mesh,
    drives: &mut Vec<Drive<D>>,
) -> Result<(), DrainRefusal>
    requires idle { NoneBusy (world_of mesh.old) }
    requires drives { DrivesFit mesh.old (map (drive_view D.view) drives.old.items) }
    ensures added { Adds fixed_order mesh.old mesh.new
        (map (drive_view D.view) drives.old.items)
        (map (drive_view D.view) drives.new.items) }
    ensures history { KeepsHistory (opened mesh.new) mesh.new.log }
    ensures fits { Fits (opened mesh.new) mesh.new.log }
    ensures rest { OnOk result (RanToItsEnd (opened mesh.new) mesh.new.log) }
    ensures full { IsErrOf result DrainRefusal.LogFull → RanFull fixed_order (opened mesh.new) mesh.new.log }
{
    in_fixed_order(alloc, mesh, drives.as_mut_slice())
}

/// Runs a mesh that has no step yet in the fixed order.
fn run_fixed<D: Disk>(alloc: Global, mesh: Mesh, drives: Vec<Drive<D>>) -> Driven<D>
    requires new { mesh.log ≡ [] }
    requires drives { DrivesFit mesh (map (drive_view D.view) drives.items) }
    ensures { RanAlone fixed_order mesh result.mesh
        (map (drive_view D.view) drives.items)
        (map (drive_view D.view) result.drives.items) result.answer }
{
    let mut mesh = mesh;
    let mut drives = drives;
    let answer = fixed_over(alloc, &mut mesh, &mut drives);
    Driven {
        mesh: Some(mesh),
        drives,
        answer,
    }
}

/// The same in the elevator order.
fn swept_over<D: Disk>(
    alloc: Global,
    mesh: &mut Mesh,
    drives: &mut Vec<Drive<D>>,
) -> Result<(), DrainRefusal>
    requires idle { NoneBusy (world_of mesh.old) }
    requires drives { DrivesFit mesh.old (map (drive_view D.view) drives.old.items) }
    ensures added { Adds sweep_order mesh.old mesh.new
        (map (drive_view D.view) drives.old.items)
        (map (drive_view D.view) drives.new.items) }
    ensures history { KeepsHistory (opened mesh.new) mesh.new.log }
    ensures fits { Fits (opened mesh.new) mesh.new.log }
    ensures rest { OnOk result (RanToItsEnd (opened mesh.new) mesh.new.log) }
    ensures full { IsErrOf result DrainRefusal.LogFull → RanFull sweep_order (opened mesh.new) mesh.new.log }
{
    in_elevator_order(alloc, mesh, drives.as_mut_slice())
}

/// Runs a mesh that has no step yet in the elevator order.
fn run_swept<D: Disk>(alloc: Global, mesh: Mesh, drives: Vec<Drive<D>>) -> Driven<D>
    requires new { mesh.log ≡ [] }
    requires drives { DrivesFit mesh (map (drive_view D.view) drives.items) }
    ensures { RanAlone sweep_order mesh result.mesh
        (map (drive_view D.view) drives.items)
        (map (drive_view D.view) result.drives.items) result.answer }
{
    let mut mesh = mesh;
    let mut drives = drives;
    let answer = swept_over(alloc, &mut mesh, &mut drives);
    Driven {
        mesh: Some(mesh),
        drives,
        answer,
    }
}

impl Reporter for Step {
    ghost mode = { λ _. StepMode };

    fn report(
        &self,
        alloc: Global,
        _script: &[u8],
        mesh: &Mesh,
        _facts: &DiskFacts,
    ) -> Result<Block, NoMemory> {
        report_of(alloc, mesh)
    }
}

impl<D: Disk> Runner<D> for Step {
    ghost knows_all = { λ _ _. tt };

    fn run(&self, alloc: Global, mesh: Mesh, drives: Vec<Drive<D>>) -> Driven<D>
        requires new { mesh.log ≡ [] }
        requires drives { DrivesFit mesh (map (drive_view D.view) drives.items) }
        ensures { RanOrNot StepMode mesh result.mesh
            (map (drive_view D.view) drives.items)
            (map (drive_view D.view) result.drives.items) result.answer }
    {
        run_fixed(alloc, mesh, drives)
    }
}

impl Reporter for Sweep {
    ghost mode = { λ _. SweepMode };

    fn report(
        &self,
        alloc: Global,
        _script: &[u8],
        mesh: &Mesh,
        _facts: &DiskFacts,
    ) -> Result<Block, NoMemory> {
        report_of(alloc, mesh)
    }
}

impl<D: Disk> Runner<D> for Sweep {
    ghost knows_all = { λ _ _. tt };

    fn run(&self, alloc: Global, mesh: Mesh, drives: Vec<Drive<D>>) -> Driven<D>
        requires new { mesh.log ≡ [] }
        requires drives { DrivesFit mesh (map (drive_view D.view) drives.items) }
        ensures { RanOrNot SweepMode mesh result.mesh
            (map (drive_view D.view) drives.items)
            (map (drive_view D.view) result.drives.items) result.answer }
    {
        run_swept(alloc, mesh, drives)
    }
}

impl Reporter for Generation {
    ghost mode = { λ work. GenMode work.start work.count };

    fn report(
        &self,
        alloc: Global,
        _script: &[u8],
        mesh: &Mesh,
        _facts: &DiskFacts,
    ) -> Result<Block, NoMemory> {
        let lines = mesh.listing(alloc)?;
        summary(alloc, mesh.plan(), mesh.log(), &lines)
    }
}

impl<D: Disk> Runner<D> for Generation {
    ghost knows_all = { λ _ _. tt };

    fn run(&self, alloc: Global, mesh: Mesh, drives: Vec<Drive<D>>) -> Driven<D>
        requires new { mesh.log ≡ [] }
        requires drives { DrivesFit mesh (map (drive_view D.view) drives.items) }
        ensures { RanOrNot (GenMode self.now.start self.now.count) mesh result.mesh
            (map (drive_view D.view) drives.items)
            (map (drive_view D.view) result.drives.items) result.answer }
    {
        run_fixed(alloc, mesh, drives)
    }
}

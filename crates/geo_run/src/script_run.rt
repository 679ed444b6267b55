//! The run of a script on one thread, and what is left to do after any run: the disks are given back, and the report is
//! made.
ghost use Rattle.std.specs.Prelude.{◌≡◌, ◌<◌, ◌^◌, length, map, IfSome};
ghost use Rattle.geo_model.specs.Script.{IsScript};
ghost use Rattle.geo_elev.specs.Meshes.{opened};
ghost use Rattle.geo_run.specs.Calls.{FinishesText};
ghost use Rattle.geo_run.specs.Drives.{drive_view};
ghost use Rattle.geo_run.specs.Ends.{IsDueOf};
ghost use Rattle.geo_run.specs.Lending.{AreOut};
ghost use Rattle.geo_run.specs.Runners.{FinishesRun};

use crate::due::Due;
use crate::finish::{Finish, unopened};
use crate::lent::{Lent, give_back};
use crate::opened::{Opened, open_script};
use crate::runner::{Driven, Reporter, Runner};
use crate::stop::Stop;
use geo_base::Name;
use geo_disk::Shelf;
use geo_elev::DrainRefusal;
use geo_jobs::Mesh;
use geo_log::DiskFacts;
use std::alloc::Global;

/// What is due of a mesh that came of a script, after it was run.
fn due_of<C: Reporter>(
    alloc: Global,
    script: &[u8],
    mesh: &Mesh,
    facts: &DiskFacts,
    answer: Result<(), DrainRefusal>,
    kept: Option<Name>,
    reporter: &C,
) -> Due
    requires script { IsScript script.now mesh.now.plan }
    requires facts { facts.now.items ≡ mesh.now.facts }
    requires known { C.knows reporter.now (opened mesh.now) }
    ensures { IsDueOf (C.mode reporter.now) script.now mesh.now answer kept result }
{
    match answer {
        Ok(()) => match reporter.report(alloc, script, mesh, facts) {
            Ok(text) => Due::Report { text, kept },
            Err(_) => Due::Stopped(Stop::NoMemory),
        },
        Err(DrainRefusal::LogFull) => Due::Stopped(Stop::LogFull),
        Err(DrainRefusal::NoMemory) => Due::Stopped(Stop::NoMemory),
    }
}

/// Gives the drives of a mesh that was run back, and makes what is due of it.
pub fn finish_run<H: Shelf, C: Reporter>(
    alloc: Global,
    script: &[u8],
    names: Vec<Name>,
    facts: DiskFacts,
    driven: Driven<H::D>,
    reporter: &C,
    shelf: &mut H,
) -> Finish
where
    H::D: Drop,
    requires out { AreOut
        (H.view shelf.old) names.items
        (map (drive_view H.D.view) driven.drives.items) }
    requires script { IfSome driven.mesh (λ m. IsScript script.now m.plan) }
    requires facts { IfSome driven.mesh (λ m. facts.items ≡ m.facts) }
    requires known { IfSome driven.mesh (λ m. C.knows reporter.now (opened m)) }
    ensures { FinishesRun (C.mode reporter.now) script.now names.items driven.mesh facts.items
        (map (drive_view H.D.view) driven.drives.items) driven.answer result
        (H.view shelf.old)
        (H.view shelf.new) }
{
    let Driven {
        mesh,
        drives,
        answer,
    } = driven;
    let kept = give_back(Lent { names, drives }, shelf);
    let Some(mesh) = mesh else {
        return unopened(alloc, Stop::NoMemory);
    };
    let due = due_of(alloc, script, &mesh, &facts, answer, kept, reporter);
    Finish {
        due,
        log: Some(mesh.into_log()),
        facts,
    }
}

/// Runs a script on this thread over the disks of a shelf.
pub fn run_script<H: Shelf, C: Runner<H::D>>(
    alloc: Global,
    text: &[u8],
    runner: &C,
    shelf: &mut H,
) -> Finish
where
    H::D: Drop,
    requires { length text.now < 2 ^ 32 }
    ensures { FinishesText text.now (C.mode runner.now) result
        (H.view shelf.old)
        (H.view shelf.new) }
{
    match open_script(alloc, text, shelf) {
        Ok(opened) => {
            let Opened { mesh, facts, lent } = opened;
            let Lent { names, drives } = lent;
            let driven = runner.run(alloc, mesh, drives);
            finish_run(alloc, text, names, facts, driven, runner, shelf)
        }
        Err(stop) => unopened(alloc, stop),
    }
}

//! What is reported of a script that was run in threads.
ghost use Rattle.std.specs.Prelude.{◌≡◌, ◌++◌, Some, IfOk};
ghost use Rattle.std.specs.Option.{option_copied};
ghost use Rattle.geo_model.specs.Listing.{listing};
ghost use Rattle.geo_model.specs.Report.{report};
ghost use Rattle.geo_model.specs.Script.{IsScript};
ghost use Rattle.geo_headline.specs.Endings.{reported};
ghost use Rattle.geo_headline.specs.Modes.{TraceMode};
ghost use Rattle.geo_headline.specs.Viewing.{view_text};
ghost use Rattle.geo_elev.specs.Meshes.{opened};
ghost use Rattle.geo_run.specs.Reports.{list_in};

use crate::alone::report_of;
use crate::runner::Reporter;
use geo_base::{Block, NoMemory};
use geo_jobs::{Mesh, Seen};
use geo_log::DiskFacts;
use geo_model::MeshList;
use geo_shown::watched_report;
use geo_verify::trace_text;
use std::alloc::Global;

/// What is reported of a script that was run in threads.
#[derive(Drop)]
pub enum ThreadedReport {
    /// The report: the word `run`.
    Run,
    /// The report, and behind it the mesh as it was shown last: the word `watch`. `opening` is the mesh as it was
    /// printed before the first step.
    Watch { opening: MeshList, seen: Seen },
    /// The trace: the word `trace`.
    Trace,
}

/// The list that was seen last, if there is one.
fn list_of(seen: &Seen) -> Result<Option<&MeshList>, NoMemory>
    ensures { IfOk result (λ list. option_copied list ≡ list_in seen.now) }
{
    match seen {
        Seen::Nothing => Ok(None),
        Seen::List(list) => Ok(Some(list)),
        Seen::NoMemory => Err(NoMemory),
    }
}

/// The report of a mesh, and behind it the mesh as it was shown last.
fn watched_of(
    alloc: Global,
    mesh: &Mesh,
    opening: &MeshList,
    seen: &Seen,
) -> Result<Block, NoMemory>
    requires { opening.now ≡ listing (opened mesh.now) }
    ensures { IfOk result (λ text. text ≡ report mesh.now.plan (opened mesh.now) mesh.now.log
        ++ view_text mesh.now.plan (opened mesh.now) mesh.now.log) }
{
    let seen = list_of(seen)?;
    let lines = mesh.listing(alloc)?;
    watched_report(alloc, mesh.plan(), mesh.log(), &lines, opening, seen)
}

/// The trace of a mesh that came of a script, with its report.
fn trace_of(alloc: Global, script: &[u8], mesh: &Mesh, facts: &DiskFacts) -> Result<Block, NoMemory>
    requires script { IsScript script.now mesh.now.plan }
    requires facts { facts.now.items ≡ mesh.now.facts }
    ensures { IfOk result (λ text.
        text ≡ reported TraceMode script.now mesh.now.plan mesh.now.facts (Some mesh.now.log)) }
{
    let report = report_of(alloc, mesh)?;
    trace_text(
        alloc,
        mesh.plan(),
        script,
        facts,
        mesh.log(),
        report.bytes(),
    )
}

impl Reporter for ThreadedReport {
    ghost use Rattle.geo_run.specs.Reports.{KnowsOpening, mode_reported};

    ghost mode = { mode_reported };

    ghost knows = { KnowsOpening };

    fn report(
        &self,
        alloc: Global,
        script: &[u8],
        mesh: &Mesh,
        facts: &DiskFacts,
    ) -> Result<Block, NoMemory> {
        match self {
            ThreadedReport::Run => report_of(alloc, mesh),
            ThreadedReport::Watch { opening, seen } => watched_of(alloc, mesh, opening, seen),
            ThreadedReport::Trace => trace_of(alloc, script, mesh, facts),
        }
    }
}

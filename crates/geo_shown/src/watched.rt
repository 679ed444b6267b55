//! The report of a run that was watched.
ghost use Rattle.std.specs.Prelude.{◌≡◌, ◌++◌, IfOk, OnOk};
ghost use Rattle.geo_shown.specs.Shown.{IsLastView, IsWatchedReport, view_lines};

use crate::last::last_shown;
use crate::same::same_lists;
use geo_base::{Block, NoMemory};
use geo_log::Log;
use geo_model::MeshList;
use geo_report::{add_mesh, report};
use geo_script::Plan;
use geo_text::Text;
use std::alloc::Global;

// How many entries were seen last, and the mesh of that moment; this is the mesh at the start.
#[tactic(auto, using(crate::proofs::LastLemmas::opening_seen))]
fn last_view<'a>(plan: &Plan, log: &'a Log, opening: &'a MeshList) -> (u64, &'a MeshList)
    ensures { IsLastView plan.now log.now.items opening.now result.0 result.1.now }
{
    match last_shown(plan, log) {
        Some(found) => found,
        None => (0, opening),
    }
}

// What was seen where it is the same, else what is due.
fn seen_or_due<'a>(seen: &'a MeshList, due: &'a MeshList) -> &'a MeshList
    ensures { result.now ≡ due.now }
{
    if same_lists(seen, due) { seen } else { due }
}

// The same, where nothing may have been seen.
fn printed<'a>(seen: Option<&'a MeshList>, due: &'a MeshList) -> &'a MeshList
    ensures { result.now ≡ due.now }
{
    match seen {
        Some(list) => seen_or_due(list, due),
        None => due,
    }
}

// The line that tells how much was seen, and the lines of the mesh.
#[tactic(auto, unfolding(crate::specs::Shown::view_lines))]
fn add_view(text: &mut Text, entries: u64, list: &MeshList) -> Result<(), NoMemory>
    ensures { OnOk result (text.new ≡ text.old ++ view_lines entries list.now) }
{
    text.add_labelled(b"view ", entries)?;
    text.add(b"\n")?;
    add_mesh(text, list.items())
}

/// The report of a run that was watched: what `report` prints, how many entries of the log were seen last, and the mesh
/// as it is printed after these. `mesh` is the listing at the end and `opening` that at the start. `seen` is what a
/// watcher saw last: it is printed if it is the listing that the log shows last, else that listing itself is.
pub fn watched_report(
    alloc: Global,
    plan: &Plan,
    log: &Log,
    mesh: &MeshList,
    opening: &MeshList,
    seen: Option<&MeshList>,
) -> Result<Block, NoMemory>
    ensures { IfOk result (IsWatchedReport plan.now log.now.items mesh.now opening.now) }
{
    let reported = report(alloc, plan, log, mesh)?;
    let (entries, due) = last_view(plan, log, opening);
    let mut text = Text::new(alloc);
    text.add(reported.bytes())?;
    add_view(&mut text, entries, printed(seen, due))?;
    Ok(text.into_block())
}

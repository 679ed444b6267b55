//! The report and the summary.
ghost use Rattle.std.specs.Prelude.{◌≡◌, ◌++◌, OnOk, IfOk, flat_map};
ghost use Rattle.geo_model.specs.Report.{count_line};
ghost use Rattle.geo_report.specs.Tallies.{error_line, tally_text};
ghost use Rattle.geo_report.specs.Texts.{report_text, summary_text, IsReport, IsSummary};

use crate::lines::add_lines;
use crate::mesh::add_mesh;
use crate::places::places_of;
use crate::tally::{Tally, errno_number, tally_of};
use geo_base::{Block, Errno, NoMemory};
use geo_log::Log;
use geo_model::MeshList;
use geo_script::Plan;
use geo_text::Text;
use std::alloc::Global;

/// The errors, in the order in which they are listed.
const ERRNOS: [Errno; 11] = [
    Errno::ENOENT,
    Errno::EEXIST,
    Errno::EBADF,
    Errno::ENXIO,
    Errno::EPERM,
    Errno::EOVERFLOW,
    Errno::EBUSY,
    Errno::EINVAL,
    Errno::EIO,
    Errno::ELOOP,
    Errno::EDEEP,
];

/// A word, a number and a line feed.
fn add_count(text: &mut Text, word: &[u8], number: u128) -> Result<(), NoMemory>
    ensures { OnOk result (text.new ≡ text.old ++ count_line word.now number) }
{
    text.add(word)?;
    text.add(b" ")?;
    text.add_wide(number)?;
    text.add(b"\n")
}

fn add_errors(text: &mut Text, tally: &Tally, errnos: &[Errno]) -> Result<(), NoMemory>
    ensures { OnOk result (text.new ≡ text.old ++ flat_map (error_line tally.now) errnos.now) }
{
    for errno in errnos {
        add_count(
            text,
            errno.text(),
            u128::from(tally.errors[errno_number(*errno)]),
        )?;
    }
    Ok(())
}

/// The numbers of ok replies, of each error, and of bytes.
#[tactic(auto, unfolding(crate::specs::Tallies::tally_text))]
fn add_tally(text: &mut Text, tally: &Tally) -> Result<(), NoMemory>
    ensures { OnOk result (text.new ≡ text.old ++ tally_text tally.now) }
{
    add_count(text, b"ok", u128::from(tally.ok))?;
    add_errors(text, tally, &ERRNOS)?;
    add_count(text, b"bytes", tally.bytes)
}

/// What is printed of a plan, its log and the mesh as it is listed: the reply of each line in order, then the mesh. One
/// pass over the log finds where the replies stand.
#[tactic(auto, unfolding(crate::specs::Texts::report_text), using(crate::proofs::TextLemmas::is_report))]
pub fn report(alloc: Global, plan: &Plan, log: &Log, mesh: &MeshList) -> Result<Block, NoMemory>
    ensures text { IfOk result (λ block. block ≡ report_text plan.now log.now.items mesh.now) }
    ensures report { IfOk result (IsReport plan.now log.now.items mesh.now) }
{
    let places = places_of(alloc, log.entries())?;
    let mut text = Text::new(alloc);
    add_lines(&mut text, log.entries(), places.as_slice(), plan.commands())?;
    add_mesh(&mut text, mesh.items())?;
    Ok(text.into_block())
}

/// What is printed in numbers: of the commands, of the replies that are ok, of each error, of the bytes that were read,
/// and of the geoms of the mesh as it is listed. One pass over the log finds where the replies stand.
#[tactic(auto, using(crate::proofs::TextLemmas::is_summary, crate::proofs::TextLemmas::summary_is))]
pub fn summary(alloc: Global, plan: &Plan, log: &Log, mesh: &MeshList) -> Result<Block, NoMemory>
    ensures text { IfOk result (λ block. block ≡ summary_text plan.now log.now.items mesh.now) }
    ensures summary { IfOk result (IsSummary plan.now log.now.items mesh.now) }
{
    let places = places_of(alloc, log.entries())?;
    let tally = tally_of(log.entries(), places.as_slice(), plan.commands());
    let mut text = Text::new(alloc);
    add_count(&mut text, b"commands", plan.commands().len() as u128)?;
    add_tally(&mut text, &tally)?;
    add_count(&mut text, b"geoms", mesh.items().len() as u128)?;
    Ok(text.into_block())
}

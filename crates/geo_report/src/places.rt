//! Where the reply to each line stands in the log.
ghost use Rattle.std.specs.Prelude.{◌≡◌, ◌<◌, ◌≤◌, IfOk};
ghost use Rattle.std.specs.Option.{option_copied};
ghost use Rattle.geo_model.specs.Report.{reply_in, reply_from};
ghost use Rattle.geo_report.specs.Places.{ArePlaces, line_of, slots_after, slot, reply_at};

use geo_base::{MAX_SCRIPT_LINES, NoMemory};
use geo_model::{Entry, Outcome, Reply};
use std::alloc::Global;

/// The line that the entry gives a reply to.
fn line_of(entry: &Entry) -> Option<u32>
    ensures { result ≡ line_of entry.now }
{
    match &entry.outcome {
        Outcome::Replied { line, .. } => Some(*line),
        _ => None,
    }
}

/// The reply to a line, if the entry gives it.
fn reply_in(entry: &Entry, line: u32) -> Option<&Reply>
    ensures { option_copied result ≡ reply_in line entry.now.outcome }
{
    match &entry.outcome {
        Outcome::Replied { line: own, reply } => { if *own == line { Some(reply) } else { None } }
        _ => None,
    }
}

/// The place that is kept for a line.
#[tactic(auto, using(crate::proofs::PlaceLemmas::slot_here, crate::proofs::PlaceLemmas::slot_past))]
fn slot(places: &[Option<usize>], line: u32) -> Option<usize>
    ensures { result ≡ slot places.now line }
{
    match places.get(line as usize) {
        Some(place) => *place,
        None => None,
    }
}

/// Keeps the place of an entry where it gives the first reply to its line.
#[tactic(auto, unfolding(crate::specs::Places::slots_after))]
fn note(places: &mut Vec<Option<usize>>, place: usize, entry: &Entry)
    ensures { places.new.items ≡ slots_after places.old.items place entry.now }
{
    if let Some(line) = line_of(entry) {
        let line = line as usize;
        if line < places.len() && places[line].is_none() {
            places[line] = Some(place);
        }
    }
}

/// The place of the first reply to each line below `lines`, from one pass over the log.
#[tactic(auto, using(crate::proofs::PlaceLemmas::are_places))]
fn places_below(alloc: Global, log: &[Entry], lines: usize) -> Result<Vec<Option<usize>>, NoMemory>
    requires { MAX_SCRIPT_LINES < lines }
    ensures { IfOk result (λ found. ArePlaces log.now found.items) }
{
    let mut found: Vec<Option<usize>> = vec![in alloc; None; lines]?;
    for (place, entry) in log.iter().enumerate() {
        note(&mut found, place, entry);
    }
    Ok(found)
}

/// The place of the first reply to each line.
pub fn places_of(alloc: Global, log: &[Entry]) -> Result<Vec<Option<usize>>, NoMemory>
    ensures { IfOk result (λ found. ArePlaces log.now found.items) }
{
    places_below(alloc, log, MAX_SCRIPT_LINES as usize + 1)
}

/// The reply at a place.
fn reply_at(log: &[Entry], place: Option<usize>, line: u32) -> Option<&Reply>
    ensures { option_copied result ≡ reply_at log.now place line }
{
    match place {
        None => None,
        Some(place) => match log.get(place) {
            Some(entry) => reply_in(entry, line),
            None => None,
        },
    }
}

/// The first reply in the log to a line.
pub fn find_reply<'a>(log: &'a [Entry], places: &[Option<usize>], line: u32) -> Option<&'a Reply>
    requires places { ArePlaces log.now places.now }
    requires line { line ≤ MAX_SCRIPT_LINES }
    ensures { option_copied result ≡ reply_from log.now line }
{
    reply_at(log, slot(places, line), line)
}

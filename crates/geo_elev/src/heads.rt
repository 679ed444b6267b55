//! The heads of disks and what waits for them, kept beside a mesh.
ghost use Rattle.std.specs.Prelude.{◌≡◌, ◌≤◌, ℕ, List, IfOk, IfSome, IsTrue, length, take};
ghost use Rattle.geo_model.specs.declared.step.Entry.{Entry as EntryValue};
ghost use Rattle.geo_model.specs.declared.step.Step.TheVariants as steps;
ghost use Rattle.geo_model.specs.Words.{is_flush};
ghost use Rattle.geo_drain.specs.Meshes.{IsHistory, opened, world_of};
ghost use Rattle.geo_elev.specs.Following.{ComesAfter, Followed, Starts, TakesIfFollowed, heads_at, is_quiet, place_of};

use crate::disks::{DiskHead, asked, queued};
use crate::lists::Place;
use geo_base::{BioCmd, BioId, NoMemory};
use geo_drain::{Mesh, Spot};
use geo_model::{Entry, Outcome, Request, Step};

/// Follows an entry of the log; false, where what waits has to be gathered anew. On `NoMemory` the disks are as many.
pub fn follow(
    disks: &mut [DiskHead],
    mesh: &Mesh,
    entry: &Entry,
    is_last: bool,
) -> Result<bool, NoMemory>
    requires history { IsHistory mesh.now }
    ensures followed { IfOk result (λ b. (seen : List EntryValue) (n : ℕ)
        → ComesAfter mesh.now.log seen entry.now is_last → disks.old ≡ heads_at (opened mesh.now) seen n
        → Followed b (opened mesh.now) seen entry.now n disks.new) }
    ensures length { length disks.new ≡ length disks.old }
{
    if is_quiet(&entry.outcome) {
        return Ok(true);
    }
    match &entry.outcome {
        Outcome::Asked(request) => follow_take(disks, request, &entry.step),
        Outcome::Queued { disk } if is_last => follow_start(disks, mesh, *disk, &entry.step),
        _ => Ok(false),
    }
}

/// Follows the log from an entry on; false, where what waits has to be gathered anew. On `NoMemory` the disks are as
/// many.
pub fn follow_all(disks: &mut [DiskHead], mesh: &Mesh, noted: usize) -> Result<bool, NoMemory>
    requires { noted ≤ length mesh.now.log }
    ensures followed { IfOk result (λ b. (n : ℕ) → IsTrue b
        → disks.old ≡ heads_at (opened mesh.now) (take noted mesh.now.log) n
        → disks.new ≡ heads_at (opened mesh.now) mesh.now.log n) }
    ensures length { length disks.new ≡ length disks.old }
    ensures history { IsHistory mesh.now }
{
    let entries = mesh.log().entries();
    let mut at = noted;
    while at < entries.len() {
        if !follow(disks, mesh, &entries[at], at + 1 == entries.len())? {
            return Ok(false);
        }
        at += 1;
    }
    Ok(true)
}

// Whether an outcome neither asks a disk nor brings it a request.
fn is_quiet(outcome: &Outcome) -> bool
    ensures { result ≡ is_quiet outcome.now }
{
    !matches!(outcome, Outcome::Asked(_) | Outcome::Queued { .. })
}

// The bio of a Take.
fn taken(step: &Step) -> Option<BioId>
    ensures { IfSome result (λ b. (d : ℕ) × (step.now ≡ steps.Take d b)) }
{
    match step {
        Step::Take { bio, .. } => Some(*bio),
        _ => None,
    }
}

// The bio of a Start.
fn started(step: &Step) -> Option<BioId>
    ensures { IfSome result (λ b. step.now ≡ steps.Start b) }
{
    match step {
        Step::Start { bio } => Some(*bio),
        _ => None,
    }
}

// Follows a Take.
fn follow_take(disks: &mut [DiskHead], request: &Request, step: &Step) -> Result<bool, NoMemory>
    ensures takes { IfOk result (λ b. TakesIfFollowed b request.now step.now disks.old disks.new) }
    ensures length { length disks.new ≡ length disks.old }
{
    let Some(bio) = taken(step) else {
        return Ok(false);
    };
    asked(disks, request, bio)
}

// Follows a Start that is the last entry, which brings a disk a request.
fn follow_start(
    disks: &mut [DiskHead],
    mesh: &Mesh,
    disk: u32,
    step: &Step,
) -> Result<bool, NoMemory>
    ensures starts { IfOk result (λ b. Starts b (world_of mesh.now) disk step.now disks.old disks.new) }
    ensures length { length disks.new ≡ length disks.old }
{
    let Some(bio) = started(step) else {
        return Ok(false);
    };
    match mesh.sent(bio) {
        Some(spot) => {
            if spot.disk != disk {
                return Ok(false);
            }
            queued(disks, disk, bio, place_of(spot))
        }
        None => Ok(false),
    }
}

/// The place of a spot.
pub fn place_of(spot: Spot) -> Place
    ensures { result ≡ place_of spot }
{
    Place {
        flush: is_flush(spot.cmd),
        first: spot.first,
    }
}

// Whether a command is FLUSH.
fn is_flush(cmd: BioCmd) -> bool
    ensures { result ≡ is_flush cmd }
{
    matches!(cmd, BioCmd::Flush)
}

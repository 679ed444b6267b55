//! The sizes of the disks of a trace.
ghost use Rattle.std.specs.Prelude.{◌≡◌, ◌<◌, ◌≤◌, ◌+◌, ◌^◌, [], Ok, true, length, IfOk, MatchResult};
ghost use Rattle.geo_headline.specs.Outside.{is_shelf};
ghost use Rattle.geo_headline.specs.Traces.{parts_of};
ghost use Rattle.geo_verify.specs.Forms.{IsBehind, IsFormFault, ReadsSize, sizes_from};

use crate::cut::ended_line;
use crate::line::size_of_line;
use crate::place::Place;
use crate::refusal::VerifyRefusal;
use geo_log::DiskFacts;
use geo_model::{DiskDecl, DiskKind};

/// The sectors of a disk of the shelf, as a line tells them, and the place behind it.
fn read_shelf_size<'a>(disk: &DiskDecl, place: Place<'a>) -> Result<(u64, Place<'a>), VerifyRefusal>
    requires shelf { is_shelf disk.now.kind ≡ true }
    requires few { place.line + length place.text.now < 2 ^ 32 }
    ensures read { ReadsSize result disk.now place.entry }
    ensures behind { IfOk result (λ x. IsBehind x.1 place.entry) }
{
    let line = place.line;
    let Some((first, text)) = ended_line(place.text) else {
        return Err(VerifyRefusal::Trace { line });
    };
    match size_of_line(disk.sector, first) {
        Ok(sectors) => Ok((
            sectors,
            Place {
                line: line + 1,
                text,
            },
        )),
        Err(_) => Err(VerifyRefusal::Trace { line }),
    }
}

/// The sectors of a disk, and the place behind them: a memory disk has those of the plan, for one of the shelf a line
/// tells them.
fn read_size<'a>(disk: &DiskDecl, place: Place<'a>) -> Result<(u64, Place<'a>), VerifyRefusal>
    requires { place.line + length place.text.now < 2 ^ 32 }
    ensures read { ReadsSize result disk.now place.entry }
    ensures behind { IfOk result (λ x. IsBehind x.1 place.entry) }
{
    match disk.kind {
        DiskKind::Ram => Ok((disk.sectors, place)),
        DiskKind::Shelf => read_shelf_size(disk, place),
    }
}

/// Reads the sizes of disks, and gives the place behind them.
pub fn read_sizes<'a>(
    disks: &[DiskDecl],
    facts: &mut DiskFacts,
    place: Place<'a>,
) -> Result<Place<'a>, VerifyRefusal>
    requires few { place.line + length place.text.now < 2 ^ 32 }
    requires none { facts.old.items ≡ [] }
    requires room { length disks.now ≤ facts.old.spare }
    ensures read { MatchResult result
        (λ x. sizes_from place.entry disks.now
        ≡ Ok (record { facts = facts.new.items; line = x.line; rest = parts_of x.text.now }))
        (IsFormFault (sizes_from place.entry disks.now)) }
    ensures behind { IfOk result (λ x. IsBehind x place.entry) }
{
    let mut at = place;
    for disk in disks {
        let (sectors, behind) = read_size(disk, at)?;
        facts.push(disk.sector, sectors);
        at = behind;
    }
    Ok(at)
}

//! The last listing of a log that the client of the first actor was replied.
ghost use Rattle.std.specs.Prelude.{◌≡◌, IfSome, MatchOption};
ghost use Rattle.std.specs.Option.{option_copied};
ghost use Rattle.geo_headline.specs.Viewing.{shown, shown_of};
ghost use Rattle.geo_shown.specs.Shown.{IsListedAt, listing_by, listing_in, listing_of};

use geo_log::Log;
use geo_model::{Entry, MeshList, Outcome, Reply};
use geo_script::Plan;

/// The seat of the client of the first actor.
const FIRST_CLIENT: u32 = 1;

// The listing of a reply, if it is one.
fn listing_in(reply: &Reply) -> Option<&MeshList>
    ensures { option_copied result ≡ listing_in reply.now }
{
    match reply {
        Reply::Listing(list) => Some(list),
        _ => None,
    }
}

// The listing that an outcome replies.
fn listing_of(outcome: &Outcome) -> Option<&MeshList>
    ensures { option_copied result ≡ listing_of outcome.now }
{
    match outcome {
        Outcome::Replied { reply, .. } => listing_in(reply),
        _ => None,
    }
}

// The same of an entry of this seat.
fn listing_by(entry: &Entry, seat: u32) -> Option<&MeshList>
    ensures { option_copied result ≡ listing_by seat entry.now }
{
    if entry.seat == seat {
        listing_of(&entry.outcome)
    } else {
        None
    }
}

// The last listing of a seat, and how many entries there are up to it.
fn last_listing(entries: &[Entry], seat: u32) -> Option<(u64, &MeshList)>
    ensures number { MatchOption result (shown seat entries.now ≡ 0) (λ found. found.0 ≡ shown seat entries.now) }
    ensures listed { IfSome result (λ found. IsListedAt entries.now found.0 found.1.now) }
{
    let mut count = entries.len();
    while count > 0 {
        if let Some(list) = listing_by(&entries[count - 1], seat) {
            return Some((count as u64, list));
        }
        count -= 1;
    }
    None
}

/// The last listing that the client of the first actor was replied, and how many entries of the log there are up to
/// it; none where it was replied none, or where there is no actor. The log is searched from its end.
#[tactic(auto, using(crate::proofs::LastLemmas::shown_of_none, crate::proofs::LastLemmas::shown_of_some))]
pub fn last_shown<'a>(plan: &Plan, log: &'a Log) -> Option<(u64, &'a MeshList)>
    ensures number { MatchOption result (shown_of plan.now log.now.items ≡ 0)
        (λ found. found.0 ≡ shown_of plan.now log.now.items) }
    ensures listed { IfSome result (λ found. IsListedAt log.now.items found.0 found.1.now) }
{
    if plan.actors().is_empty() {
        None
    } else {
        last_listing(log.entries(), FIRST_CLIENT)
    }
}

//! Which bios wait for a step.
ghost use Rattle.std.specs.Prelude.{◌≡◌, ◌+◌, ◌<◌, ◌^◌, IsTrue, option_map};
ghost use Rattle.geo_bio.specs.BioTable.{AreInOrder, has_phase};
ghost use Rattle.geo_state.specs.Cursors.{is_due, others, first_from, IsCursor, with_one, with_last};

use geo_base::BioId;
use geo_bio::BioTable;
use geo_model::Phase;

/// The steps for which a bio waits in a phase of its own: Down, Sent and Up.
#[derive(Clone, Copy)]
pub enum Due {
    Start,
    Take,
    Up,
}

/// How many bios are in a phase, and the least number of one.
#[derive(Clone, Copy)]
pub struct Cursor {
    pub count: u64,
    pub first: Option<u64>,
}

// Whether the bio of a number is there, and waits for this step.
fn waits(bios: &BioTable, due: Due, bio: BioId) -> bool
    ensures waits { result ≡ has_phase (is_due due) bios.now.bios bio }
    ensures bound { bios.now.next < 2 ^ 64 }
{
    match bios.get(bio) {
        Some(found) => match (due, found.phase) {
            (Due::Start, Phase::Down) => true,
            (Due::Take, Phase::Sent) => true,
            (Due::Up, Phase::Up) => true,
            _ => false,
        },
        None => false,
    }
}

// The least number, from one on, of a bio that waits for this step.
fn next_due(bios: &BioTable, due: Due, low: u64) -> Option<u64>
    ensures { result ≡ first_from (is_due due) bios.now.bios low }
{
    let mut from = low;
    while let Some(bio) = bios.next_from(from) {
        if waits(bios, due, bio) {
            return Some(bio.number());
        }
        from = bio.number() + 1;
    }
    None
}

/// The cursor with one more bio, of this number.
pub fn with_one(cursor: Cursor, number: u64) -> Cursor
    requires { cursor.count + 1 < 2 ^ 64 }
    ensures { result ≡ with_one cursor number }
{
    Cursor {
        count: cursor.count + 1,
        first: match cursor.first {
            Some(first) => Some(first.min(number)),
            None => Some(number),
        },
    }
}

/// The cursor with so many more bios, whose numbers follow each other from one on that is above all others.
pub fn with_last(cursor: Cursor, number: u64, count: u64) -> Cursor
    requires { cursor.count + count < 2 ^ 64 }
    ensures { result ≡ with_last cursor number count }
{
    Cursor {
        count: cursor.count + count,
        first: match cursor.first {
            Some(first) => Some(first),
            None => Some(number),
        },
    }
}

/// The cursor without a bio that waits for this step. Where it was the first, the next one is looked for, unless
/// there is none.
pub fn without_one(cursor: Cursor, bios: &BioTable, due: Due, bio: BioId) -> Cursor
    requires in_order { AreInOrder bios.now }
    requires bound { bios.now.next < 2 ^ 64 }
    requires cursor { IsCursor (is_due due) bios.now.bios cursor }
    requires waits { IsTrue (has_phase (is_due due) bios.now.bios bio) }
    ensures { IsCursor (is_due due) (others bio bios.now.bios) result }
{
    let number = bio.number();
    let count = cursor.count - 1;
    if cursor.first != Some(number) {
        return Cursor {
            count,
            first: cursor.first,
        };
    }
    if count == 0 {
        return Cursor { count, first: None };
    }
    Cursor {
        count,
        first: next_due(bios, due, number + 1),
    }
}

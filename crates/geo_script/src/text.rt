//! The plan of a text.
ghost use Rattle.std.specs.Prelude.{◌≡◌, ◌<◌, ◌≤◌, ◌^◌, ◌∷◌, length, IfOk};
ghost use Rattle.geo_model.specs.Plans.{IsPlan};
ghost use Rattle.geo_model.specs.Script.{lines_of, script};
ghost use Rattle.geo_script.specs.Draft.{Parses};

use crate::draft::Draft;
use crate::line::add_line;
use crate::plan::Plan;
use crate::refusal::ParseRefusal;
use crate::words::find_byte;
use std::alloc::Global;

/// The first line of a text that isn't empty, and what stands behind its line feed.
pub fn first_line(text: &[u8]) -> (&[u8], &[u8])
    requires { 1 ≤ length text.now }
    ensures lines { lines_of text.now ≡ result.0.now ∷ lines_of result.1.now }
    ensures shorter { length result.1.now < length text.now }
    ensures not_long { length result.0.now ≤ length text.now }
{
    match find_byte(text, b'\n') {
        Some(at) => (&text[..at], &text[at + 1..]),
        None => (text, &text[text.len()..]),
    }
}

/// The plan of a text of fewer than 2^32 bytes. `Fault` exactly where the text isn't a script, with the first line
/// that is against the grammar and the first cause there. A line is passed over a fixed number of times, and none of
/// its words is copied but into the plan.
pub fn parse(alloc: Global, text: &[u8]) -> Result<Plan, ParseRefusal>
    requires { length text.now < 2 ^ 32 }
    ensures answer { Parses result (script text.now) }
    ensures plan { IfOk result IsPlan }
{
    let mut draft = Draft::new(alloc);
    let mut number = 0u32;
    let mut rest = text;
    while !rest.is_empty() {
        let (line, behind) = first_line(rest);
        number += 1;
        add_line(alloc, &mut draft, number, line)?;
        rest = behind;
    }
    Ok(draft.into_plan())
}

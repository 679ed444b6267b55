//! The lines that most steps have, each read in one pass: those of a Start, a Take and an Up.
ghost use Rattle.std.specs.Prelude.{◌≡◌, ◌++◌, Ok, IfSome, codes};
ghost use Rattle.geo_model.specs.declared.step.Step.TheVariants as steps;
ghost use Rattle.geo_model.specs.Script.{by_word, words_of};
ghost use Rattle.geo_headline.specs.Traces.{bio_words, marked, seat_and_step, step_table, take_words};
ghost use Rattle.geo_verify.specs.Shorts.{step_of};

use crate::number::{first_number, only_number};
use geo_base::BioId;
use geo_model::Step;

/// A Start, a Take or an Up. It is smaller than a step, so that it is moved by fewer instructions.
#[derive(Clone, Copy, Debug)]
pub enum Short {
    Start { bio: u64 },
    Take { disk: u32, bio: u64 },
    Up { bio: u64 },
}

/// It as a step.
pub fn step_of(short: Short) -> Step
    ensures { result ≡ step_of short }
{
    match short {
        Short::Start { bio } => Step::Start {
            bio: BioId::new(bio),
        },
        Short::Take { disk, bio } => Step::Take {
            disk,
            bio: BioId::new(bio),
        },
        Short::Up { bio } => Step::Up {
            bio: BioId::new(bio),
        },
    }
}

/// `BIO` behind `start`.
fn start(text: &[u8]) -> Option<Short>
    ensures { IfSome result (λ s. bio_words (λ b. steps.Start b) (words_of text.now) ≡ Ok (step_of s)) }
{
    match only_number(text) {
        Some(bio) => Some(Short::Start { bio }),
        None => None,
    }
}

/// `BIO` behind `up`.
fn up(text: &[u8]) -> Option<Short>
    ensures { IfSome result (λ s. bio_words (λ b. steps.Up b) (words_of text.now) ≡ Ok (step_of s)) }
{
    match only_number(text) {
        Some(bio) => Some(Short::Up { bio }),
        None => None,
    }
}

/// `DISK BIO` behind `take`.
fn take(text: &[u8]) -> Option<Short>
    ensures { IfSome result (λ s. take_words (words_of text.now) ≡ Ok (step_of s)) }
{
    let (disk, rest) = first_number(text)?;
    let bio = only_number(rest)?;
    if disk < 0x1_0000_0000 {
        Some(Short::Take {
            disk: disk as u32,
            bio,
        })
    } else {
        None
    }
}

/// What stands behind `start `.
fn behind_start(text: &[u8]) -> Option<&[u8]>
    ensures { IfSome result (λ rest. text.now ≡ codes "start " ++ rest.now) }
{
    match text {
        [b's', b't', b'a', b'r', b't', b' ', rest @ ..] => Some(rest),
        _ => None,
    }
}

/// What stands behind `take `.
fn behind_take(text: &[u8]) -> Option<&[u8]>
    ensures { IfSome result (λ rest. text.now ≡ codes "take " ++ rest.now) }
{
    match text {
        [b't', b'a', b'k', b'e', b' ', rest @ ..] => Some(rest),
        _ => None,
    }
}

/// What stands behind `up `.
fn behind_up(text: &[u8]) -> Option<&[u8]>
    ensures { IfSome result (λ rest. text.now ≡ codes "up " ++ rest.now) }
{
    match text {
        [b'u', b'p', b' ', rest @ ..] => Some(rest),
        _ => None,
    }
}

/// `STEP` behind a seat.
fn behind_seat(text: &[u8]) -> Option<Short>
    ensures { IfSome result (λ s. by_word step_table (words_of text.now) ≡ Ok (step_of s)) }
{
    if let Some(rest) = behind_start(text) {
        return start(rest);
    }
    if let Some(rest) = behind_take(text) {
        return take(rest);
    }
    if let Some(rest) = behind_up(text) {
        return up(rest);
    }
    None
}

/// `SEAT STEP` behind the mark.
fn seat_and_short(text: &[u8]) -> Option<(u32, Short)>
    ensures { IfSome result (λ x. seat_and_step (words_of text.now) ≡ Ok (x.0, step_of x.1)) }
{
    let (seat, rest) = first_number(text)?;
    let short = behind_seat(rest)?;
    if seat < 0x1_0000_0000 {
        Some((seat as u32, short))
    } else {
        None
    }
}

/// The step of a line, and the seat that made it, if the line has such a form with numbers of at most 18 digits. None
/// says nothing: such a line is read word by word.
pub fn short_of_line(line: &[u8]) -> Option<(u32, Short)>
    ensures { IfSome result (λ x. marked seat_and_step line.now ≡ Ok (x.0, step_of x.1)) }
{
    match line {
        [b'%', b' ', text @ ..] => seat_and_short(text),
        _ => None,
    }
}

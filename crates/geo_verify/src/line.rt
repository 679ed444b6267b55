//! The lines of a trace behind its script: each begins with the mark `%`.
ghost use Rattle.std.specs.Prelude.{◌≡◌, ◌<◌, ◌^◌, ◌∷◌, [], length, codes};
ghost use Rattle.geo_model.specs.Script.{by_word};
ghost use Rattle.geo_script.specs.Reads.{Reads};
ghost use Rattle.geo_headline.specs.Traces.{seat_and_step, marked, size_words, size_of_line};

use crate::step::step;
use geo_base::MAX_IMAGE_BYTES;
use geo_model::{Cause, Step};
use geo_script::{LineRefusal, Words, any_number, at_end, next_word, small_number};
use std::alloc::Global;

/// `SEAT STEP`.
fn seat_and_step(alloc: Global, words: Words<'_>) -> Result<(u32, Step), LineRefusal>
    ensures { Reads result (seat_and_step words.entry) }
{
    let (seat, words) = small_number(words)?;
    let step = step(alloc, words)?;
    Ok((seat, step))
}

/// What stands behind the first word of the line of a step, if that is the mark.
fn step_behind(alloc: Global, word: &[u8], words: Words<'_>) -> Result<(u32, Step), LineRefusal>
    ensures { Reads result (by_word ((codes "%", seat_and_step) ∷ []) (word.now ∷ words.entry)) }
{
    if b"%".as_slice() == word {
        seat_and_step(alloc, words)
    } else {
        Err(LineRefusal::Fault(Cause::Word))
    }
}

/// `% SEAT STEP`: a step, and the seat that made it.
pub fn step_of_line(alloc: Global, line: &[u8]) -> Result<(u32, Step), LineRefusal>
    requires { length line.now < 2 ^ 32 }
    ensures { Reads result (marked seat_and_step line.now) }
{
    let (word, words) = next_word(Words::of(line))?;
    step_behind(alloc, word, words)
}

/// The sectors of a disk with this sector size in bytes.
fn size(sector: u32, words: Words<'_>) -> Result<u64, Cause>
    ensures { result ≡ size_words sector words.entry }
{
    let (sectors, words) = any_number(words)?;
    if 1 <= sectors && u128::from(sectors) * u128::from(sector) <= u128::from(MAX_IMAGE_BYTES) {
        at_end(sectors, words)
    } else {
        Err(Cause::Range)
    }
}

/// What stands behind the mark, if its first word is `disk`.
fn size_by(sector: u32, word: &[u8], words: Words<'_>) -> Result<u64, Cause>
    ensures { result ≡ by_word ((codes "disk", size_words sector) ∷ []) (word.now ∷ words.entry) }
{
    if b"disk".as_slice() == word {
        size(sector, words)
    } else {
        Err(Cause::Word)
    }
}

/// What stands behind the mark.
fn disk(sector: u32, words: Words<'_>) -> Result<u64, Cause>
    ensures { result ≡ by_word ((codes "disk", size_words sector) ∷ []) words.entry }
{
    let (word, words) = next_word(words)?;
    size_by(sector, word, words)
}

/// What stands behind the first word of the line of a size, if that is the mark.
fn size_behind(sector: u32, word: &[u8], words: Words<'_>) -> Result<u64, Cause>
    ensures { result
        ≡ by_word ((codes "%", by_word ((codes "disk", size_words sector) ∷ [])) ∷ []) (word.now ∷ words.entry) }
{
    if b"%".as_slice() == word {
        disk(sector, words)
    } else {
        Err(Cause::Word)
    }
}

/// `% disk SECTORS`: the sectors of a disk of the shelf with this sector size in bytes.
pub fn size_of_line(sector: u32, line: &[u8]) -> Result<u64, Cause>
    requires { length line.now < 2 ^ 32 }
    ensures { result ≡ size_of_line sector line.now }
{
    let (word, words) = next_word(Words::of(line))?;
    size_behind(sector, word, words)
}

//! The forms of steps: one function for each, from the words behind its name.
ghost use Rattle.std.specs.Prelude.{◌≡◌, ◌∷◌};
ghost use Rattle.geo_model.specs.declared.step.Step.TheVariants as steps;
ghost use Rattle.geo_model.specs.Script.{by_word};
ghost use Rattle.geo_script.specs.Reads.{Reads};
ghost use Rattle.geo_headline.specs.Traces.{step_table, go_words, bio_words, take_words, deliver_words};
ghost use Rattle.geo_verify.specs.Tables.{bio_steps};

use crate::answer::answer;
use geo_base::BioId;
use geo_model::{Cause, Step};
use geo_script::{LineRefusal, Words, any_number, at_end, next_word, small_number};
use std::alloc::Global;

/// A step, or the fault of its line.
fn or_fault(read: Result<Step, Cause>) -> Result<Step, LineRefusal>
    ensures { Reads result read }
{
    Ok(read?)
}

/// `go ACTOR`.
fn go(words: Words<'_>) -> Result<Step, Cause>
    ensures { result ≡ go_words words.entry }
{
    let (actor, words) = small_number(words)?;
    at_end(Step::Go { actor }, words)
}

/// `start BIO`.
fn start(words: Words<'_>) -> Result<Step, Cause>
    ensures { result ≡ bio_words (λ b. steps.Start b) words.entry }
{
    let (bio, words) = any_number(words)?;
    at_end(
        Step::Start {
            bio: BioId::new(bio),
        },
        words,
    )
}

/// `take DISK BIO`.
fn take(words: Words<'_>) -> Result<Step, Cause>
    ensures { result ≡ take_words words.entry }
{
    let (disk, words) = small_number(words)?;
    let (bio, words) = any_number(words)?;
    at_end(
        Step::Take {
            disk,
            bio: BioId::new(bio),
        },
        words,
    )
}

/// `deliver BIO ANSWER`.
fn deliver(alloc: Global, words: Words<'_>) -> Result<Step, LineRefusal>
    ensures { Reads result (deliver_words words.entry) }
{
    let (bio, words) = any_number(words)?;
    let got = answer(alloc, words)?;
    Ok(Step::Deliver {
        bio: BioId::new(bio),
        got,
    })
}

/// `up BIO`.
fn up(words: Words<'_>) -> Result<Step, Cause>
    ensures { result ≡ bio_words (λ b. steps.Up b) words.entry }
{
    let (bio, words) = any_number(words)?;
    at_end(
        Step::Up {
            bio: BioId::new(bio),
        },
        words,
    )
}

/// A step with this name, from the words behind it.
fn step_by(alloc: Global, name: &[u8], words: Words<'_>) -> Result<Step, LineRefusal>
    ensures { Reads result (by_word step_table (name.now ∷ words.entry)) }
{
    if b"go".as_slice() == name {
        or_fault(go(words))
    } else if b"event".as_slice() == name {
        or_fault(at_end(Step::Event, words))
    } else if b"judge".as_slice() == name {
        or_fault(at_end(Step::Judge, words))
    } else if b"reap".as_slice() == name {
        or_fault(at_end(Step::Reap, words))
    } else if b"wash".as_slice() == name {
        or_fault(at_end(Step::Wash, words))
    } else {
        bio_step_by(alloc, name, words)
    }
}

/// A step of a bio with this name, from the words behind it.
fn bio_step_by(alloc: Global, name: &[u8], words: Words<'_>) -> Result<Step, LineRefusal>
    ensures { Reads result (by_word bio_steps (name.now ∷ words.entry)) }
{
    if b"start".as_slice() == name {
        or_fault(start(words))
    } else if b"take".as_slice() == name {
        or_fault(take(words))
    } else if b"deliver".as_slice() == name {
        deliver(alloc, words)
    } else if b"up".as_slice() == name {
        or_fault(up(words))
    } else {
        Err(LineRefusal::Fault(Cause::Word))
    }
}

/// The step that stands behind a seat.
pub fn step(alloc: Global, words: Words<'_>) -> Result<Step, LineRefusal>
    ensures { Reads result (by_word step_table words.entry) }
{
    let (name, words) = next_word(words)?;
    step_by(alloc, name, words)
}

//! The answers of devices, from the words behind a bio.
ghost use Rattle.std.specs.Prelude.{◌≡◌, ◌∷◌};
ghost use Rattle.geo_model.specs.Script.{by_word};
ghost use Rattle.geo_script.specs.Reads.{Reads};
ghost use Rattle.geo_headline.specs.Traces.{answer_table, failed_words, bytes_words};

use geo_model::{Cause, DeviceResult};
use geo_script::{LineRefusal, Words, at_end, next_word, runs, small_number};
use std::alloc::Global;

/// An answer, or the fault of its line.
fn or_fault(read: Result<DeviceResult, Cause>) -> Result<DeviceResult, LineRefusal>
    ensures { Reads result read }
{
    Ok(read?)
}

/// `failed N`.
fn failed(words: Words<'_>) -> Result<DeviceResult, Cause>
    ensures { result ≡ failed_words words.entry }
{
    let (done, words) = small_number(words)?;
    at_end(DeviceResult::Failed { done }, words)
}

/// `bytes RUNS`.
fn bytes(alloc: Global, words: Words<'_>) -> Result<DeviceResult, LineRefusal>
    ensures { Reads result (bytes_words words.entry) }
{
    let bytes = runs(alloc, words)?;
    Ok(DeviceResult::Bytes(bytes))
}

/// An answer with this name, from the words behind it.
fn answer_by(alloc: Global, name: &[u8], words: Words<'_>) -> Result<DeviceResult, LineRefusal>
    ensures { Reads result (by_word answer_table (name.now ∷ words.entry)) }
{
    if b"done".as_slice() == name {
        or_fault(at_end(DeviceResult::Done, words))
    } else if b"failed".as_slice() == name {
        or_fault(failed(words))
    } else if b"bytes".as_slice() == name {
        bytes(alloc, words)
    } else {
        Err(LineRefusal::Fault(Cause::Word))
    }
}

/// A device's answer.
pub fn answer(alloc: Global, words: Words<'_>) -> Result<DeviceResult, LineRefusal>
    ensures { Reads result (by_word answer_table words.entry) }
{
    let (name, words) = next_word(words)?;
    answer_by(alloc, name, words)
}

//! The words of a line, and the readers of one word. Each gives its value and the words that are left.
ghost use Rattle.std.specs.Prelude.{◌≡◌, ◌==◌, ◌<◌, ◌^◌, ◌∷◌, IfSome, length, position};
ghost use Rattle.geo_script.specs.WordsLeft.{words_left, IsShort};
ghost use Rattle.geo_model.specs.Script.{words_of, short_name, long_name, next_word, at_end, runs_words, long_names};
ghost use Rattle.geo_script.specs.Reads.{ReadsWord, ReadsLast};

use crate::refusal::LineRefusal;
use geo_base::{MAX_COMPONENTS, Name, RunsRefusal, SharedBytes, read_runs};
use geo_model::{Cause, NameList};
use memchr::memchr;
use std::alloc::Global;
use std::marker::Model;

/// The words that are left of a line, which contracts see as their list. The line isn't copied.
#[derive(Debug, Drop)]
pub struct Words<'a> {
    rest: Option<&'a [u8]>,
}

impl<'a> Model for Words<'a> {
    ghost use Rattle.std.specs.Prelude.{ℕ, List};
    ghost use Rattle.geo_script.specs.WordsLeft.{words_left, IsShort};

    ghost Value = { List (List ℕ) };

    ghost view = { λ words. words_left words.rest };

    ghost invariant = { λ words. IsShort words.rest };
}

impl<'a> Words<'a> {
    /// The words of a line, between single spaces.
    pub fn of(line: &'a [u8]) -> Words<'a>
        requires { length line.now < 2 ^ 32 }
        ensures { result ≡ words_of line.now }
    {
        Words { rest: Some(line) }
    }

    /// Whether no word is left.
    pub fn is_empty(&self) -> bool
        ensures { result ≡ (length self.now == 0) }
    {
        self.rest.is_none()
    }
}

/// The place of the first such byte.
pub fn find_byte(bytes: &[u8], byte: u8) -> Option<usize>
    ensures place { result ≡ position (λ b. b == byte) bytes.now }
    ensures inside { IfSome result (λ at. at < length bytes.now) }
{
    memchr(byte, bytes)
}

/// The next word, and the words behind it.
pub fn next_word<'a>(words: Words<'a>) -> Result<(&'a [u8], Words<'a>), Cause>
    ensures { ReadsWord result (next_word words.entry) }
{
    let Some(line) = words.rest else {
        return Err(Cause::Words);
    };
    match find_byte(line, b' ') {
        Some(at) => {
            let rest = Some(&line[at + 1..]);
            Ok((&line[..at], Words { rest }))
        }
        None => Ok((line, Words { rest: None })),
    }
}

/// A name of 1 to 16 letters, digits, `_` and `-`.
pub fn short_name<'a>(words: Words<'a>) -> Result<(Name, Words<'a>), Cause>
    ensures { result ≡ short_name words.entry }
{
    let (word, words) = next_word(words)?;
    let Ok(name) = Name::new(word) else {
        return Err(Cause::Name);
    };
    if name.is_short() {
        Ok((name, words))
    } else {
        Err(Cause::Name)
    }
}

/// A name of 1 to 63 letters, digits, `_`, `-`, `.` and `/`.
pub fn long_name<'a>(words: Words<'a>) -> Result<(Name, Words<'a>), Cause>
    ensures { result ≡ long_name words.entry }
{
    let (word, words) = next_word(words)?;
    match Name::new(word) {
        Ok(name) => Ok((name, words)),
        Err(_) => Err(Cause::Name),
    }
}

/// The value, if no word is left over.
pub fn at_end<A: Drop>(value: A, words: Words<'_>) -> Result<A, Cause>
    ensures { result ≡ at_end value words.entry }
{
    match words.rest {
        None => Ok(value),
        Some(_) => Err(Cause::Words),
    }
}

/// The bytes of the runs that stand to the end of the line. They are shared, so that a request has no copy of them.
pub fn runs(alloc: Global, words: Words<'_>) -> Result<SharedBytes, LineRefusal>
    ensures { ReadsLast result (runs_words words.entry) }
{
    let Some(text) = words.rest else {
        return Err(LineRefusal::Fault(Cause::Words));
    };
    match read_runs(alloc, text) {
        Ok(bytes) => Ok(SharedBytes::from_block(bytes).share(alloc)),
        Err(RunsRefusal::At { .. }) => Err(LineRefusal::Fault(Cause::Runs)),
        Err(RunsRefusal::NoMemory) => Err(LineRefusal::NoMemory),
    }
}

/// The names of components that stand to the end of the line: 1 to 16.
pub fn long_names(alloc: Global, words: Words<'_>) -> Result<NameList, LineRefusal>
    ensures { ReadsLast result (long_names words.entry) }
{
    let (first, mut words) = long_name(words)?;
    let mut names = Vec::new(alloc);
    names.push(first)?;
    while !words.is_empty() && names.len() < MAX_COMPONENTS {
        let (name, rest) = long_name(words)?;
        names.push(name)?;
        words = rest;
    }
    Ok(at_end(NameList::from_vec(names), words)?)
}

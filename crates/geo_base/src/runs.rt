//! Texts of bytes: runs `BB*N`, one for each stretch of equal bytes, with a space between.
ghost use Rattle.std.specs.Prelude.{◌≡◌, ◌+◌, ◌++◌, ◌≤◌, ◌<◌, ◌^◌, ◌==◌, length, replicate, IfOk, OnOk, IfSome, MatchOption, MatchResult, None, Some, List, ℕ};
ghost use Rattle.geo_base.specs.Runs.{hex_digit, run_text, runs_text, IsRuns, IsRunsRefusal};
ghost use Rattle.geo_base.specs.RunsReader.{IsPlace, last_of, hex_digit_value, byte_place, times_place, ended_run, read_one_more};

use crate::block::{Block, NoMemory};
use crate::limits::MAX_RUNS_BYTES;
use std::alloc::Global;
use thiserror::Error;

/// Why a text of runs isn't read.
#[derive(Clone, Copy, Debug, PartialEq, Eq, Error)]
pub enum RunsRefusal {
    /// It isn't one of runs: so many bytes at its front, and no more, begin one.
    #[error("not a text of runs from byte {at} on")]
    At { at: u32 },
    #[error("out of memory")]
    NoMemory,
}

impl From<NoMemory> for RunsRefusal {
    ghost use Rattle.geo_base.specs.declared.runs.RunsRefusal.{RunsRefusal};
    ghost use Rattle.geo_base.specs.declared.runs.RunsRefusal.TheVariants.{NoMemory as out_of_memory};

    ghost from_gives = { λ _ refusal. refusal ≡ out_of_memory };

    fn from(_error: NoMemory) -> RunsRefusal {
        RunsRefusal::NoMemory
    }
}

/// The digit of a number below 16, in lower case.
fn hex_digit(n: u8) -> u8
    requires { n < 16 }
    ensures { result ≡ hex_digit n }
{
    if n < 10 { b'0' + n } else { b'a' + (n - 10) }
}

/// Writes the run of a byte behind the text.
fn push_run(alloc: Global, text: &mut Vec<u8>, byte: u8, times: u32) -> Result<(), NoMemory>
    ensures { OnOk result (text.new.items ≡ text.old.items ++ run_text (record { byte = byte; times = times })) }
{
    text.extend_from_slice(&[hex_digit(byte / 16), hex_digit(byte % 16), b'*'])?;
    text.extend_from_slice(times.to_string(alloc)?.as_bytes())?;
    Ok(())
}

/// The one text of 1 to `MAX_RUNS_BYTES` bytes.
pub fn runs_text(alloc: Global, bytes: &[u8]) -> Result<Block, NoMemory>
    requires some_byte { 1 ≤ length bytes.now }
    requires not_long { length bytes.now ≤ MAX_RUNS_BYTES }
    ensures { IfOk result (λ block. block ≡ runs_text bytes.now) }
{
    let mut text: Vec<u8> = Vec::new(alloc);
    let mut byte = bytes[0];
    let mut times = 0u32;
    for next in bytes {
        if *next == byte {
            times += 1;
        } else {
            push_run(alloc, &mut text, byte, times)?;
            text.push(b' ')?;
            byte = *next;
            times = 1;
        }
    }
    push_run(alloc, &mut text, byte, times)?;
    Ok(Block::from_vec(text))
}

/// Where a reader of runs stands, behind the bytes that it took.
#[derive(Clone, Copy, Debug, PartialEq, Eq)]
enum Place {
    /// Before a run.
    Start,
    /// Behind the first digit of a byte.
    High(u8),
    /// Behind a byte.
    Byte(u8),
    /// Behind the star and digits of a number, which is 0 where none stands.
    Times(u8, u32),
}

/// What a hexadecimal digit in lower case is worth.
#[tactic(auto, unfolding(crate::specs::RunsReader::hex_digit_value))]
fn hex_value(b: u8) -> Option<u8>
    ensures value { result ≡ hex_digit_value b }
    ensures below { IfSome result (λ n. n < 16) }
{
    match b {
        b'0'..=b'9' => Some(b - b'0'),
        b'a'..=b'f' => Some(b - b'a' + 10),
        _ => None,
    }
}

/// Whether the last byte is this one.
fn ends_with(bytes: &[u8], byte: u8) -> bool
    ensures { result ≡ (last_of bytes.now == byte) }
{
    match bytes.last() {
        Some(last) => *last == byte,
        None => false,
    }
}

/// The place behind the second digit of a byte, which differs from the byte of the run before.
#[tactic(auto, unfolding(crate::specs::RunsReader::byte_place))]
fn byte_place(bytes: &[u8], high: u8, low: Option<u8>) -> Option<Place>
    requires high_digit { high < 16 }
    requires low_digit { IfSome low (λ n. n < 16) }
    ensures { result ≡ byte_place bytes.now high low }
{
    let byte = 16 * high + low?;
    if ends_with(bytes, byte) {
        None
    } else {
        Some(Place::Byte(byte))
    }
}

/// The place behind a digit of the number. It isn't 0, nor are there more bytes than may stand.
#[tactic(auto, unfolding(crate::specs::RunsReader::times_place))]
fn times_place(bytes: &[u8], byte: u8, times: u32, b: u8) -> Option<Place>
    ensures { result ≡ times_place bytes.now byte times b }
{
    if b < b'0' || b > b'9' {
        return None;
    }
    let more = times as usize * 10 + (b - b'0') as usize;
    if 1 <= more && more <= MAX_RUNS_BYTES && bytes.len() <= MAX_RUNS_BYTES - more {
        Some(Place::Times(byte, more as u32))
    } else {
        None
    }
}

/// The run ends, and its bytes stand behind the others: there is one, and one more may stand.
#[tactic(auto, unfolding(crate::specs::RunsReader::ended_run))]
fn end_run(bytes: &mut Vec<u8>, byte: u8, times: u32) -> Result<Option<Place>, NoMemory>
    ensures { IfOk result
        (λ place. MatchOption place (ended_run bytes.old.items byte times ≡ None)
        (λ place. ended_run bytes.old.items byte times
        ≡ Some (record { place = place; bytes = bytes.new.items }))) }
{
    let times = times as usize;
    if times < 1 || MAX_RUNS_BYTES <= times || MAX_RUNS_BYTES - times <= bytes.len() {
        return Ok(None);
    }
    push_bytes(bytes, byte, times)?;
    Ok(Some(Place::Start))
}

/// The byte stands so many times more behind the others.
fn push_bytes(bytes: &mut Vec<u8>, byte: u8, times: usize) -> Result<(), NoMemory>
    requires { times + length bytes.old.items ≤ MAX_RUNS_BYTES }
    ensures { OnOk result (bytes.new.items ≡ bytes.old.items ++ replicate times byte) }
{
    bytes.resize(bytes.len() + times, byte)?;
    Ok(())
}

/// The place behind one byte more, if a text of runs goes on so. The bytes of a run that ends are kept.
#[tactic(auto, unfolding(crate::specs::RunsReader::read_one_more))]
fn read_on(bytes: &mut Vec<u8>, place: Place, b: u8) -> Result<Option<Place>, NoMemory>
    requires { IsPlace place }
    ensures { IfOk result
        (λ found. MatchOption found (read_one_more place bytes.old.items b ≡ None)
        (λ next. read_one_more place bytes.old.items b ≡ Some (record { place = next; bytes = bytes.new.items }))) }
{
    match place {
        Place::Times(byte, times) if b == b' ' => end_run(bytes, byte, times),
        Place::Times(byte, times) => Ok(times_place(bytes.as_slice(), byte, times, b)),
        Place::Start => Ok(hex_value(b).map(Place::High)),
        Place::High(high) => Ok(byte_place(bytes.as_slice(), high, hex_value(b))),
        Place::Byte(byte) => Ok(if b == b'*' {
            Some(Place::Times(byte, 0))
        } else {
            None
        }),
    }
}

/// The bytes of a text of runs, which has fewer than 2^32 bytes. `At` says where a text isn't one: `at` is the length
/// of its longest front with which a text of runs may begin.
pub fn read_runs(alloc: Global, text: &[u8]) -> Result<Block, RunsRefusal>
    requires { length text.now < 2 ^ 32 }
    ensures { MatchResult result (λ block. IsRuns text.now block) (IsRunsRefusal text.now) }
{
    let mut bytes: Vec<u8> = Vec::new(alloc);
    let mut place = Place::Start;
    for (at, b) in text.iter().enumerate() {
        match read_on(&mut bytes, place, *b)? {
            Some(next) => place = next,
            None => return Err(RunsRefusal::At { at: at as u32 }),
        }
    }
    match place {
        Place::Times(byte, times) if 1 <= times => {
            push_bytes(&mut bytes, byte, times as usize)?;
            Ok(Block::from_vec(bytes))
        }
        _ => Err(RunsRefusal::At {
            at: text.len() as u32,
        }),
    }
}

/// A text of runs stands for one list of bytes.
pub fn runs_have_one_reading(text: &[u8], bytes: &[u8], others: &[u8])
    requires reading { IsRuns text.now bytes.now }
    requires another { IsRuns text.now others.now }
    ensures { bytes.now ≡ others.now }
{}

/// The text of 1 to `MAX_RUNS_BYTES` bytes is one of runs, and stands for them alone: what reads it gives them back.
pub fn runs_are_read_back(bytes: &[u8])
    requires some_byte { 1 ≤ length bytes.now }
    requires not_long { length bytes.now ≤ MAX_RUNS_BYTES }
    ensures read { IsRuns (runs_text bytes.now) bytes.now }
    ensures alone { (others : List ℕ) → IsRuns (runs_text bytes.now) others → others ≡ bytes.now }
{}

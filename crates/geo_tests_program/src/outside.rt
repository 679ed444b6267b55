//! Runs of the program over an outside in memory: what it reads, what it writes, and its disks.
ghost use Rattle.std.specs.Prelude.{◌≡◌, [], IfOk, OnOk};

use crate::contents::{Failures, failures_of};
use geo_base::{Block, Calls, Name, NoMemory};
use geo_disk::MemShelf;
use geo_io::{MemSink, MemSource};
use geo_run::{Ended, Gate, OpenGate, run_alone, threads_of};
use std::alloc::Global;
use std::process::Abort;
use std::sync::Wait;
use std::test::Fail;
use std::thread::Threads;

/// Room for each report.
const ROOM: u32 = 4096;

/// What is outside of the program. It is dropped by a call.
#[derive(Drop)]
pub struct Outside {
    pub source: MemSource,
    pub sink: MemSink,
    pub shelf: MemShelf,
}

/// Why an outside couldn't be made.
#[derive(Clone, Copy, Debug, PartialEq, Eq)]
pub enum Unready {
    NoMemory,
    NameTaken,
}

impl From<NoMemory> for Unready {
    fn from(_error: NoMemory) -> Unready {
        Unready::NoMemory
    }
}

/// The name of these bytes.
pub fn name(bytes: &[u8]) -> Result<Name, Fail> {
    Ok(Name::new(bytes).ok().ok_or("not a name")?)
}

/// A source of a script, a sink with room for each report, and a shelf without disks. No call is to fail.
pub fn outside_of(alloc: Global, script: &[u8]) -> Result<Outside, Unready>
    ensures { IfOk result (λ o. o.shelf.loans.lent ≡ []) }
{
    let text = Block::from_slice(alloc, script)?;
    match MemSink::new(alloc, ROOM, ROOM, Calls::none(alloc)) {
        Ok(sink) => Ok(Outside {
            source: MemSource::new(text, ROOM, Calls::none(alloc)),
            sink,
            shelf: MemShelf::new(alloc),
        }),
        Err(error) => {
            drop(text);
            Err(error.into())
        }
    }
}

/// Puts a disk on a shelf of which none is lent.
pub fn put(shelf: &mut MemShelf, name: &Name, bytes: Block, fails: Calls) -> Result<(), Unready>
    requires { shelf.old.loans.lent ≡ [] }
    ensures { OnOk result (shelf.new.loans.lent ≡ []) }
{
    if shelf.bytes_of(name).is_some() {
        drop(bytes);
        drop(fails);
        return Err(Unready::NameTaken);
    }
    shelf.put(name, bytes, fails)?;
    Ok(())
}

/// Puts a disk of which these calls fail on a shelf of which none is lent.
pub fn put_failing(
    alloc: Global,
    shelf: &mut MemShelf,
    name: &Name,
    bytes: Block,
    calls: &[u64],
) -> Result<(), Unready>
    requires { shelf.old.loans.lent ≡ [] }
{
    match Calls::of(alloc, calls) {
        Ok(fails) => put(shelf, name, bytes, fails),
        Err(error) => {
            drop(bytes);
            Err(error.into())
        }
    }
}

// Puts a word behind others, if there is memory for it.
fn push_word(alloc: Global, words: &mut Vec<String>, word: &str) -> Option<()> {
    words.push(String::from_str(alloc, word).ok()?).ok()
}

// The words of the program.
fn words_of(alloc: Global, texts: &[&str]) -> Option<Vec<String>> {
    let mut words = Vec::new(alloc);
    for text in texts {
        push_word(alloc, &mut words, text)?;
    }
    Some(words)
}

// The run of the words.
fn run_words(rt: &impl Abort, alloc: Global, words: &[String], outside: &mut Outside) -> Ended {
    let None = threads_of(words) else {
        panic!(rt; "the words start threads")
    };
    run_alone(
        alloc,
        words,
        &mut outside.source,
        &mut outside.sink,
        &mut outside.shelf,
    )
}

// The run of words that start no thread, or none where there is no memory for the words.
fn run_on(rt: &impl Abort, alloc: Global, texts: &[&str], outside: &mut Outside) -> Option<Ended> {
    let words = words_of(alloc, texts)?;
    let ended = run_words(rt, alloc, words.as_slice(), outside);
    drop(words);
    Some(ended)
}

/// The run of the script, or none where there is no memory for the words. What it answers is dropped by a call.
pub fn run(rt: &impl Abort, alloc: Global, outside: &mut Outside) -> Option<Ended> {
    run_on(rt, alloc, &["step"], outside)
}

// The run of the word in threads that the gate may hold, or none where there is no memory for the words.
fn run_threads<R: Threads + Wait + Sync + AllocGlobal, G: Gate + Sync>(
    rt: &R,
    word: &str,
    outside: &mut Outside,
    gate: &G,
) -> Option<Ended> {
    let words = words_of(rt.alloc(), &[word])?;
    let ended = geo_run::run(
        rt,
        words.as_slice(),
        &mut outside.source,
        &mut outside.sink,
        &mut outside.shelf,
        gate,
    );
    drop(words);
    Some(ended)
}

/// The same in threads that show the mesh.
pub fn watch<R: Threads + Wait + Sync + AllocGlobal>(
    rt: &R,
    outside: &mut Outside,
) -> Option<Ended> {
    run_threads(rt, "watch", outside, &OpenGate)
}

/// The end of a run: its status, whether its mesh opened, and the failures of disks in its log.
#[derive(Clone, Copy, Debug, PartialEq, Eq)]
pub struct End {
    pub status: u8,
    pub opened: bool,
    pub failures: Failures,
}

// The end of a run, whose log is dropped.
fn end_of(ended: Ended) -> End {
    let end = End {
        status: ended.status,
        opened: ended.log.is_some(),
        failures: failures_of(&ended.log),
    };
    drop(ended);
    end
}

/// The end of the run of words that start no thread, or none where there is no memory for the words.
pub fn run_to_end_on(
    rt: &impl Abort,
    alloc: Global,
    texts: &[&str],
    outside: &mut Outside,
) -> Option<End> {
    match run_on(rt, alloc, texts, outside) {
        Some(ended) => Some(end_of(ended)),
        None => None,
    }
}

/// The end of the run of the script, or none where there is no memory for the words.
pub fn run_to_end(rt: &impl Abort, alloc: Global, outside: &mut Outside) -> Option<End> {
    match run(rt, alloc, outside) {
        Some(ended) => Some(end_of(ended)),
        None => None,
    }
}

/// The same of a run in threads that the gate may hold.
pub fn run_threads_to_end<R: Threads + Wait + Sync + AllocGlobal, G: Gate + Sync>(
    rt: &R,
    outside: &mut Outside,
    gate: &G,
) -> Option<End> {
    match run_threads(rt, "run", outside, gate) {
        Some(ended) => Some(end_of(ended)),
        None => None,
    }
}

/// What is behind the front of a text, if it has this front.
pub fn behind<'a>(text: &'a [u8], front: &[u8]) -> Option<&'a [u8]> {
    if text.len() < front.len() || &text[..front.len()] != front {
        return None;
    }
    Some(&text[front.len()..])
}

/// What was written is these two parts. The case is told where it isn't.
pub fn says(rt: &impl Abort, outside: &Outside, front: &[u8], told: &[u8], case: u64) {
    match behind(outside.sink.written(), front) {
        Some(behind) => assert_eq!(rt; behind, told, "case {case}"),
        None => panic!(rt; "another text in case {case}"),
    }
}

//! The words of the program.
ghost use Rattle.std.specs.Prelude.{◌≡◌, ◌↔◌, [], ◌∷◌, IsTrue, codes, string_bytes};
ghost use Rattle.geo_run.specs.Numbers.{IsNumberWithin, IsPlain};
ghost use Rattle.geo_run.specs.Work.{AsksCount, AsksFor, AsksThreaded, word_bytes};

use geo_base::{MAX_DRAWN_LINES, MAX_START};

/// What the words ask for.
#[derive(Clone, Copy, Debug, PartialEq, Eq)]
pub enum Work {
    /// Run the script that the source gives.
    Step,
    /// Run the script that is made from the number `start`, with `count` lines that are drawn.
    Generate { start: u32, count: u32 },
    /// Run the script that the source gives, in the elevator order.
    Sweep,
    /// Say what is found of the trace that the source gives.
    Verify,
}

/// Whether no plus and no zero stands before other bytes.
fn is_plain(word: &[u8]) -> bool
    ensures { IsTrue result ↔ IsPlain word.now }
{
    match word {
        [b'+', ..] => false,
        [b'0', _, ..] => false,
        _ => true,
    }
}

/// The number that the word is written as, in decimal without a zero in front, if it isn't above the limit.
fn number_within(word: &str, limit: u32) -> Option<u32>
    ensures { IsNumberWithin limit word.now result }
{
    if !is_plain(word.as_bytes()) {
        return None;
    }
    match word.parse::<u32>() {
        Ok(number) => { if number <= limit { Some(number) } else { None } }
        Err(_) => None,
    }
}

/// The same of a word of the program.
fn number_in(word: &String, limit: u32) -> Option<u32>
    ensures { IsNumberWithin limit (string_bytes word.now) result }
{
    number_within(word.as_str(), limit)
}

/// What COUNT asks for behind START.
fn counted(start: u32, count: &String) -> Option<Work>
    ensures { AsksCount start (string_bytes count.now) result }
{
    match number_in(count, MAX_DRAWN_LINES) {
        None => None,
        Some(count) => Some(Work::Generate { start, count }),
    }
}

/// What two words after `gen` ask for.
fn generation(start: &String, count: &String) -> Option<Work>
    ensures { AsksFor (codes "gen" ∷ string_bytes start.now ∷ string_bytes count.now ∷ []) result }
{
    match number_in(start, MAX_START) {
        None => None,
        Some(start) => counted(start, count),
    }
}

/// What one word asks for.
fn work_by(word: &String) -> Option<Work>
    ensures { AsksFor (string_bytes word.now ∷ []) result }
{
    match word.as_str() {
        "step" => Some(Work::Step),
        "sweep" => Some(Work::Sweep),
        "verify" => Some(Work::Verify),
        _ => None,
    }
}

/// What three words ask for.
fn generation_of(first: &String, start: &String, count: &String) -> Option<Work>
    ensures { AsksFor (string_bytes first.now ∷ string_bytes start.now ∷ string_bytes count.now ∷ []) result }
{
    if first.as_str() == "gen" {
        generation(start, count)
    } else {
        None
    }
}

/// Whether the words are this one word.
fn is_only(words: &[String], only: &str) -> bool
    ensures { IsTrue result ↔ (word_bytes words.now ≡ only.now ∷ []) }
{
    match words {
        [word] => word.as_str() == only,
        _ => false,
    }
}

/// What words ask for that start threads.
#[derive(Clone, Copy, Debug, PartialEq, Eq)]
pub enum Threaded {
    /// Run the script that the source gives in threads.
    Run,
    /// The same, and report besides what was shown last of the mesh.
    Watch,
    /// The same, and report the trace of the run.
    Trace,
}

/// What the words ask for, if they start threads: if they are the one word `run`, `watch` or `trace`.
#[tactic(auto, using(crate::proofs::Digits::asks_run, crate::proofs::Digits::asks_watch, crate::proofs::Digits::asks_trace, crate::proofs::Digits::asks_alone))]
pub fn threads_of(words: &[String]) -> Option<Threaded>
    ensures { AsksThreaded (word_bytes words.now) result }
{
    if is_only(words, "run") {
        Some(Threaded::Run)
    } else if is_only(words, "watch") {
        Some(Threaded::Watch)
    } else if is_only(words, "trace") {
        Some(Threaded::Trace)
    } else {
        None
    }
}

/// What the words ask for, if they are accepted. Words that ask for threads ask for no work.
pub fn work_of(words: &[String]) -> Option<Work>
    ensures { AsksFor (word_bytes words.now) result }
{
    match words {
        [word] => work_by(word),
        [first, start, count] => generation_of(first, start, count),
        _ => None,
    }
}

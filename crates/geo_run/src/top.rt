//! The top call.
ghost use Rattle.std.specs.Prelude.{◌≡◌, [], ℕ, List, codes};
ghost use Rattle.geo_headline.specs.Headline.{IsComplete};
ghost use Rattle.geo_run.specs.Calls.{Keeps, call_of, outside_of};
ghost use Rattle.geo_headline.specs.Modes.{IsAlone};
ghost use Rattle.geo_run.specs.Work.{word_bytes};
ghost use Rattle.geo_run.specs.Stops.{IsDue, ending_by};
ghost use Rattle.geo_run.specs.Writes.{Writes, WritesEnding};

use crate::due::{write_due, write_out_of_memory};
use crate::finish::Finish;
use crate::source_run::{run_threaded, run_words};
use crate::words::threads_of;
use geo_disk::Shelf;
use geo_io::{Sink, Source};
use geo_jobs::Gate;
use geo_log::{DiskFacts, Log};
use std::alloc::Global;
use std::sync::Wait;
use std::thread::Threads;

/// How a run ended: the exit status, the log where the mesh opened, and the sizes of the disks with which it began.
#[derive(Drop)]
pub struct Ended {
    pub status: u8,
    pub log: Option<Log>,
    pub facts: DiskFacts,
}

/// All work of the program on words that start no thread: on the word `step` the script that the source gives is run
/// over the disks of the shelf, and its report is written to the sink; on `sweep` the same in the elevator order; on
/// `gen START COUNT` the script that is made from these numbers is run, and its summary written. Each disk that is
/// taken is given back, unless the shelf fails to take it. On `verify` what is found of the trace that the source gives
/// is written; no disk is taken, and no log comes.
pub fn run_alone<S: Source, K: Sink, H: Shelf>(
    alloc: Global,
    words: &[String],
    source: &mut S,
    sink: &mut K,
    shelf: &mut H,
) -> Ended
where
    H::D: Drop,
    requires alone { IsAlone (word_bytes words.now) }
    ensures keeps { Keeps (call_of (word_bytes words.now) result
        (outside_of (S.view source.old)
        (K.view sink.old)
        (H.view shelf.old))
        (outside_of (S.view source.new)
        (K.view sink.new)
        (H.view shelf.new))) }
    ensures complete { IsComplete (call_of (word_bytes words.now) result
        (outside_of (S.view source.old)
        (K.view sink.old)
        (H.view shelf.old))
        (outside_of (S.view source.new)
        (K.view sink.new)
        (H.view shelf.new))) }
{
    let finish = run_words(alloc, words, source, shelf);
    write_finish(finish, sink)
}

/// Writes what is due at the end of a run.
fn write_finish<K: Sink>(finish: Finish, sink: &mut K) -> Ended
    ensures log { result.log ≡ finish.log }
    ensures facts { result.facts ≡ finish.facts }
    ensures writes { (reported : List ℕ) → IsDue finish.due reported
        → WritesEnding reported (ending_by finish.due) result.status (K.view sink.old) (K.view sink.new) }
{
    let Finish { due, log, facts } = finish;
    Ended {
        status: write_due(&due, sink),
        log,
        facts,
    }
}

/// All work of the program. Words that start no thread are run as `run_alone` runs them. On the word `run` the script
/// that the source gives is run over the disks of the shelf by a thread for each of its actors and five more, and its
/// report is written; on `trace` the same, and the trace of the run is written. The threads make the steps under one
/// lock, as far as they come, and are joined; what they leave is made by the caller's. On `watch` the first actor's
/// thread besides shows the mesh as it is printed, before the first step and at each `mesh` of its own that it makes,
/// and one thread more looks at what is shown, without waiting; behind the report stands what was shown last. The gate
/// may hold a thread at its places, for as long as it likes.
pub fn run<R: Threads + Wait + Sync + AllocGlobal, S: Source, K: Sink, H: Shelf, G: Gate + Sync>(
    rt: &R,
    words: &[String],
    source: &mut S,
    sink: &mut K,
    shelf: &mut H,
    gate: &G,
) -> Ended
where
    H::D: Drop + Send,
    ensures keeps { Keeps (call_of (word_bytes words.now) result
        (outside_of (S.view source.old)
        (K.view sink.old)
        (H.view shelf.old))
        (outside_of (S.view source.new)
        (K.view sink.new)
        (H.view shelf.new))) }
    ensures complete { IsComplete (call_of (word_bytes words.now) result
        (outside_of (S.view source.old)
        (K.view sink.old)
        (H.view shelf.old))
        (outside_of (S.view source.new)
        (K.view sink.new)
        (H.view shelf.new))) }
{
    let alloc = rt.alloc();
    match threads_of(words) {
        None => run_alone(alloc, words, source, sink, shelf),
        Some(work) => {
            let finish = run_threaded(rt, words, work, source, shelf, gate);
            write_finish(finish, sink)
        }
    }
}

/// The end of a program that has no memory even for its words: it writes `out of memory`, and gives the exit status,
/// which is 6, or 4 where the sink fails.
pub fn without_memory<K: Sink>(sink: &mut K) -> u8
    ensures { Writes result 6 (codes "out of memory\n") (K.view sink.old)
        (K.view sink.new) }
{
    write_out_of_memory(sink)
}

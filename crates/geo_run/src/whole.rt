//! The whole program, behind what it is handed.
ghost use Rattle.std.specs.Prelude.{◌≡◌, ◌⊎◌, Ok, IfOk, IsErr, codes};
ghost use Rattle.geo_run.specs.Calls.{HasStatus, outside_of};
ghost use Rattle.geo_run.specs.Work.{word_bytes};
ghost use Rattle.geo_run.specs.Writes.{Writes};

use crate::top::{run, without_memory};
use geo_base::NoMemory;
use geo_disk::Shelf;
use geo_io::{Sink, Source};
use geo_jobs::Gate;
use std::mem;
use std::sync::Wait;
use std::thread::Threads;

/// All work of the program, and its exit status: what `run` does on the words over the shelf, or, where there was no
/// memory for one of the two, the line `out of memory`. It is for a process that ends with it: the log stays in memory.
pub fn program<
    R: Threads + Wait + Sync + AllocGlobal,
    S: Source,
    K: Sink,
    H: Shelf,
    G: Gate + Sync,
>(
    rt: &R,
    words: Result<Vec<String>, NoMemory>,
    source: &mut S,
    sink: &mut K,
    shelf: &mut Result<H, NoMemory>,
    gate: &G,
) -> u8
where
    H::D: Drop + Send,
    ensures status { IfOk words (λ given. IfOk shelf.old (λ had. (has : H) × (shelf.new ≡ Ok has)
        × HasStatus (word_bytes given.items) result
        (outside_of (S.view source.old) (K.view sink.old) (H.view had))
        (outside_of (S.view source.new) (K.view sink.new) (H.view has)))) }
    ensures lacks { IsErr words ⊎ IsErr shelf.old → Writes result 6 (codes "out of memory\n") (K.view sink.old)
        (K.view sink.new) }
{
    let Ok(words) = words else {
        return without_memory(sink);
    };
    let Ok(shelf) = shelf else {
        return without_memory(sink);
    };
    let ended = run(rt, words.as_slice(), source, sink, shelf, gate);
    let status = ended.status;
    // Its memory ends with the process, so the log isn't taken apart entry by entry.
    mem::forget(ended);
    status
}

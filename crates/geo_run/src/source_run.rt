//! The runs of the program: of the script that the source gives, and of the one that is made from a number.
ghost use Rattle.std.specs.Prelude.{◌≡◌};
ghost use Rattle.geo_model.specs.Generator.{generated};
ghost use Rattle.geo_headline.specs.Modes.{Accepts, IsAlone, IsMode, GenMode, source_limit};
ghost use Rattle.geo_run.specs.Work.{mode_threaded, word_bytes};
ghost use Rattle.geo_run.specs.Calls.{Finishes, FinishesText, FinishesSource};

use crate::alone::{Generation, Step, Sweep};
use crate::finish::{Finish, unopened};
use crate::read::read_source;
use crate::runner::Runner;
use crate::script_run::run_script;
use crate::stop::Stop;
use crate::threaded::run_source_in_threads;
use crate::verify_run::run_verify;
use crate::words::{Threaded, Work, work_of};
use geo_base::MAX_SCRIPT_BYTES;
use geo_disk::Shelf;
use geo_gen::make_script;
use geo_io::Source;
use geo_jobs::Gate;
use std::alloc::Global;
use std::sync::Wait;
use std::thread::Threads;

/// Reads the source to its end, and runs its text.
pub fn run_source<S: Source, H: Shelf, C: Runner<H::D>>(
    alloc: Global,
    source: &mut S,
    runner: &C,
    shelf: &mut H,
) -> Finish
where
    H::D: Drop,
    requires limit { source_limit (C.mode runner.now) ≡ MAX_SCRIPT_BYTES }
    ensures { FinishesSource (C.mode runner.now)
        (S.view source.old)
        (S.view source.new) result
        (H.view shelf.old)
        (H.view shelf.new) }
{
    match read_source(alloc, source, MAX_SCRIPT_BYTES) {
        Ok(text) => run_script(alloc, text.bytes(), runner, shelf),
        Err(stop) => unopened(alloc, stop),
    }
}

/// Makes the script of a number, and runs it.
fn run_generated<H: Shelf>(alloc: Global, start: u32, count: u32, shelf: &mut H) -> Finish
where
    H::D: Drop,
    requires { IsMode (GenMode start count) }
    ensures { FinishesText (generated start count) (GenMode start count) result
        (H.view shelf.old)
        (H.view shelf.new) }
{
    match make_script(alloc, start, count) {
        Ok(text) => run_script(alloc, text.bytes(), &Generation { start, count }, shelf),
        Err(_) => unopened(alloc, Stop::NoMemory),
    }
}

/// Runs what the words ask for.
pub fn run_words<S: Source, H: Shelf>(
    alloc: Global,
    words: &[String],
    source: &mut S,
    shelf: &mut H,
) -> Finish
where
    H::D: Drop,
    requires alone { IsAlone (word_bytes words.now) }
    ensures { Finishes (word_bytes words.now) result
        (S.view source.old)
        (S.view source.new)
        (H.view shelf.old)
        (H.view shelf.new) }
{
    match work_of(words) {
        Some(Work::Step) => run_source(alloc, source, &Step, shelf),
        Some(Work::Sweep) => run_source(alloc, source, &Sweep, shelf),
        Some(Work::Generate { start, count }) => run_generated(alloc, start, count, shelf),
        Some(Work::Verify) => run_verify(alloc, source),
        None => unopened(alloc, Stop::BadWords),
    }
}

/// Runs what the words ask for in threads.
pub fn run_threaded<R: Threads + Wait + Sync + AllocGlobal, S: Source, H: Shelf, G: Gate + Sync>(
    rt: &R,
    words: &[String],
    work: Threaded,
    source: &mut S,
    shelf: &mut H,
    gate: &G,
) -> Finish
where
    H::D: Drop + Send,
    requires asked { Accepts (word_bytes words.now) (mode_threaded work) }
    ensures { Finishes (word_bytes words.now) result
        (S.view source.old)
        (S.view source.new)
        (H.view shelf.old)
        (H.view shelf.new) }
{
    run_source_in_threads(rt, gate, source, work, shelf)
}

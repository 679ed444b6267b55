//! Tests of the whole core by lists of steps, and of the program over an outside that fails.
//!
//! Lists of steps are made on a bench (`bench.rt`), a mesh over disks that the tests hold themselves; its reports are
//! compared with worked ones. The program is run over a source, a sink and a shelf in memory (`outside.rt`), each of
//! whose calls fails in turn; status, text and images are compared with a table. `rows.rt` runs most of the worked
//! rows of `tests/` that need neither images nor threads (`step_rows.rt`, `other_rows.rt`). `memory.rt` is written to
//! be run with one allocation refused (`rt try --test --fail-alloc N`), `full.rt` with little room in the log. Runs in
//! threads have gates at which jobs meet (`gates.rt`). docs/PROVED.md tells what these tests show.
//!
//! What is large, as a bench, an outside or how a run ended, is made in a short function, which lends it to another
//! one and then drops it by a call. At the end of a scope or at a `?` the drop of each part of it would be written
//! out, and proved for minutes.
#![tactic(auto)]

#[cfg(test)]
mod bench;
#[cfg(test)]
mod calls;
#[cfg(test)]
mod contents;
#[cfg(test)]
mod faults;
#[cfg(test)]
mod found;
#[cfg(test)]
mod full;
#[cfg(test)]
mod gates;
#[cfg(test)]
mod memory;
#[cfg(test)]
mod other_rows;
#[cfg(test)]
mod outside;
#[cfg(test)]
mod rows;
#[cfg(test)]
mod scripts;
#[cfg(test)]
mod step_rows;
#[cfg(test)]
mod steps;
#[cfg(test)]
mod threads;
#[cfg(test)]
mod users;
#[cfg(test)]
mod watched;

//! Sources and sinks of bytes, each with a count of its faults; reading all of a source, and writing all of a text.
//!
//! Contracts see a source by one ghost member (`view`): what it gave so far, whether it found its end, what is left
//! if it tells that, and its counts (`SourceView`). A sink is seen as what it took so far, what it holds if it tells
//! that, and its faults (`SinkView`). Both show whether the last call failed (`last`). A call that fails counts one
//! fault (`one`), and one that goes through none (`told`). So a body that tries a failed call again is refused.
//!
//! [`read_all`] is proved for every source. Ok is exactly what was given, to its end (`all`, `end`). `TooLong` means
//! that exactly `limit + 1` bytes were given (`too_long`). A fault is told only if one read failed, and that was the
//! last (`one`), and any other answer only if none failed (`told`). It makes at most `limit + 2` reads of a source that
//! counts them (`reads`). [`write_out`]: Ok means that exactly these bytes were taken (`ok`), a fault that exactly the
//! first `written`, fewer than all, were (`err`, `some_left`). A fault comes only if one write failed, and that was the
//! last (`one`), Ok only if none failed (`told`).
//!
//! [`MemSource`] and [`MemSink`] fail exactly at the calls of their list, the sink also where its room is used up,
//! and then count one fault more. So tests can choose. [`StdSource`] and [`StdSink`] are the trusted edge. The
//! clauses of the traits hold over the answers of their calls, but no clause knows what the stream behind them gave
//! or took, and geo_tests_low has a test of each.
//!
//! geo_run and geomrun use it. Read `src/source.rt` and `src/reading.rt` first.
#![tactic(auto)]

mod mem_sink;
mod mem_source;
mod passed;
mod reading;
mod sink;
mod source;
mod std_sink;
mod std_source;
mod writing;

pub use mem_sink::MemSink;
pub use mem_source::MemSource;
pub use reading::{ReadRefusal, read_all};
pub use sink::Sink;
pub use source::{Failed, Source};
pub use std_sink::StdSink;
pub use std_source::StdSource;
pub use writing::{WriteFault, write_out};

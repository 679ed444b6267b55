//! What is due at the end of a run, and how it is written.
//!
//! No text of an ending takes memory: what isn't a literal is written in parts, one behind the other.
ghost use Rattle.std.specs.Prelude.{◌≡◌, ◌≢◌, ◌++◌, ℕ, List, [], codes, decimal};
ghost use Rattle.geo_model.specs.Report.{end_line};
ghost use Rattle.geo_headline.specs.Endings.{Answered};
ghost use Rattle.geo_run.specs.Stops.{IsDue, ending_by, ending_of, ending_with};
ghost use Rattle.geo_run.specs.Writes.{Writes, WritesEnding};

use crate::stop::{Stop, cause_line};
use geo_base::{Block, Name};
use geo_headline::Verified;
use geo_io::{Sink, write_out};
use itoa::Buffer;

/// What is due at the end of a run.
#[derive(Drop)]
pub enum Due {
    /// The report, or the summary, and the first disk that couldn't be given back.
    Report { text: Block, kept: Option<Name> },
    /// Why there is none, or what is found of a trace.
    Stopped(Stop),
}

const USAGE: &[u8] =
    b"usage: geomrun step | run | gen START COUNT | sweep | watch | trace | verify\n";

const OUT_OF_MEMORY: &[u8] = b"out of memory\n";

/// Writes the due text. A fault of the sink turns the status into 4.
fn written<K: Sink>(sink: &mut K, status: u8, text: &[u8]) -> u8
    requires { status ≢ 4 }
    ensures { Writes result status text.now (K.view sink.old)
        (K.view sink.new) }
{
    match write_out(sink, text) {
        Ok(()) => status,
        Err(_) => 4,
    }
}

/// Writes a due text of two parts.
fn written_two<K: Sink>(sink: &mut K, status: u8, first: &[u8], last: &[u8]) -> u8
    requires { status ≢ 4 }
    ensures { Writes result status (first.now ++ last.now) (K.view sink.old)
        (K.view sink.new) }
{
    match write_out(sink, first) {
        Ok(()) => written(sink, status, last),
        Err(_) => 4,
    }
}

/// Writes a due text of three parts.
fn written_three<K: Sink>(sink: &mut K, status: u8, first: &[u8], middle: &[u8], last: &[u8]) -> u8
    requires { status ≢ 4 }
    ensures { Writes result status (first.now ++ middle.now ++ last.now) (K.view sink.old)
        (K.view sink.new) }
{
    match write_out(sink, first) {
        Ok(()) => written_two(sink, status, middle, last),
        Err(_) => 4,
    }
}

/// Writes a due text in which a number stands, in decimal.
fn written_number<K: Sink>(sink: &mut K, status: u8, first: &[u8], number: u32, last: &[u8]) -> u8
    requires { status ≢ 4 }
    ensures { Writes result status (first.now ++ decimal number ++ last.now) (K.view sink.old)
        (K.view sink.new) }
{
    let mut buffer = Buffer::new();
    written_three(sink, status, first, buffer.format(number).as_bytes(), last)
}

/// Writes what is told of a disk.
fn written_name<K: Sink>(sink: &mut K, label: &[u8], name: &Name) -> u8
    ensures { Writes result 5 (label.now ++ name.now ++ end_line) (K.view sink.old)
        (K.view sink.new) }
{
    written_three(sink, 5, label, name.bytes(), b"\n")
}

/// Writes what is found of a trace.
fn write_found<K: Sink>(found: &Verified, sink: &mut K) -> u8
    ensures { WritesEnding [] (Answered found.now) result (K.view sink.old)
        (K.view sink.new) }
{
    match found {
        Verified::Yes => written(sink, 0, b"yes\n"),
        Verified::NotEnabled { line } => written_number(sink, 9, b"no: line ", *line, b"\n"),
        Verified::NotAtRest => written(sink, 9, b"no: not at rest\n"),
        Verified::OtherReport => written(sink, 9, b"no: report\n"),
    }
}

/// Writes why there is no report.
fn write_stop<K: Sink>(stop: &Stop, sink: &mut K) -> u8
    ensures { WritesEnding [] (ending_of stop.now) result (K.view sink.old)
        (K.view sink.new) }
{
    match stop {
        Stop::BadWords => written(sink, 1, USAGE),
        Stop::NoScript { line, cause } => {
            written_number(sink, 2, b"line ", *line, cause_line(*cause))
        }
        Stop::ReadFault => written(sink, 3, b"read fault\n"),
        Stop::ShelfFault(name) => written_name(sink, b"shelf fault ", name),
        Stop::NoDisk(name) => written_name(sink, b"no disk ", name),
        Stop::BadSize(name) => written_name(sink, b"bad size ", name),
        Stop::NoMemory => written(sink, 6, OUT_OF_MEMORY),
        Stop::LogFull => written(sink, 7, b"log full\n"),
        Stop::TooLong => written(sink, 8, b"script too long\n"),
        Stop::Answered(found) => write_found(found, sink),
        Stop::NoTrace { line } => written_number(sink, 2, b"line ", *line, b": trace\n"),
    }
}

/// Writes the report, and behind it the line of the disk that couldn't be given back, if there is one.
fn write_report<K: Sink>(text: &[u8], kept: &Option<Name>, sink: &mut K) -> u8
    ensures { WritesEnding text.now (ending_with kept.now) result (K.view sink.old)
        (K.view sink.new) }
{
    let Some(name) = kept else {
        return written(sink, 0, text);
    };
    match write_out(sink, text) {
        Ok(()) => written_name(sink, b"shelf fault ", name),
        Err(_) => 4,
    }
}

/// Writes what is due, and gives the status. Where the sink fails, the status says so.
pub fn write_due<K: Sink>(due: &Due, sink: &mut K) -> u8
    ensures { (reported : List ℕ) → IsDue due.now reported → WritesEnding reported (ending_by due.now) result
        (K.view sink.old) (K.view sink.new) }
{
    match due {
        Due::Report { text, kept } => write_report(text.bytes(), kept, sink),
        Due::Stopped(stop) => write_stop(stop, sink),
    }
}

/// Writes that memory ran out, and gives the status, which is 6, or 4 where the sink fails.
pub fn write_out_of_memory<K: Sink>(sink: &mut K) -> u8
    ensures { Writes result 6 (codes "out of memory\n") (K.view sink.old)
        (K.view sink.new) }
{
    written(sink, 6, OUT_OF_MEMORY)
}

//! Bytes that are read and written whole.
ghost use Rattle.std.specs.Prelude.{◌≡◌, ◌<◌, ◌≤◌, length, take, IfOk, MatchResult};
ghost use Rattle.geo_io.specs.Sink.{Takes};
ghost use Rattle.geo_io.specs.Source.{Gives, SourceView};
ghost use Rattle.geo_serving.specs.Streams.{BreaksAt, CutsShort, IsReadOn, ReadsShort, WritesShort};

use crate::halt::Halt;
use geo_base::Block;
use geo_io::{Sink, Source, write_out};
use std::alloc::Global;

/// Reads once, to the place `done` and on, and says up to where bytes were read then.
fn read_on<S: Source>(source: &mut S, out: &mut [u8], done: usize) -> Result<usize, Halt>
    requires { done < length out.old }
    ensures len { length out.new ≡ length out.old }
    ensures on { IfOk result (λ now. IsReadOn done now (S.view source.old) out.old (S.view source.new) out.new) }
    ensures breaks { MatchResult result (λ _. (S.view source.new).faults ≡ (S.view source.old).faults)
        (λ halt. BreaksAt halt (S.view source.old) (S.view source.new)) }
{
    match source.read(&mut out[done..]) {
        Ok(0) => Err(Halt::Gone),
        Ok(count) => Ok(done + count),
        Err(_) => Err(Halt::ReadFault),
    }
}

/// Reads until all of `out` was read.
pub fn read_full<S: Source>(source: &mut S, out: &mut [u8]) -> Result<(), Halt>
    ensures len { length out.new ≡ length out.old }
    ensures reads { MatchResult result (λ _. Gives (S.view source.old) out.new (S.view source.new))
        (λ halt. CutsShort halt (length out.old) (S.view source.old) (S.view source.new)) }
{
    let mut done = 0;
    while done < out.len() {
        match read_on(source, out, done) {
            Ok(now) => done = now,
            Err(halt) => return Err(halt),
        }
    }
    Ok(())
}

/// A message of so many bytes.
pub fn read_message<S: Source>(alloc: Global, source: &mut S, len: u32) -> Result<Block, Halt>
    ensures whole { IfOk result (λ message. length message ≡ len) }
    ensures reads { MatchResult result (λ message. Gives (S.view source.old) message (S.view source.new))
        (λ halt. ReadsShort halt len (S.view source.old) (S.view source.new)) }
{
    let mut block = Block::zeros(alloc, len)?;
    match read_full(source, block.bytes_mut()) {
        Ok(()) => Ok(block),
        Err(halt) => Err(halt),
    }
}

/// Writes all the bytes.
pub fn say<K: Sink>(sink: &mut K, bytes: &[u8]) -> Result<(), Halt>
    ensures { MatchResult result (λ _. Takes (K.view sink.old) bytes.now (K.view sink.new))
        (λ halt. WritesShort halt bytes.now (K.view sink.old) (K.view sink.new)) }
{
    match write_out(sink, bytes) {
        Ok(()) => Ok(()),
        Err(_) => Err(Halt::WriteFault),
    }
}

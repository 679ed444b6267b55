ghost use Rattle.std.specs.Prelude.{◌<◌};

use crate::same::assert_same;
use geo_base::{Block, Calls, NoMemory};
use geo_io::{
    Failed, MemSink, MemSource, ReadRefusal, Sink, Source, StdSink, StdSource, read_all, write_out,
};
use std::alloc::Global;
use std::process::Abort;

/// A source in memory, which gives so many bytes at a time, and of which these calls fail.
fn source_of(alloc: Global, text: &[u8], piece: u32, fails: &[u64]) -> Result<MemSource, NoMemory>
    requires { 0 < piece }
{
    let bytes = Block::from_slice(alloc, text)?;
    Ok(MemSource::new(bytes, piece, Calls::of(alloc, fails)?))
}

/// What becomes of reading five bytes at the most.
fn refusal_of(alloc: Global, source: &mut MemSource) -> Option<ReadRefusal> {
    read_all(alloc, source, 5).err()
}

#[test]
fn a_source_in_memory_is_read_whole(rt: HostRuntime) {
    let mut source = source_of(rt.alloc(), b"hello", 2, &[]).expect(&rt, "memory");
    let all = read_all(rt.alloc(), &mut source, 5).expect(&rt, "the whole source");
    assert_same(&rt, all.bytes(), b"hello".as_slice());
}

#[test]
fn a_source_that_is_too_long_is_refused(rt: HostRuntime) {
    let mut long = source_of(rt.alloc(), b"hello!", 4, &[]).expect(&rt, "memory");
    assert_same(
        &rt,
        refusal_of(rt.alloc(), &mut long),
        Some(ReadRefusal::TooLong),
    );
}

#[test]
fn a_failing_read_in_mid_stream_is_told(rt: HostRuntime) {
    let mut source = source_of(rt.alloc(), b"hello", 2, &[2]).expect(&rt, "memory");
    assert_same(
        &rt,
        refusal_of(rt.alloc(), &mut source),
        Some(ReadRefusal::ReadFault),
    );
    // The failed call took nothing, so the next goes on behind the first.
    let rest = read_all(rt.alloc(), &mut source, 5).expect(&rt, "the whole source");
    assert_same(&rt, rest.bytes(), b"llo".as_slice());
}

/// How many bytes were written before a write failed.
fn written_at_fault(rt: &impl Abort, sink: &mut MemSink, bytes: &[u8]) -> u64 {
    let Err(fault) = write_out(sink, bytes) else {
        panic!(rt; "no fault")
    };
    fault.written
}

#[test]
fn a_failing_write_in_mid_stream_is_told(rt: HostRuntime) {
    let mut sink = MemSink::new(
        rt.alloc(),
        9,
        3,
        Calls::of(rt.alloc(), &[2]).expect(&rt, "memory"),
    )
    .expect(&rt, "memory");
    assert_same(&rt, written_at_fault(&rt, &mut sink, b"hello"), 3);
    assert_same(&rt, written_at_fault(&rt, &mut sink, b"hello, hello"), 6);
    assert_same(&rt, sink.written(), b"helhello,".as_slice());
}

#[test]
fn a_reader_of_std_is_a_source(rt: HostRuntime) {
    let alloc = rt.alloc();
    let mut source = StdSource::new(b"two words".as_slice());
    let all = read_all(alloc, &mut source, 100).expect(&rt, "the whole source");
    assert_same(&rt, all.bytes(), b"two words".as_slice());
    let mut out = [0u8; 4];
    assert!(rt; source.read(&mut out) == Ok(0));
}

#[test]
fn a_writer_of_std_is_a_sink(rt: HostRuntime) {
    let mut sink = StdSink::new(std::io::sink());
    assert!(rt; write_out(&mut sink, b"words").is_ok());
    let mut cells = [0u8; 2];
    let mut full = StdSink::new(cells.as_mut_slice());
    let fault = write_out(&mut full, b"words").err();
    // The third write would be of nothing.
    assert!(rt; fault.is_some_and(|f| f.written == 2));
    assert!(rt; full.write(b"s") == Err(Failed));
}

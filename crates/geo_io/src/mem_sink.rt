//! A sink in memory.
ghost use Rattle.std.specs.Prelude.{◌≡◌, ◌≤◌, ◌<◌, ◌↔◌, ◌⊎◌, ◌++◌, [], Contains, IsErr, IfOk, OnErr, OnOk, false, is_err, length, take};
ghost use Rattle.geo_base.specs.Faults.{HasCause};
ghost use Rattle.geo_io.specs.Counts.{raised};
ghost use Rattle.geo_io.specs.MemSink.{sink_view, stored_count, after_taking, after_failed_write};
ghost use Rattle.geo_io.specs.Sink.{Takes, TakesNothing};

use crate::sink::Sink;
use crate::source::Failed;
use geo_base::{Calls, NoMemory};
use std::alloc::Global;
use std::marker::Model;

/// A sink in memory, with room for so many bytes, of which chosen calls fail.
#[derive(Drop)]
pub struct MemSink {
    bytes: Vec<u8>,
    room: u32,
    piece: u32,
    fails: Calls,
    calls: u64,
    faults: u64,
    failed: bool,
}

impl Model for MemSink {
    ghost use Rattle.std.specs.Prelude.{◌≤◌, ◌<◌, vec_len, vec_capacity};
    ghost use Rattle.geo_io.specs.MemSink.{Store};

    ghost Value = { Store };

    ghost view = { λ s. record {
      written = s.bytes.items;
      room = s.room;
      piece = s.piece;
      fails = s.fails;
      calls = s.calls;
      faults = s.faults;
      failed = s.failed;
    } };

    ghost invariant = { λ s. (0 < s.piece) × (vec_len s.bytes ≤ s.room) × (s.room ≤ vec_capacity s.bytes) };
}

impl MemSink {
    /// A sink with room for `room` bytes, which takes at most `piece` at a call. Its calls are counted from 1; those in
    /// `fails` fail, and so does each when the room is used up.
    pub fn new(alloc: Global, room: u32, piece: u32, fails: Calls) -> Result<MemSink, NoMemory>
        requires { 0 < piece }
        ensures { IfOk result (λ sink. sink ≡ record {
          written = [];
          room = room;
          piece = piece;
          fails = fails;
          calls = 0;
          faults = 0;
          failed = false;
        }) }
    {
        Ok(MemSink {
            bytes: Vec::with_capacity(alloc, room as usize)?,
            room,
            piece,
            fails,
            calls: 0,
            faults: 0,
            failed: false,
        })
    }

    /// The bytes written.
    pub fn written(&self) -> &[u8]
        ensures { result.now ≡ self.now.written }
    {
        self.bytes.as_slice()
    }
}

impl Sink for MemSink {
    ghost view = { sink_view };

    fn write(&mut self, bytes: &[u8]) -> Result<usize, Failed>
        requires { 0 < length bytes.now }
        ensures some { IfOk result (λ n. 1 ≤ n) }
        ensures bound { IfOk result (λ n. n ≤ length bytes.now) }
        ensures bytes { IfOk result (λ n. Takes (sink_view self.old) (take n bytes.now) (sink_view self.new)) }
        ensures err { OnErr result (TakesNothing (sink_view self.old) (sink_view self.new)) }
        ensures cause { HasCause self.old.faults self.new.faults result }
        ensures told { OnOk result (self.new.faults ≡ self.old.faults) }
        ensures one { OnErr result (self.new.faults ≡ raised self.old.faults) }
        ensures last { self.new.failed ≡ is_err result }

        // It fails exactly where the call's number is in the list or the room is used up, and else takes as much as
        // fits.
        ensures fails { IsErr result ↔ (Contains self.old.fails (raised self.old.calls) ⊎ (length self.old.written
            ≡ self.old.room)) }
        ensures stored { IfOk result (λ n. (n ≡ stored_count self.old (length bytes.now)) × (self.new
            ≡ after_taking self.old (take n bytes.now))) }
        ensures failed { OnErr result (self.new ≡ after_failed_write self.old) }
    {
        self.calls = self.calls.saturating_add(1);
        let left = self.room as usize - self.bytes.len();
        self.failed = self.fails.has(self.calls) || left == 0;
        if self.failed {
            self.faults = self.faults.saturating_add(1);
            return Err(Failed);
        }
        let count = bytes.len().min(left).min(self.piece as usize);
        self.bytes.extend_from_slice(&bytes[..count]).unwrap();
        Ok(count)
    }
}

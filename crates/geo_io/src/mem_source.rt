//! A source in memory.
ghost use Rattle.std.specs.Prelude.{◌≡◌, ◌+◌, ◌≤◌, ◌<◌, ◌==◌, ◌↔◌, ◌++◌, [], false, Contains, IsErr, IfOk, OnErr, OnOk, is_err, length, take, drop};
ghost use Rattle.geo_base.specs.Faults.{HasCause};
ghost use Rattle.geo_io.specs.Counts.{CountsOnce, raised};
ghost use Rattle.geo_io.specs.Source.{Gives, GivesNothing};
ghost use Rattle.geo_io.specs.MemSource.{source_view, fed_count, after_read, after_failed_read};

use crate::source::{Failed, Source};
use geo_base::{Block, Calls};
use std::marker::Model;

/// A source in memory, of which chosen calls fail.
#[derive(Drop)]
pub struct MemSource {
    bytes: Block,
    at: usize,
    ended: bool,
    piece: u32,
    fails: Calls,
    calls: u64,
    faults: u64,
    failed: bool,
}

impl Model for MemSource {
    ghost use Rattle.std.specs.Prelude.{◌≤◌, ◌<◌, length, take, drop};
    ghost use Rattle.geo_io.specs.MemSource.{Feed};

    ghost Value = { Feed };

    ghost view = { λ s. record {
      given = take s.at s.bytes;
      ended = s.ended;
      left = drop s.at s.bytes;
      piece = s.piece;
      fails = s.fails;
      calls = s.calls;
      faults = s.faults;
      failed = s.failed;
    } };

    ghost invariant = { λ s. (s.at ≤ length s.bytes) × (0 < s.piece) };
}

impl MemSource {
    /// A source of these bytes, which gives at most `piece` at a call. Its calls are counted from 1; those in `fails`
    /// fail.
    pub fn new(bytes: Block, piece: u32, fails: Calls) -> MemSource
        requires { 0 < piece }
        ensures { result ≡ record {
          given = [];
          ended = false;
          left = bytes;
          piece = piece;
          fails = fails;
          calls = 0;
          faults = 0;
          failed = false;
        } }
    {
        MemSource {
            bytes,
            at: 0,
            ended: false,
            piece,
            fails,
            calls: 0,
            faults: 0,
            failed: false,
        }
    }
}

impl Source for MemSource {
    ghost view = { source_view };

    fn read(&mut self, out: &mut [u8]) -> Result<usize, Failed>
        requires { 0 < length out.old }
        ensures bound { IfOk result (λ n. n ≤ length out.new) }
        ensures bytes { IfOk result (λ n. Gives (source_view self.old) (take n out.new) (source_view self.new)) }
        ensures end { IfOk result (λ n. n ≡ 0 → self.old.left ≡ []) }
        ensures more { IfOk result (λ n. 0 < n → 0 < length self.old.left) }
        ensures ended { IfOk result (λ n. self.new.ended ≡ (n == 0)) }
        ensures err { OnErr result (GivesNothing (source_view self.old) (source_view self.new)) }
        ensures cause { HasCause self.old.faults self.new.faults result }
        ensures told { OnOk result (self.new.faults ≡ self.old.faults) }
        ensures one { OnErr result (self.new.faults ≡ raised self.old.faults) }
        ensures last { self.new.failed ≡ is_err result }
        ensures once { CountsOnce self.old.calls self.new.calls }

        // It fails exactly where the call's number is in the list, and else gives as much as there is room for.
        ensures fails { IsErr result ↔ Contains self.old.fails (raised self.old.calls) }
        ensures count { IfOk result (λ n. n ≡ fed_count self.old (length out.old)) }
        ensures fed { IfOk result (λ n. self.new ≡ after_read self.old n) }
        ensures rest { IfOk result (λ n. drop n out.new ≡ drop n out.old) }
        ensures failed { OnErr result (self.new ≡ after_failed_read self.old) }
        ensures kept { OnErr result (out.new ≡ out.old) }
    {
        self.calls = self.calls.saturating_add(1);
        if self.fails.has(self.calls) {
            self.faults = self.faults.saturating_add(1);
            self.failed = true;
            return Err(Failed);
        }
        let left = &self.bytes.bytes()[self.at..];
        let count = left.len().min(out.len()).min(self.piece as usize);
        out[..count].copy_from_slice(&left[..count]);
        self.at += count;
        self.ended = count == 0;
        self.failed = false;
        Ok(count)
    }
}

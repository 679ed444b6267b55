//! A source over a reader of std.
ghost use Rattle.std.specs.Prelude.{◌≡◌, [], false, None};

use crate::passed::Passed;
use crate::source::{Failed, Source};
use std::io::Read;

/// A source over any reader. It doesn't tell what is left.
#[derive(Drop)]
pub struct StdSource<R: Drop> {
    reader: R,
    given: Passed,
    ended: bool,
    reads: u64,
    faults: u64,
    failed: bool,
}

impl<R: Read + Drop> StdSource<R> {
    /// A source over this reader, which gave nothing, wasn't read and had no fault so far.
    pub fn new(reader: R) -> StdSource<R>
        ensures given { result.given.bytes ≡ [] }
        ensures ended { result.ended ≡ false }
        ensures reads { result.reads ≡ 0 }
        ensures faults { result.faults ≡ 0 }
        ensures failed { result.failed ≡ false }
    {
        StdSource {
            reader,
            given: Passed::none(),
            ended: false,
            reads: 0,
            faults: 0,
            failed: false,
        }
    }
}

impl<R: Read + Drop> Source for StdSource<R> {
    ghost view = { λ s. record {
      given = s.given.bytes;
      ended = s.ended;
      left = None;
      reads = s.reads;
      faults = s.faults;
      failed = s.failed;
    } };

    fn read(&mut self, out: &mut [u8]) -> Result<usize, Failed> {
        self.reads = self.reads.saturating_add(1);
        match self.reader.read(out) {
            Ok(count) => {
                self.given.add(&out[..count]);
                self.ended = count == 0;
                self.failed = false;
                Ok(count)
            }
            Err(_) => {
                self.faults = self.faults.saturating_add(1);
                self.failed = true;
                Err(Failed)
            }
        }
    }
}

//! A sink over a writer of std.
ghost use Rattle.std.specs.Prelude.{◌≡◌, [], None, false};

use crate::passed::Passed;
use crate::sink::Sink;
use crate::source::Failed;
use std::io::Write;

/// A sink over any writer. It doesn't tell what it holds.
#[derive(Drop)]
pub struct StdSink<W: Drop> {
    writer: W,
    taken: Passed,
    faults: u64,
    failed: bool,
}

impl<W: Write + Drop> StdSink<W> {
    /// A sink over this writer, which took nothing and had no fault so far.
    pub fn new(writer: W) -> StdSink<W>
        ensures taken { result.taken.bytes ≡ [] }
        ensures faults { result.faults ≡ 0 }
        ensures failed { result.failed ≡ false }
    {
        StdSink {
            writer,
            taken: Passed::none(),
            faults: 0,
            failed: false,
        }
    }
}

impl<W: Write + Drop> Sink for StdSink<W> {
    ghost view = { λ s. record { taken = s.taken.bytes; held = None; faults = s.faults; failed = s.failed } };

    /// A write of nothing is a failure.
    fn write(&mut self, bytes: &[u8]) -> Result<usize, Failed> {
        match self.writer.write(bytes) {
            Ok(count) if 0 < count => {
                self.taken.add(&bytes[..count]);
                self.failed = false;
                Ok(count)
            }
            _ => {
                self.faults = self.faults.saturating_add(1);
                self.failed = true;
                Err(Failed)
            }
        }
    }
}

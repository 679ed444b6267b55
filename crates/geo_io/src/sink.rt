//! What bytes go to.
ghost use Rattle.std.specs.Prelude.{◌≡◌, ◌≤◌, ◌<◌, length, take, IfOk, OnErr, OnOk, is_err};
ghost use Rattle.geo_base.specs.Faults.{HasCause};
ghost use Rattle.geo_io.specs.Counts.{raised};
ghost use Rattle.geo_io.specs.Sink.{SinkView, Takes, TakesNothing};

use crate::source::Failed;

/// What bytes go to, as a file or a stream.
pub trait Sink {
    /// What its calls show: what its writes took so far, the bytes that it holds, where the sink tells them, how often
    /// a write failed, and whether the last one did.
    ghost view: { Self → SinkView };

    /// Appends bytes from the front of `bytes`, and says how many: one or more. After a failure it holds what it held
    /// before. A call that fails counts one fault, and one that goes through none.
    fn write(&mut self, bytes: &[u8]) -> Result<usize, Failed>
        requires { 0 < length bytes.now }
        ensures some { IfOk result (λ n. 1 ≤ n) }
        ensures bound { IfOk result (λ n. n ≤ length bytes.now) }
        ensures bytes { IfOk result (λ n. Takes (view self.old) (take n bytes.now) (view self.new)) }
        ensures err { OnErr result (TakesNothing (view self.old) (view self.new)) }
        ensures cause { HasCause (view self.old).faults (view self.new).faults result }
        ensures told { OnOk result ((view self.new).faults ≡ (view self.old).faults) }
        ensures one { OnErr result ((view self.new).faults ≡ raised (view self.old).faults) }
        ensures last { (view self.new).failed ≡ is_err result };
}

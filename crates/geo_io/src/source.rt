//! What bytes come from.
ghost use Rattle.std.specs.Prelude.{◌≡◌, ◌≤◌, ◌<◌, ◌==◌, length, take, IfOk, OnErr, OnOk, is_err};
ghost use Rattle.geo_base.specs.Faults.{HasCause};
ghost use Rattle.geo_io.specs.Counts.{CountsOnce, raised};
ghost use Rattle.geo_io.specs.Source.{Gives, GivesNothing, IsEnd, IsMore, SourceView};

use thiserror::Error;

/// A call of a source or a sink failed.
#[derive(Clone, Copy, Debug, PartialEq, Eq, Error)]
#[error("the call failed")]
pub struct Failed;

/// What bytes come from, as a file or a stream.
pub trait Source {
    /// What its calls show: what its reads gave so far, whether the last one found the end, the bytes left, where the
    /// source tells them, how often it was read, as far as it counts that, how often a read failed, and whether the
    /// last one did.
    ghost view: { Self → SourceView };

    /// Moves bytes that are left to the front of `out`, and says how many: 0 exactly where nothing is left. After a
    /// failure as much is left as before. A call that fails counts one fault, and one that goes through none.
    fn read(&mut self, out: &mut [u8]) -> Result<usize, Failed>
        requires { 0 < length out.old }
        ensures bound { IfOk result (λ n. n ≤ length out.new) }
        ensures bytes { IfOk result (λ n. Gives (view self.old) (take n out.new) (view self.new)) }
        ensures end { IfOk result (λ n. n ≡ 0 → IsEnd (view self.old).left) }
        ensures more { IfOk result (λ n. 0 < n → IsMore (view self.old).left) }
        ensures ended { IfOk result (λ n. (view self.new).ended ≡ (n == 0)) }
        ensures err { OnErr result (GivesNothing (view self.old) (view self.new)) }
        ensures cause { HasCause (view self.old).faults (view self.new).faults result }
        ensures told { OnOk result ((view self.new).faults ≡ (view self.old).faults) }
        ensures once { CountsOnce (view self.old).reads (view self.new).reads }
        ensures one { OnErr result ((view self.new).faults ≡ raised (view self.old).faults) }
        ensures last { (view self.new).failed ≡ is_err result };
}

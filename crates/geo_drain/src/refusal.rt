//! Why a mesh didn't come to rest.
ghost use Rattle.std.specs.Prelude.{◌≡◌};
ghost use Rattle.geo_drain.specs.declared.refusal.DrainRefusal.TheVariants as refusals;

use geo_base::NoMemory;
use thiserror::Error;

/// Why a mesh didn't come to rest.
#[derive(Clone, Copy, Debug, PartialEq, Eq, Error)]
pub enum DrainRefusal {
    /// There is no place in the log for the step that is due.
    #[error("the log is full")]
    LogFull,
    /// Memory ran out.
    #[error("out of memory")]
    NoMemory,
}

impl From<NoMemory> for DrainRefusal {
    ghost from_gives = { λ _ refusal. refusal ≡ refusals.NoMemory };

    fn from(_error: NoMemory) -> DrainRefusal {
        DrainRefusal::NoMemory
    }
}

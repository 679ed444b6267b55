//! Why a step wasn't made.
ghost use Rattle.std.specs.Prelude.{◌≡◌};
ghost use Rattle.geo_core.specs.declared.refusal.ApplyRefusal.TheVariants as refusals;

use geo_base::NoMemory;
use geo_model::Found;
use thiserror::Error;

/// Why a step wasn't made.
#[derive(Clone, Copy, Debug, PartialEq, Eq, Error)]
pub enum ApplyRefusal {
    #[error("the step isn't enabled: {found:?}")]
    NotEnabled { found: Found },
    #[error("the log is full")]
    LogFull,
    #[error("out of memory")]
    NoMemory,
}

impl From<NoMemory> for ApplyRefusal {
    ghost from_gives = { λ _ refusal. refusal ≡ refusals.NoMemory };

    fn from(_error: NoMemory) -> ApplyRefusal {
        ApplyRefusal::NoMemory
    }
}

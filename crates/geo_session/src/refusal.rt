//! Why a step wasn't made.
ghost use Rattle.std.specs.Prelude.{◌≡◌};
ghost use Rattle.geo_session.specs.declared.refusal.SessionRefusal.TheVariants as refusals;

use geo_base::NoMemory;
use geo_model::Found;
use thiserror::Error;

/// Why a step wasn't made.
#[derive(Clone, Copy, Debug, PartialEq, Eq, Error)]
pub enum SessionRefusal {
    /// The step isn't enabled: this was found against it.
    #[error("the step isn't enabled: {found:?}")]
    NotEnabled { found: Found },
    /// Memory was wanting.
    #[error("out of memory")]
    NoMemory,
}

impl From<NoMemory> for SessionRefusal {
    ghost from_gives = { λ _ refusal. refusal ≡ refusals.NoMemory };

    fn from(_error: NoMemory) -> SessionRefusal {
        SessionRefusal::NoMemory
    }
}

//! Why a text isn't verified.

use geo_base::NoMemory;
use geo_model::Cause;
use thiserror::Error;

/// Why nothing is found of a text.
#[derive(Clone, Copy, Debug, PartialEq, Eq, Error)]
pub enum VerifyRefusal {
    /// What stands before its first line with a mark isn't a script: its first fault, by its line, counted from 1, and
    /// the cause that comes first there.
    #[error("fault in line {line}")]
    Script { line: u32, cause: Cause },
    /// The script is without fault, and this is the first line behind it that isn't of the form.
    #[error("line {line} isn't of a trace")]
    Trace { line: u32 },
    #[error("out of memory")]
    NoMemory,
}

impl From<NoMemory> for VerifyRefusal {
    ghost use Rattle.std.specs.Prelude.{◌≡◌};
    ghost use Rattle.geo_verify.specs.declared.refusal.VerifyRefusal.TheVariants as refusals;

    ghost from_gives = { λ _ refusal. refusal ≡ refusals.NoMemory };

    fn from(_error: NoMemory) -> VerifyRefusal {
        VerifyRefusal::NoMemory
    }
}

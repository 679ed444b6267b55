//! Why a line or a text isn't read.
use geo_model::Cause;
use std::alloc::{AllocError, AllocFailed};
use thiserror::Error;

/// Why a line isn't read: its fault, or want of memory.
#[derive(Clone, Copy, Debug, PartialEq, Eq)]
pub enum LineRefusal {
    Fault(Cause),
    NoMemory,
}

impl From<Cause> for LineRefusal {
    ghost use Rattle.std.specs.Prelude.{◌≡◌};
    ghost use Rattle.geo_script.specs.declared.refusal.LineRefusal.TheVariants.{Fault};

    ghost from_gives = { λ cause refusal. refusal ≡ Fault cause };

    fn from(cause: Cause) -> LineRefusal {
        LineRefusal::Fault(cause)
    }
}

impl From<AllocError> for LineRefusal {
    ghost use Rattle.std.specs.Prelude.{◌≡◌};
    ghost use Rattle.geo_script.specs.declared.refusal.LineRefusal.TheVariants.{NoMemory};

    ghost from_gives = { λ _ refusal. refusal ≡ NoMemory };

    fn from(_error: AllocError) -> LineRefusal {
        LineRefusal::NoMemory
    }
}

impl<T: Drop> From<AllocFailed<T>> for LineRefusal {
    ghost use Rattle.std.specs.Prelude.{◌≡◌};
    ghost use Rattle.geo_script.specs.declared.refusal.LineRefusal.TheVariants.{NoMemory};

    ghost from_gives = { λ _ refusal. refusal ≡ NoMemory };

    fn from(_error: AllocFailed<T>) -> LineRefusal {
        LineRefusal::NoMemory
    }
}

/// Why a text has no plan.
#[derive(Clone, Copy, Debug, PartialEq, Eq, Error)]
pub enum ParseRefusal {
    /// It isn't a script: its first fault, by its line, counted from 1, and the cause that comes first there.
    #[error("fault in line {line}")]
    Fault { line: u32, cause: Cause },
    #[error("out of memory")]
    NoMemory,
}

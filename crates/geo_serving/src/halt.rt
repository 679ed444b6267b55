//! Why a session stops before it is over.
ghost use Rattle.std.specs.Prelude.{◌≡◌};
ghost use Rattle.geo_serving.specs.declared.halt.Halt.TheVariants as halts;

use geo_base::NoMemory;

/// Why a session stops before it is over.
#[derive(Clone, Copy, Debug, PartialEq, Eq)]
pub enum Halt {
    /// The client is gone: its stream ended.
    Gone,
    /// A read failed.
    ReadFault,
    /// A write failed.
    WriteFault,
    /// Memory was wanting.
    NoMemory,
}

impl From<NoMemory> for Halt {
    ghost from_gives = { λ _ halt. halt ≡ halts.NoMemory };

    fn from(_error: NoMemory) -> Halt {
        Halt::NoMemory
    }
}

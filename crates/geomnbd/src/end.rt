//! How a session ends.
ghost use Rattle.std.specs.Prelude.{◌≡◌};
ghost use Rattle.geomnbd.specs.Statuses.{halt_status, status_of};

use crate::stop::Stop;
use geo_serving::Halt;

/// How a session ends.
#[derive(Clone, Copy, Debug, PartialEq, Eq)]
pub enum End {
    /// It is over, as the client has it.
    Over,
    /// It halts.
    Halted(Halt),
    /// It isn't begun.
    Stopped(Stop),
}

/// The status where a session halts.
fn halt_status(halt: Halt) -> u8
    ensures { result ≡ halt_status halt }
{
    match halt {
        Halt::Gone => 0,
        Halt::ReadFault => 3,
        Halt::WriteFault => 4,
        Halt::NoMemory => 6,
    }
}

impl End {
    /// The status with which the program ends.
    pub fn status(&self) -> u8
        ensures { result ≡ status_of self.now }
    {
        match self {
            End::Over => 0,
            End::Halted(halt) => halt_status(*halt),
            End::Stopped(stop) => stop.status(),
        }
    }
}

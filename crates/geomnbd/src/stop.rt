//! Why a session isn't begun.
ghost use Rattle.std.specs.Prelude.{◌≡◌};
ghost use Rattle.geomnbd.specs.Statuses.{stop_status};
ghost use Rattle.geomnbd.specs.declared.stop.Stop.TheVariants as stops;

use geo_base::NoMemory;
use geo_io::ReadRefusal;
use geo_session::SessionRefusal;
use std::alloc::{AllocError, AllocFailed};

/// Why a session isn't begun.
#[derive(Clone, Copy, Debug, PartialEq, Eq)]
pub enum Stop {
    /// The words aren't `SCRIPT EXPORT..`, or there are more than ten exports.
    BadWords,
    /// The script can't be opened.
    NoFile,
    /// A line of the script isn't one.
    NoScript { line: u32 },
    /// A read of the script failed.
    ReadFault,
    /// The disk of this number, counted from 0 in the order of the header, can't be had.
    NoDisk { disk: u32 },
    /// Memory was wanting.
    NoMemory,
    /// The command of this line was refused.
    Refused { line: u32 },
    /// The export of this number, counted from 0, isn't a provider that can be opened to read and to write.
    NoExport { export: u32 },
}

impl From<NoMemory> for Stop {
    ghost from_gives = { λ _ stop. stop ≡ stops.NoMemory };

    fn from(_error: NoMemory) -> Stop {
        Stop::NoMemory
    }
}

impl From<AllocError> for Stop {
    ghost from_gives = { λ _ stop. stop ≡ stops.NoMemory };

    fn from(_error: AllocError) -> Stop {
        Stop::NoMemory
    }
}

impl<T: Drop> From<AllocFailed<T>> for Stop {
    ghost from_gives = { λ _ stop. stop ≡ stops.NoMemory };

    fn from(_error: AllocFailed<T>) -> Stop {
        Stop::NoMemory
    }
}

/// Why a text wasn't read whole.
pub fn read_fault(refusal: ReadRefusal) -> Stop {
    match refusal {
        ReadRefusal::ReadFault => Stop::ReadFault,
        ReadRefusal::TooLong => Stop::NoScript { line: 1 },
        ReadRefusal::NoMemory => Stop::NoMemory,
    }
}

/// Why a command wasn't made that stands in this line.
pub fn not_made(refusal: SessionRefusal, line: u32) -> Stop {
    match refusal {
        SessionRefusal::NotEnabled { .. } => Stop::Refused { line },
        SessionRefusal::NoMemory => Stop::NoMemory,
    }
}

impl Stop {
    /// The status with which the program ends.
    pub fn status(&self) -> u8
        ensures { result ≡ stop_status self.now }
    {
        match self {
            Stop::BadWords => 1,
            Stop::NoFile | Stop::NoScript { .. } => 2,
            Stop::ReadFault => 3,
            Stop::NoDisk { .. } => 5,
            Stop::NoMemory => 6,
            Stop::Refused { .. } | Stop::NoExport { .. } => 7,
        }
    }
}

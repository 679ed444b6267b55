//! Why a text doesn't do what it is given for.
ghost use Rattle.std.specs.Prelude.{◌≡◌};
ghost use Rattle.geo_exports.specs.Texts.{fault_line, refusal_code};

use crate::codes::{NO_MEMORY, WRONG};

/// Why a text doesn't do what it is given for.
#[derive(Clone, Copy, Debug, PartialEq, Eq)]
pub enum Refusal {
    /// It has 2^32 bytes or more.
    Long,
    /// It isn't a script; its first line that is against the grammar.
    Fault { line: u32 },
    /// The sizes don't fit the disks of its header.
    Sizes,
    /// It has no command, or several.
    Commands,
    NoMemory,
}

/// The number of a refusal.
pub fn refusal_code(refusal: Refusal) -> i32
    ensures { result ≡ refusal_code refusal }
{
    match refusal {
        Refusal::NoMemory => NO_MEMORY,
        _ => WRONG,
    }
}

/// The line of a fault, and 0 for another refusal.
pub fn fault_line(refusal: Refusal) -> u32
    ensures { result ≡ fault_line refusal }
{
    match refusal {
        Refusal::Fault { line } => line,
        _ => 0,
    }
}

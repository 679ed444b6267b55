//! Why a run has no report, and what it writes then.
ghost use Rattle.std.specs.Prelude.{◌≡◌, ◌++◌, codes};
ghost use Rattle.geo_model.specs.Report.{end_line};
ghost use Rattle.geo_model.specs.Script.{cause_text};

use geo_base::{Name, NoMemory};
use geo_headline::Verified;
use geo_model::Cause;

/// Why a run has no report.
#[derive(Clone, Copy, Debug)]
pub enum Stop {
    /// The words aren't accepted.
    BadWords,
    /// The text isn't a script: its first fault.
    NoScript { line: u32, cause: Cause },
    /// The source failed.
    ReadFault,
    /// The shelf failed at the take of this name.
    ShelfFault(Name),
    /// The shelf has no disk of this name.
    NoDisk(Name),
    /// What the shelf has under this name isn't one or more whole sectors, or is too long.
    BadSize(Name),
    /// Memory ran out.
    NoMemory,
    /// The step that was due had no place in the log.
    LogFull,
    /// The source gave more bytes than a script may have, or a trace where one is to be verified.
    TooLong,
    /// A trace was asked for, and this is what is found of it.
    Answered(Verified),
    /// The line of a trace, behind a script without fault, that is the first one that isn't of the form.
    NoTrace { line: u32 },
}

impl From<NoMemory> for Stop {
    ghost use Rattle.std.specs.Prelude.{◌≡◌};
    ghost use Rattle.geo_run.specs.declared.stop.Stop.TheVariants as stops;

    ghost from_gives = { λ _ stop. stop ≡ stops.NoMemory };

    fn from(_error: NoMemory) -> Stop {
        Stop::NoMemory
    }
}

/// The end of the line that tells a cause.
pub fn cause_line(cause: Cause) -> &'static [u8]
    ensures { result.now ≡ codes ": " ++ cause_text cause ++ end_line }
{
    match cause {
        Cause::Lines => b": lines\n",
        Cause::Long => b": long\n",
        Cause::Byte => b": byte\n",
        Cause::Space => b": space\n",
        Cause::Header => b": header\n",
        Cause::Actor => b": actor\n",
        Cause::Words => b": words\n",
        Cause::Name => b": name\n",
        Cause::Number => b": number\n",
        Cause::Range => b": range\n",
        Cause::Counts => b": counts\n",
        Cause::Runs => b": runs\n",
        Cause::Word => b": word\n",
        Cause::Twice => b": twice\n",
        Cause::Many => b": many\n",
    }
}

//! What a command of a line answers.
ghost use Rattle.std.specs.Prelude.{◌≡◌};
ghost use Rattle.geo_model.specs.declared.step.Outcome.TheVariants as outcomes;
ghost use Rattle.geo_model.specs.declared.step.Reply.TheVariants as replies;

use geo_base::Errno;
use geo_model::{Outcome, Reply};

/// The command of a line is done.
pub fn done(line: u32) -> Outcome
    ensures { result ≡ outcomes.Replied line replies.Ok }
{
    Outcome::Replied {
        line,
        reply: Reply::Ok,
    }
}

/// The command of a line is refused.
pub fn refused(line: u32, errno: Errno) -> Outcome
    ensures { result ≡ outcomes.Replied line (replies.Refused errno) }
{
    Outcome::Replied {
        line,
        reply: Reply::Refused(errno),
    }
}

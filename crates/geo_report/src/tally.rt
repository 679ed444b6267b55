//! What is counted of the replies.
ghost use Rattle.std.specs.Prelude.{◌≡◌, ◌<◌, ◌≤◌, ◌^◌, [], All, IfSome};
ghost use Rattle.std.specs.Option.{option_copied};
ghost use Rattle.geo_model.specs.Report.{errno_number, reply_len};
ghost use Rattle.geo_report.specs.Places.{ArePlaces};
ghost use Rattle.geo_report.specs.Tallies.{IsTally, IsBelow, with_reply, noted_answer, replies_of};

use crate::places::find_reply;
use geo_base::{Errno, MAX_SCRIPT_LINES};
use geo_model::{Entry, LineCommand, Reply};

/// How many replies are ok, how many name each error, and of how many bytes they are.
#[derive(Clone, Copy, Debug)]
pub struct Tally {
    pub ok: u64,
    pub errors: [u64; 11],
    pub bytes: u128,
}

/// The place of an error in the list of errors.
pub fn errno_number(errno: Errno) -> usize
    ensures number { result ≡ errno_number errno }
    ensures below { result < 11 }
{
    match errno {
        Errno::ENOENT => 0,
        Errno::EEXIST => 1,
        Errno::EBADF => 2,
        Errno::ENXIO => 3,
        Errno::EPERM => 4,
        Errno::EOVERFLOW => 5,
        Errno::EBUSY => 6,
        Errno::EINVAL => 7,
        Errno::EIO => 8,
        Errno::ELOOP => 9,
        Errno::EDEEP => 10,
    }
}

impl Tally {
    /// Of no replies.
    #[tactic(auto, using(crate::proofs::TallyLemmas::no_replies))]
    fn none() -> Tally
        ensures tally { IsTally [] result }
        ensures bytes { result.bytes ≡ 0 }
    {
        Tally {
            ok: 0,
            errors: [0; 11],
            bytes: 0,
        }
    }

    /// One more reply.
    fn note(&mut self, reply: &Reply)
        requires room { IsBelow 18446744073709551614 self.old }
        ensures noted { self.new ≡ with_reply self.old reply.now }
        ensures length { reply_len reply.now < 2 ^ 64 }
    {
        match reply {
            Reply::Ok => self.ok += 1,
            Reply::Bytes(bytes) => {
                self.ok += 1;
                self.bytes += bytes.len() as u128;
            }
            Reply::Refused(errno) => self.errors[errno_number(*errno)] += 1,
            Reply::Listing(_) => self.ok += 1,
        }
    }

    /// The reply to one more line, if it has one.
    fn note_answer(&mut self, reply: Option<&Reply>)
        requires room { IsBelow 18446744073709551614 self.old }
        ensures noted { self.new ≡ noted_answer self.old (option_copied reply.entry) }
        ensures length { IfSome (option_copied reply.entry) (λ r. reply_len r < 2 ^ 64) }
    {
        match reply {
            Some(reply) => self.note(reply),
            None => {}
        }
    }
}

/// What is counted of the replies to all lines.
pub fn tally_of(log: &[Entry], places: &[Option<usize>], commands: &[LineCommand]) -> Tally
    requires places { ArePlaces log.now places.now }
    requires lines { All (λ c. c.line ≤ MAX_SCRIPT_LINES) commands.now }
    ensures { IsTally (replies_of log.now commands.now) result }
{
    let mut tally = Tally::none();
    for command in commands {
        tally.note_answer(find_reply(log, places, command.line));
    }
    tally
}

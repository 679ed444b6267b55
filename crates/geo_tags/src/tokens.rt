//! The slots of tokens: a tag is a key of a slab.
ghost use Rattle.std.specs.Prelude.{◌≡◌, ◌<◌, ◌≤◌, ◌^◌, true, false, None, IfNone, IfSome, IsOk, OnOk};
ghost use Rattle.slab.specs.Slab.{get, HasRoomFor};
ghost use Rattle.geo_laws_owed.specs.OwedLaws.{is_close};
ghost use Rattle.geo_tags.specs.Tokens.{changed_to, taken_by, HandsOut, IsExpected};

use crate::due::Due;
use geo_base::{BioId, NoMemory};
use geo_model::{Command, Outcome, Step};
use slab::Slab;

/// The tag of the next request, if it fits the number of a line.
pub fn next_tag(tokens: &Slab<u64>) -> Option<u32>
    ensures fits { IfSome result (λ tag. tag ≡ tokens.now.vacant_key) }
    ensures none { IfNone result (2 ^ 32 ≤ tokens.now.vacant_key) }
    ensures free { get tokens.now tokens.now.vacant_key ≡ None }
{
    let tag = tokens.vacant_key();
    if tag <= u32::MAX as usize {
        Some(tag as u32)
    } else {
        None
    }
}

/// Makes room for the token of a command, of which a close has none.
pub fn make_room(tokens: &mut Slab<u64>, command: &Command) -> Result<(), NoMemory>
    ensures kept { tokens.new ≡ record tokens.old { capacity = tokens.new.capacity } }
    ensures room { OnOk result (is_close command.now ≡ false → HasRoomFor tokens.new 1) }
    ensures sure { is_close command.now ≡ true → IsOk result }
{
    if let Command::Close(_) = command {
        return Ok(());
    }
    tokens.reserve(1)?;
    Ok(())
}

/// The disk and the bio of a Take.
pub fn taken_by(step: &Step) -> Option<(u32, BioId)>
    ensures { result ≡ taken_by step.now }
{
    match step {
        Step::Take { disk, bio } => Some((*disk, *bio)),
        _ => None,
    }
}

/// The generation after a step, if it is another one than before.
pub fn changed_to(before: u64, after: u64) -> Option<u64>
    ensures changed { result ≡ changed_to before after }
    ensures fits { before < 2 ^ 64 }
{
    if before == after { None } else { Some(after) }
}

/// What is due by the outcome of a step, and by the generation if it is another one. A reply takes the token of its
/// tag.
pub fn hand_out(
    tokens: &mut Slab<u64>,
    taken: Option<(u32, BioId)>,
    outcome: Outcome,
    changed: Option<u64>,
) -> Due
    requires { IsExpected tokens.old taken outcome }
    ensures { HandsOut result taken outcome changed tokens.old tokens.new }
{
    match outcome {
        Outcome::Asked(request) => match taken {
            Some((disk, bio)) => Due::Ask { disk, bio, request },
            None => unreachable!(),
        },
        Outcome::Replied { line, reply } => Due::Reply {
            token: tokens.remove(line as usize),
            reply,
        },
        other => {
            drop(other);
            match changed {
                Some(generation) => Due::Changed { generation },
                None => Due::Moved,
            }
        }
    }
}

//! What is done to a live mesh and the tokens of its requests.
ghost use Rattle.std.specs.Prelude.{◌≡◌, None, IsOk};
ghost use Rattle.slab.specs.Slab.{get};
ghost use Rattle.geo_model.specs.Plans.{IsCommand};
ghost use Rattle.geo_tags.specs.Calls.{Delivers, Nexts, Submits, SurelyCloses};
ghost use Rattle.geo_tags.specs.Tags.{tagged_view, EachWaits};

use crate::due::Due;
use crate::tokens::{changed_to, hand_out, make_room, next_tag, taken_by};
use geo_base::{BioId, NoMemory};
use geo_model::{Command, DeviceResult, Found, LineCommand, Outcome, Reply, Step};
use geo_session::{Session, SessionRefusal};
use slab::Slab;

/// Makes a command whose line is the next tag. Room for its token is made before, so nothing is wanting behind it.
pub fn submit(
    session: &mut Session,
    tokens: &mut Slab<u64>,
    actor: u32,
    command: Command,
    token: u64,
) -> Result<Option<Reply>, SessionRefusal>
    requires waits { EachWaits (tagged_view session.old tokens.old) }
    requires is_command { IsCommand command }
    ensures waits { EachWaits (tagged_view session.new tokens.new) }
    ensures free { get tokens.old tokens.old.vacant_key ≡ None }
    ensures submits { Submits result (tagged_view session.old tokens.old) (tagged_view session.new tokens.new) actor
        command token }
    ensures sure { SurelyCloses (tagged_view session.old tokens.old) actor command → IsOk result }
{
    session.no_commands();
    let Some(tag) = next_tag(tokens) else {
        return Err(SessionRefusal::NoMemory);
    };
    make_room(tokens, &command)?;
    let line = LineCommand {
        line: tag,
        actor,
        command,
    };
    match session.command(&line)? {
        Outcome::Replied { reply, .. } => Ok(Some(reply)),
        accepted => {
            drop(accepted);
            tokens.insert_reserved(token);
            Ok(None)
        }
    }
}

/// Makes the step that is picked.
pub fn next(session: &mut Session, tokens: &mut Slab<u64>) -> Result<Due, NoMemory>
    requires waits { EachWaits (tagged_view session.old tokens.old) }
    ensures waits { EachWaits (tagged_view session.new tokens.new) }
    ensures nexts { Nexts result (tagged_view session.old tokens.old) (tagged_view session.new tokens.new) }
{
    session.history();
    session.no_commands();
    let Some(step) = session.pick() else {
        return Ok(Due::Idle);
    };
    let taken = taken_by(&step);
    let before = session.generation();
    match session.step(0, step) {
        Ok(outcome) => {
            let after = session.generation();
            let changed = changed_to(before, after);
            Ok(hand_out(tokens, taken, outcome, changed))
        }
        Err(SessionRefusal::NoMemory) => Err(NoMemory),
        Err(SessionRefusal::NotEnabled { .. }) => unreachable!(),
    }
}

/// Delivers what a disk answers. It takes no memory.
pub fn answer(
    session: &mut Session,
    tokens: &Slab<u64>,
    bio: BioId,
    got: DeviceResult,
) -> Result<(), Found>
    requires waits { EachWaits (tagged_view session.old tokens.now) }
    ensures waits { EachWaits (tagged_view session.new tokens.now) }
    ensures delivers { Delivers result (tagged_view session.old tokens.now) (tagged_view session.new tokens.now) bio
        got }
{
    session.history();
    match session.step(0, Step::Deliver { bio, got }) {
        Ok(outcome) => {
            drop(outcome);
            Ok(())
        }
        Err(SessionRefusal::NotEnabled { found }) => Err(found),
        Err(SessionRefusal::NoMemory) => unreachable!(),
    }
}

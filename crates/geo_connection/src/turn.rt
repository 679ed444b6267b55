//! What the mesh is given, and what becomes of a client's requests by what it says.
ghost use Rattle.std.specs.Prelude.{◌≡◌, IfOk};
ghost use Rattle.geo_model.specs.Plans.{IsCommand};
ghost use Rattle.geo_connection.specs.Turns.{Gives, Goes, IsTurn, TurnsBy};

use geo_base::{BioId, Errno, NoMemory};
use geo_model::{Reply, Request};
use geo_server::{Begun, Replied, Service};
use geo_tags::{Due, SessionRefusal, TaggedSession};
use geo_text::Text;
use std::alloc::Global;

/// The actor of the mesh that gives all commands of a client.
const ACTOR: u32 = 0;

/// What is to be done after a turn.
#[derive(Drop)]
pub enum Turn {
    /// This command is to be given to the mesh.
    Gives(Begun),
    /// These bytes are to be sent.
    Says(Text),
    /// A disk is to be asked, and its answer given to the mesh for this bio.
    Asks {
        disk: u32,
        bio: BioId,
        request: Request,
    },
    /// Nothing: the mesh goes on.
    Moved,
    /// Nothing: no step is due.
    Idle,
}

/// The mesh replied under a token.
fn turn_by(alloc: Global, service: &mut Service, token: u64, reply: Reply) -> Result<Turn, NoMemory>
    ensures turns { IfOk result (λ turn. TurnsBy turn service.old service.new token reply) }
    ensures is_turn { IfOk result IsTurn }
{
    match service.replied(alloc, token, reply) {
        Ok(Replied::Goes(command)) => Ok(Turn::Gives(Begun { token, command })),
        Ok(Replied::Ends(sent)) => Ok(Turn::Says(sent)),
        Ok(Replied::Unknown) => Ok(Turn::Moved),
        Err(_) => Err(NoMemory),
    }
}

/// Gives the mesh a command. One that it doesn't make, since it has no actor, is replied to as not permitted.
pub fn give(
    alloc: Global,
    service: &mut Service,
    mesh: &mut TaggedSession,
    begun: Begun,
) -> Result<Turn, NoMemory>
    requires { IsCommand begun.command }
    ensures gives { IfOk result (λ turn. Gives turn service.old service.new mesh.old mesh.new begun) }
    ensures is_turn { IfOk result IsTurn }
{
    let Begun { token, command } = begun;
    match mesh.submit(ACTOR, command, token) {
        Ok(None) => Ok(Turn::Moved),
        Ok(Some(reply)) => turn_by(alloc, service, token, reply),
        Err(SessionRefusal::NotEnabled { .. }) => {
            turn_by(alloc, service, token, Reply::Refused(Errno::EPERM))
        }
        Err(SessionRefusal::NoMemory) => Err(NoMemory),
    }
}

/// Makes the step of the mesh that is due.
pub fn next(
    alloc: Global,
    service: &mut Service,
    mesh: &mut TaggedSession,
) -> Result<Turn, NoMemory>
    ensures goes { IfOk result (λ turn. Goes turn service.old service.new mesh.old mesh.new) }
    ensures is_turn { IfOk result IsTurn }
{
    match mesh.next()? {
        Due::Ask { disk, bio, request } => Ok(Turn::Asks { disk, bio, request }),
        Due::Reply { token, reply } => turn_by(alloc, service, token, reply),
        Due::Moved | Due::Changed { .. } => Ok(Turn::Moved),
        Due::Idle => Ok(Turn::Idle),
    }
}

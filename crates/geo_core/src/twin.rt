//! An outcome once more, where what it has was copied before the step.
ghost use Rattle.std.specs.Prelude.{◌≡◌, ℕ, false, IfOk, IsOk, IfSome};
ghost use Rattle.geo_model.specs.Bios.{reply_of_result};
ghost use Rattle.geo_model.specs.World.{bio_among};
ghost use Rattle.geo_bio.specs.Up.{resolved};
ghost use Rattle.geo_log.specs.Places.{delivered_at};
ghost use Rattle.geo_core.specs.declared.twin.Spare.TheVariants as spares;
ghost use Rattle.geo_core.specs.Mesh.{world_of, IsSure};
ghost use Rattle.geo_core.specs.Running.{seen, IsMesh};
ghost use Rattle.geo_core.specs.Twins.{HasReply, HasTwin, HasOutcome, HasCommand, HasRead, prints};

use crate::running::Running;
use geo_base::{BioId, NoMemory, SharedBytes};
use geo_model::{BioResult, Command, MeshList, Outcome, Owner, Reply, Request, Step};
use geo_moves::listing;
use std::alloc::Global;

/// What an outcome has that takes memory.
#[derive(Debug, Drop)]
pub enum Spare {
    Nothing,
    Bytes(SharedBytes),
    Lines(MeshList),
}

/// What the outcome of a step will have, if the step is enabled. A Deliver has nothing, nor has a close.
pub fn spare_of(alloc: Global, running: &Running, step: &Step) -> Result<Spare, NoMemory>
    requires mesh { IsMesh running.now }
    ensures outcome { IfOk result (λ spare. HasOutcome (world_of (seen running.now)) step.now spare) }
    ensures sure { (seat : ℕ) → IsSure (world_of (seen running.now)) seat step.now → IsOk result }
{
    match step {
        Step::Go { actor } => match running.left.next(&running.plan, *actor) {
            Ok(line) => lines_of(alloc, running, &line.command),
            Err(_) => Ok(Spare::Nothing),
        },
        Step::Take { bio, .. } => bytes_asked(alloc, running, *bio),
        Step::Up { bio } => bytes_read(alloc, running, *bio),
        _ => Ok(Spare::Nothing),
    }
}

// The mesh as it is printed, for the command that prints it.
fn lines_of(alloc: Global, running: &Running, command: &Command) -> Result<Spare, NoMemory>
    requires mesh { IsMesh running.now }
    ensures outcome { IfOk result (λ spare. HasCommand running.now.state command.now spare) }
    ensures sure { prints command.now ≡ false → IsOk result }
{
    match command {
        Command::Mesh => Ok(Spare::Lines(listing(alloc, &running.state)?)),
        _ => Ok(Spare::Nothing),
    }
}

// The bytes with which a disk is asked.
fn bytes_asked(alloc: Global, running: &Running, bio: BioId) -> Result<Spare, NoMemory>
    ensures { IfSome (bio_among running.now.state.traffic.bios bio) (λ x.
        IfOk result (λ spare. spare ≡ spares.Bytes x.bytes)) }
{
    match running.state.traffic.get(bio) {
        Some(found) => Ok(Spare::Bytes(found.bytes.copy(alloc)?)),
        None => Ok(Spare::Nothing),
    }
}

// The bytes that a line's request has read.
fn bytes_read(alloc: Global, running: &Running, bio: BioId) -> Result<Spare, NoMemory>
    ensures { IfSome (bio_among running.now.state.traffic.bios bio) (λ x. IfOk result (λ spare.
        HasRead (delivered_at running.now.log.items) x spare)) }
{
    match running.state.traffic.get(bio) {
        Some(found) => match found.owner {
            Owner::Line { .. } => result_read(alloc, running, bio),
            _ => Ok(Spare::Nothing),
        },
        None => Ok(Spare::Nothing),
    }
}

// The bytes of the result that a request has.
fn result_read(alloc: Global, running: &Running, bio: BioId) -> Result<Spare, NoMemory>
    ensures { IfSome (bio_among running.now.state.traffic.bios bio) (λ x. IfOk result (λ spare.
        HasReply (reply_of_result (resolved (delivered_at running.now.log.items) x.result)) spare)) }
{
    match running.state.traffic.copied(alloc, bio, &running.log)? {
        BioResult::Bytes(bytes) => Ok(Spare::Bytes(bytes)),
        _ => Ok(Spare::Nothing),
    }
}

/// The outcome once more.
pub fn twin(outcome: &Outcome, spare: Spare) -> Outcome
    requires { HasTwin outcome.now spare }
    ensures { result ≡ outcome.now }
{
    match outcome {
        Outcome::Replied { line, reply } => Outcome::Replied {
            line: *line,
            reply: twin_reply(reply, spare),
        },
        Outcome::Accepted { line, bio } => Outcome::Accepted {
            line: *line,
            bio: *bio,
        },
        Outcome::Reading { bio } => Outcome::Reading { bio: *bio },
        Outcome::Ran => Outcome::Ran,
        Outcome::Split { first, count } => Outcome::Split {
            first: *first,
            count: *count,
        },
        Outcome::Queued { disk } => Outcome::Queued { disk: *disk },
        Outcome::Bounced => Outcome::Bounced,
        Outcome::Asked(request) => Outcome::Asked(twin_request(request, spare)),
        Outcome::Delivered => Outcome::Delivered,
        Outcome::Gathered { parent, complete } => Outcome::Gathered {
            parent: *parent,
            complete: *complete,
        },
        Outcome::TasteBack => Outcome::TasteBack,
    }
}

// The reply once more.
fn twin_reply(reply: &Reply, spare: Spare) -> Reply
    requires { HasReply reply.now spare }
    ensures { result ≡ reply.now }
{
    match reply {
        Reply::Ok => Reply::Ok,
        Reply::Refused(errno) => Reply::Refused(*errno),
        Reply::Bytes(_) => match spare {
            Spare::Bytes(bytes) => Reply::Bytes(bytes),
            _ => unreachable!(),
        },
        Reply::Listing(_) => match spare {
            Spare::Lines(lines) => Reply::Listing(lines),
            _ => unreachable!(),
        },
    }
}

// The request once more.
fn twin_request(request: &Request, spare: Spare) -> Request
    requires { spare ≡ spares.Bytes request.now.bytes }
    ensures { result ≡ request.now }
{
    match spare {
        Spare::Bytes(bytes) => Request {
            disk: request.disk,
            cmd: request.cmd,
            first: request.first,
            count: request.count,
            bytes,
        },
        _ => unreachable!(),
    }
}

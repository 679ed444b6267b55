//! The requests of a client over the streams.
ghost use Rattle.std.specs.Prelude.{◌≡◌, Some, IfOk, MatchResult, length};
ghost use Rattle.geo_connection.specs.Turns.{IsTurn};
ghost use Rattle.geo_connection.specs.Turns as calls;
ghost use Rattle.geo_io.specs.Sink.{SinkView};
ghost use Rattle.geo_io.specs.Source.{Gives, SourceView};
ghost use Rattle.geo_model.specs.Plans.{IsCommand};
ghost use Rattle.geo_server.specs.Judging.{data_len};
ghost use Rattle.geo_serving.specs.Courses.{Course, Halted, HaltsAt, Makes};
ghost use Rattle.geo_serving.specs.Doings.{IsDoing};
ghost use Rattle.geo_serving.specs.Steps.{Meets};
ghost use Rattle.geo_serving.specs.Streams.{ReadsShort};
ghost use Rattle.geo_serving.specs.declared.halt.Halt.TheVariants as halts;
ghost use Rattle.geo_serving.specs.Points.{awaits, does, follows, headed, met_doing, over, point_of};
ghost use Rattle.geo_serving.specs.declared.client.Client.{Client as ClientValue};
ghost use Rattle.geo_tags.specs.Tags.{TaggedView};

use crate::client::{Client, Doing};
use crate::desk::{Desk, ask_disk};
use crate::halt::Halt;
use crate::streams::{read_full, read_message, say};
use geo_base::SharedBytes;
use geo_connection::{Begun, Met, Turn, give, meet, next};
use geo_disk::Disk;
use geo_io::{Sink, Source};
use geo_nbd::Request;
use geo_server::data_len;
use geo_text::Text;
use std::alloc::Global;
use std::sync::Wait;

/// What comes behind a head.
fn headed(read: Option<Request>) -> Doing
    ensures { result ≡ headed read }
{
    match read {
        Some(request) => Doing::Follows(request),
        None => Doing::Over,
    }
}

/// Reads the head of a request.
fn read_head<S: Source>(source: &mut S) -> Result<Doing, Halt>
    ensures makes { (client : ClientValue) (mesh : TaggedView) (sink : SinkView) → MatchResult result
        (λ next. Makes (awaits client mesh) (S.view source.old) sink (point_of client mesh next) (S.view source.new) sink)
        (λ halt. HaltsAt (awaits client mesh) halt (S.view source.old) sink (S.view source.new) sink) }
    ensures is_doing { IfOk result IsDoing }
{
    let mut head = [0u8; 28];
    match read_full(source, &mut head) {
        Ok(()) => Ok(headed(Request::read(&head))),
        Err(halt) => Err(halt),
    }
}

/// What is to be done for a request.
fn met_doing(met: Met) -> Doing
    ensures { result ≡ met_doing met }
{
    match met {
        Met::Ends => Doing::Over,
        Met::Says(sent) => Doing::Does(Turn::Says(sent)),
        Met::Begins(begun) => Doing::Does(Turn::Gives(begun)),
    }
}

/// Reads what comes behind the head of a request, of which so many bytes do.
fn read_bytes<S: Source>(alloc: Global, source: &mut S, len: u32) -> Result<SharedBytes, Halt>
    ensures len { IfOk result (λ bytes. length bytes ≡ len) }
    ensures reads { MatchResult result (λ bytes. Gives (S.view source.old) bytes (S.view source.new))
        (λ halt. ReadsShort halt len (S.view source.old) (S.view source.new)) }
{
    match read_message(alloc, source, len) {
        Ok(message) => Ok(SharedBytes::from_block(message).share(alloc)),
        Err(halt) => Err(halt),
    }
}

/// A request came with its bytes.
fn meet_with(
    alloc: Global,
    client: &mut Client,
    request: &Request,
    bytes: SharedBytes,
) -> Result<Doing, Halt>
    requires { data_len request.now ≡ Some (length bytes) }
    ensures meets { (mesh : TaggedView) → MatchResult result
        (λ next. Meets client.old mesh request.now bytes (point_of client.new mesh next))
        (λ halt. halt ≡ halts.NoMemory) }
    ensures is_doing { IfOk result IsDoing }
{
    let met = meet(alloc, &mut client.service, client.size, request, bytes)?;
    Ok(met_doing(met))
}

/// Reads what comes behind the head of a request, and begins what is to be done for it.
fn follow<S: Source>(
    alloc: Global,
    client: &mut Client,
    request: &Request,
    source: &mut S,
) -> Result<Doing, Halt>
    ensures makes { (mesh : TaggedView) (sink : SinkView) → MatchResult result
        (λ next. Makes (follows client.old mesh request.now) (S.view source.old) sink
        (point_of client.new mesh next) (S.view source.new) sink)
        (λ halt. HaltsAt (follows client.old mesh request.now) halt (S.view source.old) sink (S.view source.new) sink) }
    ensures is_doing { IfOk result IsDoing }
{
    let Some(len) = data_len(request) else {
        return Ok(Doing::Over);
    };
    match read_bytes(alloc, source, len) {
        Ok(bytes) => meet_with(alloc, client, request, bytes),
        Err(halt) => Err(halt),
    }
}

/// Gives the mesh a command.
fn give_on<D: Disk>(desk: &mut Desk<D>, client: &mut Client, begun: Begun) -> Result<Turn, Halt>
    requires { IsCommand begun.command }
    ensures gives { MatchResult result (λ turn. calls.Gives turn client.old.service client.new.service desk.old.mesh
        desk.new.mesh begun) (λ halt. halt ≡ halts.NoMemory) }
    ensures size { client.new.size ≡ client.old.size }
    ensures is_turn { IfOk result IsTurn }
{
    Ok(give(desk.alloc, &mut client.service, &mut desk.mesh, begun)?)
}

/// Makes the step of the mesh that is due.
fn go_on<D: Disk>(desk: &mut Desk<D>, client: &mut Client) -> Result<Turn, Halt>
    ensures goes { MatchResult result (λ turn. calls.Goes turn client.old.service client.new.service desk.old.mesh
        desk.new.mesh) (λ halt. halt ≡ halts.NoMemory) }
    ensures size { client.new.size ≡ client.old.size }
    ensures is_turn { IfOk result IsTurn }
{
    Ok(next(desk.alloc, &mut client.service, &mut desk.mesh)?)
}

/// Does what is to be done at a turn.
fn take_turn<D: Disk, K: Sink>(
    desk: &mut Desk<D>,
    client: &mut Client,
    turn: Turn,
    sink: &mut K,
) -> Result<Doing, Halt>
    requires { IsTurn turn }
    ensures makes { (source : SourceView) → MatchResult result
        (λ next. Makes (does client.old desk.old.mesh turn) source (K.view sink.old)
        (point_of client.new desk.new.mesh next) source (K.view sink.new))
        (λ halt. HaltsAt (does client.old desk.old.mesh turn) halt source (K.view sink.old) source (K.view sink.new)) }
    ensures is_doing { IfOk result IsDoing }
{
    match turn {
        Turn::Gives(begun) => match give_on(desk, client, begun) {
            Ok(following) => Ok(Doing::Does(following)),
            Err(halt) => Err(halt),
        },
        Turn::Says(sent) => match say(sink, sent.into_block().bytes()) {
            Ok(()) => Ok(Doing::Does(Turn::Moved)),
            Err(halt) => Err(halt),
        },
        Turn::Asks { disk, bio, request } => match ask_disk(desk, disk, bio, &request) {
            Ok(()) => Ok(Doing::Does(Turn::Moved)),
            Err(_) => Err(Halt::NoMemory),
        },
        Turn::Moved => match go_on(desk, client) {
            Ok(following) => Ok(Doing::Does(following)),
            Err(halt) => Err(halt),
        },
        Turn::Idle => Ok(Doing::Awaits),
    }
}

/// One step.
fn step<D: Disk, S: Source, K: Sink>(
    desk: &mut Desk<D>,
    client: &mut Client,
    doing: Doing,
    source: &mut S,
    sink: &mut K,
) -> Result<Doing, Halt>
    requires { IsDoing doing }
    ensures makes { MatchResult result
        (λ next. Makes (point_of client.old desk.old.mesh doing) (S.view source.old) (K.view sink.old)
        (point_of client.new desk.new.mesh next) (S.view source.new) (K.view sink.new))
        (λ halt. HaltsAt (point_of client.old desk.old.mesh doing) halt (S.view source.old) (K.view sink.old)
        (S.view source.new) (K.view sink.new)) }
    ensures is_doing { IfOk result IsDoing }
{
    match doing {
        Doing::Awaits => read_head(source),
        Doing::Follows(request) => follow(desk.alloc, client, &request, source),
        Doing::Does(turn) => take_turn(desk, client, turn, sink),
        Doing::Over => Ok(Doing::Over),
    }
}

/// Serves the requests of a client, until the session is over.
pub fn serve_client<R: Wait, D: Disk, S: Source, K: Sink>(
    rt: &R,
    desk: &mut Desk<D>,
    client: &mut Client,
    source: &mut S,
    sink: &mut K,
) -> Result<(), Halt>
    ensures { MatchResult result
        (λ _. Course (awaits client.old desk.old.mesh) (S.view source.old) (K.view sink.old) over
        (S.view source.new) (K.view sink.new))
        (λ halt. Halted (awaits client.old desk.old.mesh) (S.view source.old) (K.view sink.old) halt
        (S.view source.new) (K.view sink.new)) }
{
    let mut doing = Doing::Awaits;
    'steps: for _ in rt.forever() {
        match step(desk, client, doing, source, sink) {
            Ok(Doing::Over) => return Ok(()),
            Ok(following) => doing = following,
            Err(halt) => return Err(halt),
        }
    }
    unreachable!()
}

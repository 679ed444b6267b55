//! The handshake over the streams.
ghost use Rattle.std.specs.Prelude.{◌≡◌, MatchResult, length};
ghost use Rattle.geo_connection.specs.Stages.{awaited, hear};
ghost use Rattle.geo_connection.specs.declared.stage.Stage.TheVariants as stages;
ghost use Rattle.geo_serving.specs.Courses.{Course, Halted, HaltsAt, Makes};
ghost use Rattle.geo_serving.specs.Points.{chosen_point, greets, hears, talk_of, talk_point};
ghost use Rattle.geo_serving.specs.Streams.{SaysShort, SaysWhole};
ghost use Rattle.geo_tags.specs.Tags.{TaggedView};

use crate::halt::Halt;
use crate::streams::{read_message, say};
use geo_connection::{Heard, Stage, awaited, hear};
use geo_io::{Sink, Source};
use geo_nbd::Export;
use std::alloc::Global;
use std::sync::Wait;

/// An export that a client chose.
#[derive(Clone, Copy, Debug, PartialEq, Eq)]
pub struct Chosen {
    pub export: Export,
    pub structured: bool,
}

/// Where a message of the handshake leads.
#[derive(Clone, Copy, Debug, PartialEq, Eq)]
pub enum Talk {
    /// To the next message.
    On(Stage),
    /// To requests.
    Serves(Chosen),
    /// To the end.
    Ends,
}

/// What the next stage is.
fn talk_of(next: Stage) -> Talk
    ensures { result ≡ talk_of next }
{
    match next {
        Stage::Serving { export, structured } => Talk::Serves(Chosen { export, structured }),
        Stage::Ended => Talk::Ends,
        stage => Talk::On(stage),
    }
}

/// Sends what is said for a message, and gives the next stage.
fn answer_message<K: Sink>(
    alloc: Global,
    exports: &[Export],
    stage: Stage,
    message: &[u8],
    sink: &mut K,
) -> Result<Stage, Halt>
    requires { length message.now ≡ awaited stage }
    ensures { MatchResult result
        (λ next. SaysWhole (hear exports.now stage message.now) next (K.view sink.old) (K.view sink.new))
        (λ halt. SaysShort halt (hear exports.now stage message.now).sent (K.view sink.old) (K.view sink.new)) }
{
    let Heard { sent, next } = hear(alloc, exports, stage, message)?;
    match say(sink, sent.into_block().bytes()) {
        Ok(()) => Ok(next),
        Err(halt) => Err(halt),
    }
}

/// Reads the message that is awaited, and sends what is said for it.
fn exchange<S: Source, K: Sink>(
    alloc: Global,
    exports: &[Export],
    stage: Stage,
    source: &mut S,
    sink: &mut K,
) -> Result<Talk, Halt>
    ensures { (mesh : TaggedView) → MatchResult result
        (λ talk. Makes (hears exports.now stage mesh) (S.view source.old) (K.view sink.old)
        (talk_point exports.now mesh talk) (S.view source.new) (K.view sink.new))
        (λ halt. HaltsAt (hears exports.now stage mesh) halt (S.view source.old) (K.view sink.old)
        (S.view source.new) (K.view sink.new)) }
{
    let message = match read_message(alloc, source, awaited(&stage)) {
        Ok(message) => message,
        Err(halt) => return Err(halt),
    };
    match answer_message(alloc, exports, stage, message.bytes(), sink) {
        Ok(next) => Ok(talk_of(next)),
        Err(halt) => Err(halt),
    }
}

/// The handshake behind the greeting, until an export is chosen or the session is over.
pub fn handshake<R: Wait, S: Source, K: Sink>(
    rt: &R,
    alloc: Global,
    exports: &[Export],
    source: &mut S,
    sink: &mut K,
) -> Result<Option<Chosen>, Halt>
    ensures { (mesh : TaggedView) → MatchResult result
        (λ chosen. Course (hears exports.now stages.Flags mesh) (S.view source.old) (K.view sink.old)
        (chosen_point exports.now mesh chosen) (S.view source.new) (K.view sink.new))
        (λ halt. Halted (hears exports.now stages.Flags mesh) (S.view source.old) (K.view sink.old) halt
        (S.view source.new) (K.view sink.new)) }
{
    let mut stage = Stage::Flags;
    'talk: for _ in rt.forever() {
        match exchange(alloc, exports, stage, source, sink) {
            Ok(Talk::On(next)) => stage = next,
            Ok(Talk::Serves(chosen)) => return Ok(Some(chosen)),
            Ok(Talk::Ends) => return Ok(None),
            Err(halt) => return Err(halt),
        }
    }
    unreachable!()
}

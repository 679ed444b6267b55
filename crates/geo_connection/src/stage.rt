//! The handshake, as it is read of a client.
ghost use Rattle.std.specs.Prelude.{◌≡◌, length, IfOk};
ghost use Rattle.geo_nbd.specs.Handshake.{after_flags, answer, next_option};
ghost use Rattle.geo_connection.specs.Stages.{awaited, headed, hear, silent, stage_of, told};

use geo_base::NoMemory;
use geo_nbd::{Agreed, Answer, Export, OptionHead, Phase, after_flags, answer, next_option};
use geo_text::Text;
use std::alloc::Global;

/// What is read next of a client.
#[derive(Clone, Copy, Debug, PartialEq, Eq)]
pub enum Stage {
    /// Its flags.
    Flags,
    /// The head of an option.
    Head(Agreed),
    /// The data of an option, behind its head.
    Data(Agreed, OptionHead),
    /// Requests for this export, to which structured replies are given or simple ones.
    Serving { export: Export, structured: bool },
    /// Nothing: the session has ended.
    Ended,
}

/// What is sent for what was read, and what is read next.
#[derive(Drop)]
pub struct Heard {
    pub sent: Text,
    pub next: Stage,
}

/// How many bytes are read next in the handshake.
pub fn awaited(stage: &Stage) -> u32
    ensures { result ≡ awaited stage.now }
{
    match stage {
        Stage::Flags => 4,
        Stage::Head(_) => 16,
        Stage::Data(_, head) => head.len,
        _ => 0,
    }
}

/// The stage of a phase.
fn stage_of(phase: Phase) -> Stage
    ensures { result ≡ stage_of phase }
{
    match phase {
        Phase::Flags => Stage::Flags,
        Phase::Options(agreed) => Stage::Head(agreed),
        Phase::Serving { export, structured } => Stage::Serving { export, structured },
        Phase::Ended => Stage::Ended,
    }
}

/// Nothing is sent.
fn silent(alloc: Global, next: Stage) -> Heard
    ensures { result ≡ silent next }
{
    Heard {
        sent: Text::new(alloc),
        next,
    }
}

/// The flags came.
fn flagged(alloc: Global, bytes: &[u8]) -> Heard
    requires { length bytes.now ≡ 4 }
    ensures { result ≡ silent (stage_of (after_flags bytes.now)) }
{
    let mut flags = [0; 4];
    flags.copy_from_slice(bytes);
    silent(alloc, stage_of(after_flags(&flags)))
}

/// The head of an option came.
fn headed(alloc: Global, agreed: Agreed, bytes: &[u8]) -> Heard
    requires { length bytes.now ≡ 16 }
    ensures { result ≡ silent (headed agreed (next_option bytes.now)) }
{
    let mut head = [0; 16];
    head.copy_from_slice(bytes);
    match next_option(&head) {
        Some(found) => silent(alloc, Stage::Data(agreed, found)),
        None => silent(alloc, Stage::Ended),
    }
}

/// An option came with its data.
fn told(
    alloc: Global,
    exports: &[Export],
    agreed: Agreed,
    option: u32,
    bytes: &[u8],
) -> Result<Heard, NoMemory>
    ensures { IfOk result (λ heard. heard ≡ told (answer exports.now agreed option bytes.now)) }
{
    let Answer { sent, next } = answer(alloc, exports, agreed, option, bytes)?;
    Ok(Heard {
        sent,
        next: stage_of(next),
    })
}

/// What is sent for the bytes that were awaited in the handshake, and what is read next.
pub fn hear(
    alloc: Global,
    exports: &[Export],
    stage: Stage,
    bytes: &[u8],
) -> Result<Heard, NoMemory>
    requires { length bytes.now ≡ awaited stage }
    ensures { IfOk result (λ heard. heard ≡ hear exports.now stage bytes.now) }
{
    match stage {
        Stage::Flags => Ok(flagged(alloc, bytes)),
        Stage::Head(agreed) => Ok(headed(alloc, agreed, bytes)),
        Stage::Data(agreed, head) => told(alloc, exports, agreed, head.option, bytes),
        other => Ok(silent(alloc, other)),
    }
}

//! A whole session.
ghost use Rattle.std.specs.Prelude.{List, MatchResult, Some};
ghost use Rattle.geo_serving.specs.Courses.{Course, Halted};
ghost use Rattle.geo_serving.specs.Points.{chosen_point, greets, hears, over};
ghost use Rattle.geo_connection.specs.declared.stage.Stage.TheVariants as stages;
ghost use Rattle.geo_io.specs.Source.{SourceView};
ghost use Rattle.geo_nbd.specs.declared.export.Export.{Export as ExportValue};
ghost use Rattle.geo_tags.specs.Tags.{TaggedView};

use crate::client::Client;
use crate::desk::Desk;
use crate::exported::handle_at;
use crate::halt::Halt;
use crate::serving::serve_client;
use crate::streams::say;
use crate::talk::{Chosen, handshake};
use geo_connection::Service;
use geo_disk::Disk;
use geo_io::{Sink, Source};
use geo_nbd::{Export, GREETING};
use std::sync::Wait;

/// Greets the client.
fn greet<K: Sink>(sink: &mut K) -> Result<(), Halt>
    ensures { (exports : List ExportValue) (mesh : TaggedView) (source : SourceView) → MatchResult result
        (λ _. Course (greets exports mesh) source (K.view sink.old) (hears exports stages.Flags mesh) source
        (K.view sink.new))
        (λ halt. Halted (greets exports mesh) source (K.view sink.old) halt source (K.view sink.new)) }
{
    match say(sink, &GREETING) {
        Ok(()) => Ok(()),
        Err(halt) => Err(halt),
    }
}

/// Serves the export that was chosen.
fn serve_export<R: Wait, D: Disk, S: Source, K: Sink>(
    rt: &R,
    desk: &mut Desk<D>,
    exports: &[Export],
    chosen: Chosen,
    source: &mut S,
    sink: &mut K,
) -> Result<(), Halt>
    ensures { MatchResult result
        (λ _. Course (chosen_point exports.now desk.old.mesh (Some chosen)) (S.view source.old) (K.view sink.old) over
        (S.view source.new) (K.view sink.new))
        (λ halt. Halted (chosen_point exports.now desk.old.mesh (Some chosen)) (S.view source.old) (K.view sink.old) halt
        (S.view source.new) (K.view sink.new)) }
{
    match handle_at(exports, &chosen.export) {
        Some(handle) => {
            let mut client = Client {
                size: chosen.export.size,
                service: Service::new(desk.alloc, handle, chosen.structured),
            };
            serve_client(rt, desk, &mut client, source, sink)
        }
        None => Ok(()),
    }
}

/// Serves the export that was chosen, if one was.
fn serve_chosen<R: Wait, D: Disk, S: Source, K: Sink>(
    rt: &R,
    desk: &mut Desk<D>,
    exports: &[Export],
    chosen: Option<Chosen>,
    source: &mut S,
    sink: &mut K,
) -> Result<(), Halt>
    ensures { MatchResult result
        (λ _. Course (chosen_point exports.now desk.old.mesh chosen) (S.view source.old) (K.view sink.old) over
        (S.view source.new) (K.view sink.new))
        (λ halt. Halted (chosen_point exports.now desk.old.mesh chosen) (S.view source.old) (K.view sink.old) halt
        (S.view source.new) (K.view sink.new)) }
{
    match chosen {
        Some(export) => serve_export(rt, desk, exports, export, source, sink),
        None => Ok(()),
    }
}

/// What comes behind the greeting.
fn serve_greeted<R: Wait, D: Disk, S: Source, K: Sink>(
    rt: &R,
    desk: &mut Desk<D>,
    exports: &[Export],
    source: &mut S,
    sink: &mut K,
) -> Result<(), Halt>
    ensures { MatchResult result
        (λ _. Course (hears exports.now stages.Flags desk.old.mesh) (S.view source.old) (K.view sink.old) over
        (S.view source.new) (K.view sink.new))
        (λ halt. Halted (hears exports.now stages.Flags desk.old.mesh) (S.view source.old) (K.view sink.old) halt
        (S.view source.new) (K.view sink.new)) }
{
    match handshake(rt, desk.alloc, exports, source, sink) {
        Ok(chosen) => serve_chosen(rt, desk, exports, chosen, source, sink),
        Err(halt) => Err(halt),
    }
}

/// Serves a client through the exports of a mesh, from the greeting until the session is over.
pub fn serve<R: Wait, D: Disk, S: Source, K: Sink>(
    rt: &R,
    desk: &mut Desk<D>,
    exports: &[Export],
    source: &mut S,
    sink: &mut K,
) -> Result<(), Halt>
    ensures { MatchResult result
        (λ _. Course (greets exports.now desk.old.mesh) (S.view source.old) (K.view sink.old) over
        (S.view source.new) (K.view sink.new))
        (λ halt. Halted (greets exports.now desk.old.mesh) (S.view source.old) (K.view sink.old) halt
        (S.view source.new) (K.view sink.new)) }
{
    match greet(sink) {
        Ok(()) => serve_greeted(rt, desk, exports, source, sink),
        Err(halt) => Err(halt),
    }
}

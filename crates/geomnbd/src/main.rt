//! The program `geomnbd`: a mesh as a server of NBD for one client, over standard input and standard output.
//!
//! `geomnbd SCRIPT EXPORT..` makes the mesh of a script over the images of the current folder, and offers its
//! providers of these names. A client speaks to it through a socket that another program holds, as socat(1) or
//! systemd(1) do. It ends when the client does. The session is served by geo_serving.
//!
//! Read `specs/Endings.antt` and `run` first.
#![tactic(auto)]

mod disks;
mod due;
mod end;
mod exports;
mod setup;
mod stop;

ghost use Rattle.std.specs.Prelude.{◌<◌, ◌≤◌, ◌^◌, IfOk, length};
ghost use Rattle.geomnbd.specs.Endings.{EndsAs};

use crate::end::End;
use crate::exports::{Offer, offered};
use crate::setup::set_up;
use crate::stop::{Stop, read_fault};
use geo_base::Block;
use geo_disk::{Disk, Shelf};
use geo_file::FileShelf;
use geo_io::{Sink, Source, StdSink, StdSource, read_all};
use geo_serving::serve;
use std::alloc::Global;
use std::fs::File;
use std::process::ExitCode;
use std::rt::{Env, Files};
use std::sync::Wait;
use std::{env, fs, io};

/// The most bytes of a script.
const MAX_SCRIPT: u32 = 1_048_576;

/// The words behind the program's own name.
fn given<R: Env + AllocGlobal>(rt: &R, alloc: Global) -> io::Result<Vec<String>> {
    Ok(env::args(rt)?.skip(1).collect(alloc)?)
}

/// The bytes of the script.
fn script_of<R: Files<File = File>>(rt: &R, alloc: Global, path: &str) -> Result<Block, Stop>
    ensures { IfOk result (λ script. length script ≤ MAX_SCRIPT) }
{
    let Ok(file) = fs::open(rt, path) else {
        return Err(Stop::NoFile);
    };
    let mut source = StdSource::new(file);
    match read_all(alloc, &mut source, MAX_SCRIPT) {
        Ok(script) => Ok(script),
        Err(refusal) => Err(read_fault(refusal)),
    }
}

/// A mesh by its script, with its exports.
fn prepared<R: Wait, H: Shelf>(
    rt: &R,
    alloc: Global,
    script: &[u8],
    names: &[String],
    shelf: &mut H,
) -> Result<Offer<H::D>, Stop>
where
    H::D: Drop,
    requires { length script.now < 2 ^ 32 }
{
    let desk = set_up(rt, alloc, script, shelf)?;
    offered(rt, desk, names)
}

/// Serves a client over a source and a sink.
fn serve_offer<R: Wait, D: Disk + Drop, S: Source, K: Sink>(
    rt: &R,
    offer: Offer<D>,
    source: &mut S,
    sink: &mut K,
) -> End
    ensures { EndsAs result (S.view source.old) (K.view sink.old) (S.view source.new) (K.view sink.new) }
{
    let Offer { desk, exports } = offer;
    let mut desk = desk;
    match serve(rt, &mut desk, exports.as_slice(), source, sink) {
        Ok(()) => End::Over,
        Err(halt) => End::Halted(halt),
    }
}

/// The whole session: a client over a source and a sink is served the exports of these names, of the mesh of a script.
fn run<R: Wait, S: Source, K: Sink, H: Shelf>(
    rt: &R,
    alloc: Global,
    script: &[u8],
    names: &[String],
    source: &mut S,
    sink: &mut K,
    shelf: &mut H,
) -> End
where
    H::D: Drop,
    requires { length script.now < 2 ^ 32 }
    ensures { EndsAs result (S.view source.old) (K.view sink.old) (S.view source.new) (K.view sink.new) }
{
    match prepared(rt, alloc, script, names, shelf) {
        Ok(offer) => serve_offer(rt, offer, source, sink),
        Err(stop) => End::Stopped(stop),
    }
}

/// The whole program.
fn session<R: Wait + Env + AllocGlobal + Files<File = File> + Input + Print>(
    rt: &R,
    alloc: Global,
) -> Result<End, Stop> {
    let Ok(words) = given(rt, alloc) else {
        return Err(Stop::BadWords);
    };
    if words.len() < 2 {
        return Err(Stop::BadWords);
    }
    let script = script_of(rt, alloc, words[0].as_str())?;
    let mut shelf = FileShelf::new(rt, alloc, ".")?;
    let mut source = StdSource::new(rt.reader());
    let mut sink = StdSink::new(io::writer(rt));
    Ok(run(
        rt,
        alloc,
        script.bytes(),
        &words.as_slice()[1..],
        &mut source,
        &mut sink,
        &mut shelf,
    ))
}

fn main(rt: HostRuntime) -> ExitCode {
    match session(&rt, rt.alloc()) {
        Ok(end) => ExitCode::from(end.status()),
        Err(stop) => ExitCode::from(stop.status()),
    }
}

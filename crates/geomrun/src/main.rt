//! The program `geomrun`: its words, standard input and standard output, and the images of the current folder, given
//! to the top call.
//!
//! It hands these and a gate that holds nobody to geo_run's `program`, and ends with its status. It is proved safe. What
//! the environment gives as words no clause can say. The manual is docs/geomrun.8.
#![tactic(auto)]

use geo_base::NoMemory;
use geo_file::FileShelf;
use geo_io::{StdSink, StdSource};
use geo_run::{OpenGate, program};
use std::alloc::Global;
use std::process::ExitCode;
use std::rt::Env;
use std::{env, io};

/// The words behind the program's own name.
fn given<R: Env + AllocGlobal>(rt: &R, alloc: Global) -> io::Result<Vec<String>> {
    Ok(env::args(rt)?.skip(1).collect(alloc)?)
}

/// The same, if there is memory for them. Words that aren't all UTF-8 are answered as no words are.
fn words<R: Env + AllocGlobal>(rt: &R, alloc: Global) -> Result<Vec<String>, NoMemory> {
    match given(rt, alloc) {
        Ok(words) => Ok(words),
        Err(error) if error.kind() == io::ErrorKind::OutOfMemory => Err(NoMemory),
        Err(_) => Ok(Vec::new(alloc)),
    }
}

fn main(rt: HostRuntime) -> ExitCode {
    let alloc = rt.alloc();
    ExitCode::from(program(
        &rt,
        words(&rt, alloc),
        &mut StdSource::new(rt.reader()),
        &mut StdSink::new(io::writer(&rt)),
        &mut FileShelf::new(&rt, alloc, "."),
        &OpenGate,
    ))
}

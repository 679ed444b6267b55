//! The steps that jobs leave, made with seat 0 until none is left.
use crate::bench::BYTE;
use geo_base::{BioId, Block, SharedBytes};
use geo_core::Mesh;
use geo_model::{DeviceResult, Outcome, Request, Step};
use std::alloc::Global;
use std::test::Fail;

/// Above the number of each bio of the script.
const BIOS: u64 = 64;

const ACTORS: u32 = 2;

const DISKS: u32 = 2;

/// More rounds than the script takes.
const ROUNDS: u32 = 1000;

// Tries a step, and tells whether it was made.
fn tried(mesh: &mut Mesh, step: Step) -> bool {
    mesh.make(0, step).is_ok()
}

// What a disk answers to a read.
fn answer_of(alloc: Global, request: &Request) -> Result<DeviceResult, Fail> {
    if request.count > 16 {
        return Err("a request past the disk".into());
    }
    let mut bytes = Block::zeros(alloc, request.count * 512)?;
    bytes.bytes_mut().fill(BYTE);
    Ok(DeviceResult::Bytes(SharedBytes::from_block(bytes)))
}

// The answer to what the last step asked.
fn answer(alloc: Global, mesh: &Mesh) -> Result<DeviceResult, Fail> {
    let entry = mesh.log().entries().last().ok_or("no step")?;
    match &entry.outcome {
        Outcome::Asked(request) => answer_of(alloc, request),
        _ => Err("nothing is asked".into()),
    }
}

// Takes a bio for a disk, and delivers the answer, if that can be. Whether it was.
fn served(alloc: Global, mesh: &mut Mesh, disk: u32, bio: BioId) -> Result<bool, Fail> {
    if !tried(mesh, Step::Take { disk, bio }) {
        return Ok(false);
    }
    let got = answer(alloc, mesh)?;
    if tried(mesh, Step::Deliver { bio, got }) {
        Ok(true)
    } else {
        Err("a Deliver is refused".into())
    }
}

// Each step of a bio that can be made. Whether one was.
fn moved(alloc: Global, mesh: &mut Mesh, bio: BioId) -> Result<bool, Fail> {
    let mut moved = tried(mesh, Step::Start { bio });
    for disk in 0..DISKS {
        if served(alloc, mesh, disk, bio)? {
            moved = true;
        }
    }
    if tried(mesh, Step::Up { bio }) {
        moved = true;
    }
    Ok(moved)
}

// Each step of tastes, events and washes that can be made. Whether one was.
fn tasted(mesh: &mut Mesh) -> bool {
    let judged = tried(mesh, Step::Judge);
    let began = tried(mesh, Step::Event);
    let reaped = tried(mesh, Step::Reap);
    let washed = tried(mesh, Step::Wash);
    judged || began || reaped || washed
}

// The next command of each actor, if that can be made. Whether one was.
fn went(mesh: &mut Mesh) -> bool {
    let mut went = false;
    for actor in 0..ACTORS {
        if tried(mesh, Step::Go { actor }) {
            went = true;
        }
    }
    went
}

// Each step that can be made, at most once. Whether one was.
fn round(alloc: Global, mesh: &mut Mesh) -> Result<bool, Fail> {
    let tasted = tasted(mesh);
    let went = went(mesh);
    let mut made = tasted || went;
    for number in 1..BIOS {
        if moved(alloc, mesh, BioId::new(number))? {
            made = true;
        }
    }
    Ok(made)
}

/// Makes steps with seat 0 until none can be made.
pub fn drain(alloc: Global, mesh: &mut Mesh) -> Result<(), Fail> {
    for _ in 0..ROUNDS {
        if !round(alloc, mesh)? {
            return Ok(());
        }
    }
    Err("no rest".into())
}

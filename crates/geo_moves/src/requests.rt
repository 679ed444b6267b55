//! Requests through handles (g_bio(9)).
ghost use Rattle.std.specs.Prelude.{◌≡◌, ◌-◌, ◌≤◌, List, length, Some, None, IfOk, OnErr, IsTrue};
ghost use Rattle.std.specs.Option.{option_and_then};
ghost use Rattle.geo_model.specs.declared.step.Entry.{Entry};
ghost use Rattle.geo_model.specs.Commands.{asking, request, write_record};
ghost use Rattle.geo_model.specs.Words.{is_write};
ghost use Rattle.geo_state.specs.Holds.{Holds};
ghost use Rattle.geo_state.specs.World.{HasBytes};
ghost use Rattle.geo_state.specs.Steps.{Does, SameWorld};
ghost use Rattle.geo_handles.specs.Handles.{named_handle};
ghost use Rattle.geo_moves.specs.Asked.{IsShortMark, mark_sector, media_sizes, provider_attached};

use crate::gate::look;
use crate::mark::{Mark, media, sector_of};
use geo_base::{BioCmd, Name, NoMemory, SharedBytes};
use geo_model::{Outcome, Reply, Span};
use geo_state::{NewBio, State, submit_line};
use std::alloc::Global;

/// The range of a record where there is no provider.
const NOWHERE: Span = Span { offset: 0, len: 0 };

/// A request of a line through the actor's handle of the name: refused, or a bio that is to be started. What can't be
/// counted, and numbers that are used up, are told as want of memory, and all stays.
pub fn request(
    state: &mut State,
    line: u32,
    actor: u32,
    name: &Name,
    cmd: BioCmd,
    span: Span,
    bytes: SharedBytes,
) -> Result<Outcome, NoMemory>
    requires kept { Holds state.old }
    requires bytes_fit { IsTrue (is_write cmd) → length bytes ≡ span.len }
    ensures does { (log : List Entry) → IfOk result (λ o.
        Does (λ w. request w line actor name.now (asking cmd span.offset span.len bytes)) log state.old state.new o) }
    ensures kept { Holds state.new }
    ensures same { OnErr result (SameWorld state.old state.new) }
    ensures logged { (log : List Entry) → HasBytes log state.old → HasBytes log state.new }
{
    match look(&state.topo, &state.handles, actor, name, cmd, span) {
        Ok(gate) => {
            let new = NewBio {
                cmd,
                span,
                bytes,
                from: gate.source,
                to: gate.target,
            };
            let bio = submit_line(state, gate.handle, line, new)?;
            Ok(Outcome::Accepted { line, bio })
        }
        Err(errno) => Ok(Outcome::Replied {
            line,
            reply: Reply::Refused(errno),
        }),
    }
}

/// A WRITE of a record at the last sector of the provider of the actor's handle of the name.
pub fn write_record(
    alloc: Global,
    state: &mut State,
    line: u32,
    actor: u32,
    name: &Name,
    mark: &Mark,
) -> Result<Outcome, NoMemory>
    requires kept { Holds state.old }
    requires short { IsShortMark mark.now }
    ensures does { (log : List Entry) → IfOk result (λ o.
        Does (λ w. write_record w line actor name.now (mark_sector mark.now)) log state.old state.new o) }
    ensures kept { Holds state.new }
    ensures same { OnErr result (SameWorld state.old state.new) }
    ensures logged { (log : List Entry) → HasBytes log state.old → HasBytes log state.new }
{
    match media(&state.topo, &state.handles, actor, name) {
        Some((size, sector)) => write_at(alloc, state, line, actor, name, mark, size, sector),
        None => write_nowhere(alloc, state, line, actor, name, mark),
    }
}

// A WRITE of a record where the handle's provider has this size and sectors of so many bytes.
fn write_at(
    alloc: Global,
    state: &mut State,
    line: u32,
    actor: u32,
    name: &Name,
    mark: &Mark,
    size: u64,
    sector: u32,
) -> Result<Outcome, NoMemory>
    requires kept { Holds state.old }
    requires short { IsShortMark mark.now }
    requires room { 48 ≤ sector }
    requires media { Some (size, sector) ≡ media_sizes (option_and_then
        (λ h. provider_attached state.old.topo.topology h.consumer)
        (named_handle state.old.handles.handles actor name.now)) }
    ensures does { (log : List Entry) → IfOk result (λ o.
        Does (λ w. write_record w line actor name.now (mark_sector mark.now)) log state.old state.new o) }
    ensures kept { Holds state.new }
    ensures same { OnErr result (SameWorld state.old state.new) }
    ensures logged { (log : List Entry) → HasBytes log state.old → HasBytes log state.new }
{
    let span = last_sector(size, sector);
    let block = sector_of(alloc, mark, size, sector)?;
    let bytes = SharedBytes::from_block(block);
    request(state, line, actor, name, BioCmd::Write, span, bytes)
}

// The last sector of so many bytes.
fn last_sector(size: u64, sector: u32) -> Span
    ensures { result ≡ record { offset = size - sector; len = sector } }
{
    let len = u64::from(sector);
    Span {
        offset: size.saturating_sub(len),
        len,
    }
}

// A WRITE of a record where the handle has no provider.
fn write_nowhere(
    alloc: Global,
    state: &mut State,
    line: u32,
    actor: u32,
    name: &Name,
    mark: &Mark,
) -> Result<Outcome, NoMemory>
    requires kept { Holds state.old }
    requires media { None ≡ media_sizes (option_and_then
        (λ h. provider_attached state.old.topo.topology h.consumer)
        (named_handle state.old.handles.handles actor name.now)) }
    ensures does { (log : List Entry) → IfOk result (λ o.
        Does (λ w. write_record w line actor name.now (mark_sector mark.now)) log state.old state.new o) }
    ensures kept { Holds state.new }
    ensures same { OnErr result (SameWorld state.old state.new) }
    ensures logged { (log : List Entry) → HasBytes log state.old → HasBytes log state.new }
{
    let nothing = SharedBytes::none(alloc);
    request(state, line, actor, name, BioCmd::Write, NOWHERE, nothing)
}

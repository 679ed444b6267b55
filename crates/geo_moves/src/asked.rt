//! Requests of lines (g_bio(9)).
ghost use Rattle.std.specs.Prelude.{◌≡◌, false, [], List, length, IfOk, OnErr};
ghost use Rattle.geo_base.specs.declared.request.BioCmd.TheVariants as cmds;
ghost use Rattle.geo_model.specs.declared.step.Entry.{Entry};
ghost use Rattle.geo_model.specs.Commands.{asking, request};
ghost use Rattle.geo_model.specs.Words.{is_write};
ghost use Rattle.geo_state.specs.Holds.{Holds};
ghost use Rattle.geo_state.specs.Steps.{Does, SameWorld};
ghost use Rattle.geo_state.specs.World.{HasBytes};

use crate::requests::request;
use geo_base::{BioCmd, Name, NoMemory, SharedBytes};
use geo_model::{Outcome, Span};
use geo_state::State;
use std::alloc::Global;

/// A request that brings no bytes: READ, DELETE or FLUSH.
pub fn ask(
    alloc: Global,
    state: &mut State,
    line: u32,
    actor: u32,
    name: &Name,
    cmd: BioCmd,
    offset: u64,
    len: u64,
) -> Result<Outcome, NoMemory>
    requires kept { Holds state.old }
    requires no_bytes { is_write cmd ≡ false }
    ensures does { (log : List Entry) → IfOk result (λ o.
        Does (λ w. request w line actor name.now (asking cmd offset len [])) log state.old state.new o) }
    ensures kept { Holds state.new }
    ensures same { OnErr result (SameWorld state.old state.new) }
    ensures logged { (log : List Entry) → HasBytes log state.old → HasBytes log state.new }
{
    let nothing = SharedBytes::none(alloc);
    let span = Span { offset, len };
    request(state, line, actor, name, cmd, span, nothing)
}

/// A WRITE of the bytes.
pub fn write(
    alloc: Global,
    state: &mut State,
    line: u32,
    actor: u32,
    name: &Name,
    offset: u64,
    bytes: &SharedBytes,
) -> Result<Outcome, NoMemory>
    requires kept { Holds state.old }
    ensures does { (log : List Entry) → IfOk result (λ o.
        Does (λ w. request w line actor name.now (asking cmds.Write offset (length bytes.now) bytes.now)) log
        state.old state.new o) }
    ensures kept { Holds state.new }
    ensures same { OnErr result (SameWorld state.old state.new) }
    ensures logged { (log : List Entry) → HasBytes log state.old → HasBytes log state.new }
{
    let copied = bytes.copy(alloc)?;
    let span = Span {
        offset,
        len: bytes.len() as u64,
    };
    request(state, line, actor, name, BioCmd::Write, span, copied)
}

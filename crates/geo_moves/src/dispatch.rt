//! What the command of a line does.
ghost use Rattle.std.specs.Prelude.{◌≡◌, true, List, IfOk, IsOk, OnErr};
ghost use Rattle.geo_model.specs.declared.command.Command.{Command as CommandValue};
ghost use Rattle.geo_model.specs.declared.step.Entry.{Entry};
ghost use Rattle.geo_model.specs.declared.step.Outcome.TheVariants as outcomes;
ghost use Rattle.geo_model.specs.declared.step.Reply.TheVariants as replies;
ghost use Rattle.geo_model.specs.Commands.{do_command};
ghost use Rattle.geo_model.specs.HandleCommands.{do_open};
ghost use Rattle.geo_model.specs.Listing.{listing};
ghost use Rattle.geo_model.specs.Plans.{IsCommand, IsGrant};
ghost use Rattle.geo_laws_texts.specs.Naming.{HaveNames};
ghost use Rattle.geo_state.specs.Holds.{Holds};
ghost use Rattle.geo_state.specs.Steps.{Does, SameWorld, Stands};
ghost use Rattle.geo_state.specs.World.{HasBytes};
ghost use Rattle.geo_moves.specs.declared.decisions.Decision.TheVariants as decisions;
ghost use Rattle.geo_moves.specs.Decisions.{IsDecided, is_on_geoms, writes_record};

use crate::appends::append;
use crate::asked::{ask, write};
use crate::closes::close;
use crate::decisions::Decision;
use crate::destroys::{destroy, pull};
use crate::geoms::listing;
use crate::inserts::insert;
use crate::joins::{concat, stripe};
use crate::mark::Mark;
use crate::marks::{concat_record, stripe_record};
use crate::nops::nop;
use crate::opens::open;
use crate::reply::done;
use crate::requests::write_record;
use geo_access::Steps;
use geo_base::{BioCmd, Counts, Name, NoMemory};
use geo_model::{Command, Outcome, Reply};
use geo_state::State;
use std::alloc::Global;
use std::sync::ledger::Ledger;

/// What the command of a line of an actor does, once it is decided: the reply to the line, or the request that it
/// began. A close that is answered ok takes no memory; after `NoMemory` all is as before.
pub fn do_command<L: Ledger>(
    alloc: Global,
    state: &mut State,
    line: u32,
    actor: u32,
    command: &Command,
    decision: Decision,
    steps: &mut Steps<L>,
) -> Result<Outcome, NoMemory>
    requires stands { Stands state.old }
    requires named { HaveNames state.old.topo.topology }
    requires is_command { IsCommand command.now }
    requires decided { IsDecided state.old actor command.now decision }
    ensures does { (log : List Entry) → IfOk result (λ o.
        Does (λ w. do_command w line actor command.now) log state.old state.new o) }
    ensures kept { Holds state.new }
    ensures same { OnErr result (SameWorld state.old state.new) }
    ensures logged { (log : List Entry) → HasBytes log state.old → HasBytes log state.new }
    ensures no_memory { decision ≡ decisions.Closes → IsOk result }
{
    match command {
        Command::Open {
            handle: name,
            provider,
            grant,
        } => { open_decided(state, line, actor, name, provider, *grant, decision, steps) }
        Command::Close(name) => Ok(close(state, line, actor, name, steps)),
        Command::Read {
            handle: name,
            offset: from,
            len,
        } => { ask(alloc, state, line, actor, name, BioCmd::Read, *from, *len) }
        Command::Write {
            handle: name,
            offset: from,
            bytes,
        } => { write(alloc, state, line, actor, name, *from, bytes) }
        Command::Delete {
            handle: name,
            offset: from,
            len,
        } => { ask(alloc, state, line, actor, name, BioCmd::Delete, *from, *len) }
        Command::Flush(name) => ask(alloc, state, line, actor, name, BioCmd::Flush, 0, 0),
        Command::Sync => Ok(done(line)),
        Command::Settle => Ok(done(line)),
        Command::Mesh => list(alloc, state, line),
        Command::Insert(..)
        | Command::Pull(..)
        | Command::Nop { .. }
        | Command::Concat { .. }
        | Command::Stripe { .. }
        | Command::Append { .. }
        | Command::Destroy { .. }
        | Command::Label { .. }
        | Command::Relabel { .. }
        | Command::MarkConcat { .. }
        | Command::MarkStripe { .. } => on_geoms(alloc, state, line, actor, command, steps),
    }
}

// What a command on geoms does, and one that writes a record.
fn on_geoms<L: Ledger>(
    alloc: Global,
    state: &mut State,
    line: u32,
    actor: u32,
    command: &Command,
    steps: &mut Steps<L>,
) -> Result<Outcome, NoMemory>
    requires stands { Stands state.old }
    requires named { HaveNames state.old.topo.topology }
    requires is_command { IsCommand command.now }
    requires geoms { is_on_geoms command.now ≡ true }
    ensures does { (log : List Entry) → IfOk result (λ o.
        Does (λ w. do_command w line actor command.now) log state.old state.new o) }
    ensures kept { Holds state.new }
    ensures same { OnErr result (SameWorld state.old state.new) }
    ensures logged { (log : List Entry) → HasBytes log state.old → HasBytes log state.new }
{
    match command {
        Command::Insert(disk) => insert(state, line, disk),
        Command::Pull(disk) => Ok(pull(state, line, disk)),
        Command::Nop {
            provider,
            offset,
            size,
            fail,
        } => { nop(state, line, provider, *offset, *size, *fail) }
        Command::Concat { name, providers } => concat(alloc, state, line, name, providers.items()),
        Command::Stripe {
            name,
            stripe: strip,
            providers,
        } => { stripe(alloc, state, line, name, *strip, providers.items()) }
        Command::Append { name, provider } => append(alloc, state, line, name, provider, steps),
        Command::Destroy { kind, name } => Ok(destroy(state, line, *kind, name)),
        Command::Label { .. }
        | Command::Relabel { .. }
        | Command::MarkConcat { .. }
        | Command::MarkStripe { .. } => on_records(alloc, state, line, actor, command),
        Command::Open { .. }
        | Command::Close(..)
        | Command::Read { .. }
        | Command::Write { .. }
        | Command::Delete { .. }
        | Command::Flush(..)
        | Command::Sync
        | Command::Settle
        | Command::Mesh => unreachable!(),
    }
}

// What a command does that writes a record.
fn on_records(
    alloc: Global,
    state: &mut State,
    line: u32,
    actor: u32,
    command: &Command,
) -> Result<Outcome, NoMemory>
    requires stands { Stands state.old }
    requires named { HaveNames state.old.topo.topology }
    requires is_command { IsCommand command.now }
    requires records { writes_record command.now ≡ true }
    ensures does { (log : List Entry) → IfOk result (λ o.
        Does (λ w. do_command w line actor command.now) log state.old state.new o) }
    ensures kept { Holds state.new }
    ensures same { OnErr result (SameWorld state.old state.new) }
    ensures logged { (log : List Entry) → HasBytes log state.old → HasBytes log state.new }
{
    match command {
        Command::Label { handle, name } => {
            write_record(alloc, state, line, actor, handle, &Mark::Label(*name))
        }
        Command::Relabel { handle, name } => {
            write_record(alloc, state, line, actor, handle, &Mark::Relabel(*name))
        }
        Command::MarkConcat {
            handle,
            name,
            id,
            place,
            count,
        } => {
            let part = concat_record(name, *id, *place, *count);
            write_record(alloc, state, line, actor, handle, &Mark::Concat(part))
        }
        Command::MarkStripe {
            handle,
            name,
            id,
            place,
            count,
            stripe,
        } => {
            let part = stripe_record(name, *id, *place, *count, *stripe);
            write_record(alloc, state, line, actor, handle, &Mark::Stripe(part))
        }
        _ => unreachable!(),
    }
}

// An open, once it is decided.
fn open_decided<L: Ledger>(
    state: &mut State,
    line: u32,
    actor: u32,
    name: &Name,
    prov: &Name,
    grant: Counts,
    decision: Decision,
    steps: &mut Steps<L>,
) -> Result<Outcome, NoMemory>
    requires stands { Stands state.old }
    requires grant { IsGrant grant }
    requires decided { IsDecided state.old actor (CommandValue.Open name.now prov.now grant) decision }
    ensures does { (log : List Entry) → IfOk result (λ o.
        Does (λ w. do_open w line actor name.now prov.now grant) log state.old state.new o) }
    ensures kept { Holds state.new }
    ensures same { OnErr result (SameWorld state.old state.new) }
    ensures logged { (log : List Entry) → HasBytes log state.old → HasBytes log state.new }
{
    let Decision::Opens(refusal) = decision else {
        unreachable!()
    };
    open(state, line, actor, name, prov, grant, refusal, steps)
}

// The mesh is listed.
fn list(alloc: Global, state: &State, line: u32) -> Result<Outcome, NoMemory>
    requires stands { Stands state.now }
    ensures { (log : List Entry) → IfOk result (λ o.
        Does (λ w. (w, outcomes.Replied line (replies.Listing (listing w)))) log state.now state.now o) }
{
    let lines = listing(alloc, state)?;
    Ok(Outcome::Replied {
        line,
        reply: Reply::Listing(lines),
    })
}

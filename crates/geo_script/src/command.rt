//! The commands, by their names.
ghost use Rattle.std.specs.Prelude.{◌∷◌};
ghost use Rattle.geo_model.specs.Script.{by_word, command_table};
ghost use Rattle.geo_script.specs.Reads.{Reads};
ghost use Rattle.geo_script.specs.Tables.{geom_commands, record_commands};

use crate::forms;
use crate::refusal::LineRefusal;
use crate::words::{Words, at_end};
use geo_model::{Cause, Command};
use std::alloc::Global;

/// A command, or the fault of its line.
fn or_fault(read: Result<Command, Cause>) -> Result<Command, LineRefusal>
    ensures { Reads result read }
{
    Ok(read?)
}

/// The command that stands behind the name of an actor, by its own name and the words behind that.
pub fn command(alloc: Global, name: &[u8], words: Words<'_>) -> Result<Command, LineRefusal>
    ensures { Reads result (by_word command_table (name.now ∷ words.entry)) }
{
    if b"open".as_slice() == name {
        or_fault(forms::open(words))
    } else if b"close".as_slice() == name {
        or_fault(forms::close(words))
    } else if b"read".as_slice() == name {
        or_fault(forms::read(words))
    } else if b"write".as_slice() == name {
        forms::write(alloc, words)
    } else if b"delete".as_slice() == name {
        or_fault(forms::delete(words))
    } else if b"flush".as_slice() == name {
        or_fault(forms::flush(words))
    } else if b"sync".as_slice() == name {
        or_fault(at_end(Command::Sync, words))
    } else if b"settle".as_slice() == name {
        or_fault(at_end(Command::Settle, words))
    } else {
        geom_command_by(alloc, name, words)
    }
}

/// A command on disks, geoms and records, or of the listing, with this name, from the words behind it.
fn geom_command_by(alloc: Global, name: &[u8], words: Words<'_>) -> Result<Command, LineRefusal>
    ensures { Reads result (by_word geom_commands (name.now ∷ words.entry)) }
{
    if b"insert".as_slice() == name {
        or_fault(forms::insert(words))
    } else if b"pull".as_slice() == name {
        or_fault(forms::pull(words))
    } else if b"nop".as_slice() == name {
        or_fault(forms::nop(words))
    } else if b"concat".as_slice() == name {
        forms::concat(alloc, words)
    } else if b"stripe".as_slice() == name {
        forms::stripe(alloc, words)
    } else if b"append".as_slice() == name {
        or_fault(forms::append(words))
    } else {
        record_command_by(name, words)
    }
}

/// A command that destroys a geom or writes a record, or the listing, with this name, from the words behind it.
fn record_command_by(name: &[u8], words: Words<'_>) -> Result<Command, LineRefusal>
    ensures { Reads result (by_word record_commands (name.now ∷ words.entry)) }
{
    if b"destroy".as_slice() == name {
        or_fault(forms::destroy(words))
    } else if b"label".as_slice() == name {
        or_fault(forms::label(words))
    } else if b"relabel".as_slice() == name {
        or_fault(forms::relabel(words))
    } else if b"mark".as_slice() == name {
        or_fault(forms::mark(words))
    } else if b"mesh".as_slice() == name {
        or_fault(at_end(Command::Mesh, words))
    } else {
        Err(LineRefusal::Fault(Cause::Word))
    }
}

//! A plan that grows by the lines of a text.
ghost use Rattle.std.specs.Prelude.{◌≡◌, ◌==◌, ◌≤◌, ◌<◌, length, position, IfSome, not};
ghost use Rattle.std.specs.List.{list_any};
ghost use Rattle.geo_model.specs.Plans.{IsPlan};
ghost use Rattle.geo_model.specs.Words.{same_name};
ghost use Rattle.geo_model.specs.Script.{empty_plan, add_disk, add_actor, add_command, header_words};
ghost use Rattle.geo_script.specs.Draft.{LineLeaves};

use crate::plan::Plan;
use crate::refusal::LineRefusal;
use geo_base::{MAX_ACTORS, MAX_DISKS, Name};
use geo_model::{Cause, Command, DiskDecl, LineCommand};
use geo_pool::Pool;
use std::alloc::Global;
use std::marker::Model;

/// The plan of the lines so far, which contracts see as that plan.
#[derive(Drop)]
pub struct Draft {
    disks: Vec<DiskDecl>,
    actors: Vec<Name>,
    commands: Vec<LineCommand>,
    // What its writes write.
    written: Pool,
}

impl Model for Draft {
    ghost use Rattle.std.specs.Prelude.{◌≤◌, length};
    ghost use Rattle.geo_model.specs.World.{Plan};
    ghost use Rattle.geo_base.specs.declared.limits.TheConstants.{MAX_ACTORS};

    ghost Value = { Plan };

    ghost view = { λ d. record { disks = d.disks.items; actors = d.actors.items; commands = d.commands.items } };

    ghost invariant = { λ d. length d.actors.items ≤ MAX_ACTORS };
}

/// Whether a disk of the list has this name.
fn has_disk(disks: &[DiskDecl], name: &Name) -> bool
    ensures { result ≡ list_any (λ x. same_name x.name name.now) disks.now }
{
    disks.iter().any(|disk| disk.name.bytes() == name.bytes())
}

/// Whether the list has this name.
fn has_name(names: &[Name], name: &Name) -> bool
    ensures { result ≡ list_any (same_name name.now) names.now }
{
    names.iter().any(|other| name.bytes() == other.bytes())
}

/// The place of a name in the list.
fn find_name(names: &[Name], name: &[u8]) -> Option<usize>
    ensures place { result ≡ position (same_name name.now) names.now }
    ensures inside { IfSome result (λ at. at < length names.now) }
{
    names.iter().position(|other| name == other.bytes())
}

/// Whether a header line begins with this word.
fn is_header_word(word: &[u8]) -> bool
    ensures { result ≡ list_any (same_name word.now) header_words }
{
    word == b"ram".as_slice() || word == b"disk".as_slice() || word == b"actor".as_slice()
}

impl Draft {
    /// No disk, no actor and no command.
    pub fn new(alloc: Global) -> Draft
        ensures { result ≡ empty_plan }
    {
        Draft {
            disks: Vec::new(alloc),
            actors: Vec::new(alloc),
            commands: Vec::new(alloc),
            written: Pool::new(alloc),
        }
    }

    /// Whether a command line stands in it.
    pub fn has_commands(&self) -> bool
        ensures { (length self.now.commands == 0) ≡ not result }
    {
        !self.commands.is_empty()
    }

    /// The number of the actor with this name.
    pub fn actor_number(&self, name: &[u8]) -> Option<u32>
        ensures { result ≡ position (same_name name.now) self.now.actors }
    {
        let place = find_name(self.actors.as_slice(), name)?;
        Some(place as u32)
    }

    /// A disk more.
    pub fn add_disk(&mut self, disk: DiskDecl) -> Result<(), LineRefusal>
        ensures { LineLeaves result self.new (add_disk self.old disk) }
    {
        if has_disk(self.disks.as_slice(), &disk.name) {
            return Err(LineRefusal::Fault(Cause::Twice));
        }
        if self.disks.len() >= MAX_DISKS {
            return Err(LineRefusal::Fault(Cause::Many));
        }
        self.disks.push(disk)?;
        Ok(())
    }

    /// An actor more.
    pub fn add_actor(&mut self, name: Name) -> Result<(), LineRefusal>
        ensures { LineLeaves result self.new (add_actor self.old name) }
    {
        if has_name(self.actors.as_slice(), &name) || is_header_word(name.bytes()) {
            return Err(LineRefusal::Fault(Cause::Twice));
        }
        if self.actors.len() >= MAX_ACTORS {
            return Err(LineRefusal::Fault(Cause::Many));
        }
        self.actors.push(name)?;
        Ok(())
    }

    /// A command line more. The bytes of a write share the memory of those in the pool, if these begin with them.
    pub fn add_command(
        &mut self,
        line: u32,
        actor: u32,
        command: Command,
    ) -> Result<(), LineRefusal>
        ensures { LineLeaves result self.new (add_command self.old line actor command) }
    {
        let command = match command {
            Command::Write {
                handle,
                offset,
                bytes,
            } => Command::Write {
                handle,
                offset,
                bytes: self.written.once(bytes),
            },
            other => other,
        };
        self.commands.push(LineCommand {
            line,
            actor,
            command,
        })?;
        Ok(())
    }

    /// The plan, if it keeps the rules of plans; it takes no memory.
    pub fn into_plan(self) -> Plan
        requires { IsPlan self }
        ensures { result ≡ self }
    {
        Plan {
            disks: self.disks,
            actors: self.actors,
            commands: self.commands,
        }
    }
}

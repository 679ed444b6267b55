//! What a script says.
ghost use Rattle.std.specs.Prelude.{◌≡◌};
ghost use Rattle.geo_model.specs.Plans.{IsPlan};

use geo_base::Name;
use geo_model::{DiskDecl, LineCommand};
use std::marker::Model;

/// What a script says, which contracts see as its disks in header order, its actors in that of their lines, and its
/// commands in rising order of their lines. Each plan keeps the rules of plans: at most 16 disks of different names,
/// at most 16 actors of different names that aren't words of the header, and commands of these actors whose words
/// have their forms.
#[derive(Debug, Drop)]
pub struct Plan {
    pub(crate) disks: Vec<DiskDecl>,
    pub(crate) actors: Vec<Name>,
    pub(crate) commands: Vec<LineCommand>,
}

impl Model for Plan {
    ghost use Rattle.geo_model.specs.World.{Plan as PlanValue};
    ghost use Rattle.geo_model.specs.Plans.{IsPlan};

    ghost Value = { PlanValue };

    ghost view = { λ p. record { disks = p.disks.items; actors = p.actors.items; commands = p.commands.items } };

    ghost invariant = { λ p. IsPlan (record {
      disks = p.disks.items;
      actors = p.actors.items;
      commands =
          p.commands.items;
    }) };
}

impl Plan {
    /// The disks, in header order.
    pub fn disks(&self) -> &[DiskDecl]
        ensures disks { result.now ≡ self.now.disks }
        ensures plan { IsPlan self.now }
    {
        self.disks.as_slice()
    }

    /// The names of the actors, in the order of their lines. A command names its actor by the place here.
    pub fn actors(&self) -> &[Name]
        ensures actors { result.now ≡ self.now.actors }
        ensures plan { IsPlan self.now }
    {
        self.actors.as_slice()
    }

    /// The commands, in rising order of their lines.
    pub fn commands(&self) -> &[LineCommand]
        ensures commands { result.now ≡ self.now.commands }
        ensures plan { IsPlan self.now }
    {
        self.commands.as_slice()
    }

    /// The disks, the actors and the commands; it takes no memory.
    pub fn into_parts(self) -> (Vec<DiskDecl>, Vec<Name>, Vec<LineCommand>)
        ensures disks { result.0.items ≡ self.disks }
        ensures actors { result.1.items ≡ self.actors }
        ensures commands { result.2.items ≡ self.commands }
        ensures plan { IsPlan self }
    {
        (self.disks, self.actors, self.commands)
    }
}

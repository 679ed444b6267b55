//! Which commands each actor has left.
ghost use Rattle.std.specs.Prelude.{◌≡◌, ◌==◌, ◌≤◌, length, map, IfOk, IsOk, MatchResult, Ok, Err, slice_get, slice_set};
ghost use Rattle.std.specs.List.{list_all, range_with_len};
ghost use Rattle.geo_model.specs.World.{commands_of};
ghost use Rattle.geo_core.specs.Left.{commands_from, left_of, next_command_of, rest_of, AreNext, IsNext};

use geo_base::NoMemory;
use geo_model::{Found, LineCommand};
use geo_script::Plan;
use std::alloc::Global;
use std::marker::Model;

/// Which commands each actor has left: the place of its next one among the commands of the plan, or their number.
/// Contracts see the list of these places.
#[derive(Debug, Drop)]
pub struct Left {
    places: Vec<usize>,
}

impl Model for Left {
    ghost use Rattle.std.specs.Prelude.{List, ℕ};

    ghost Value = { List ℕ };

    ghost view = { λ l. l.places.items };
}

impl Left {
    /// All commands of the plan are left.
    pub fn all(alloc: Global, plan: &Plan) -> Result<Left, NoMemory>
        ensures next { IfOk result (λ left. AreNext plan.now left) }
        ensures left { IfOk result (λ left. left_of plan.now.commands left
            ≡ map (commands_of plan.now) (range_with_len 0 (length plan.now.actors))) }
    {
        let commands = plan.commands();
        let mut places = Vec::new(alloc);
        for actor in 0..plan.actors().len() {
            places.push(next_place(commands, actor as u32, 0))?;
        }
        Ok(Left { places })
    }

    // The place of the actor's next command, if there is the actor.
    fn place_of(&self, actor: u32) -> Option<usize>
        ensures { result ≡ slice_get self.now actor }
    {
        self.places.get(actor as usize).copied()
    }

    /// The actor's next command; without one `NoSuchActor` or `NoCommand`.
    pub fn next<'a>(&self, plan: &'a Plan, actor: u32) -> Result<&'a LineCommand, Found>
        requires { AreNext plan.now self.now }
        ensures { MatchResult result
            (λ c. next_command_of (slice_get (left_of plan.now.commands self.now) actor) ≡ Ok c.now)
            (λ found. next_command_of (slice_get (left_of plan.now.commands self.now) actor) ≡ Err found) }
    {
        let Some(place) = self.place_of(actor) else {
            return Err(Found::NoSuchActor);
        };
        match plan.commands().get(place) {
            Some(command) => Ok(command),
            None => Err(Found::NoCommand),
        }
    }

    /// The actor's next command is gone.
    pub fn advance(&mut self, plan: &Plan, actor: u32)
        requires next { AreNext plan.now self.old }
        requires some { IsOk (next_command_of (slice_get (left_of plan.now.commands self.old) actor)) }
        ensures next { AreNext plan.now self.new }
        ensures gone { left_of plan.now.commands self.new ≡ slice_set (left_of plan.now.commands self.old) actor
            (rest_of (slice_get (left_of plan.now.commands self.old) actor)) }
    {
        let Some(place) = self.place_of(actor) else {
            unreachable!();
        };
        self.places[actor as usize] = next_place(plan.commands(), actor, place + 1);
    }

    /// Whether no command is left.
    pub fn is_empty(&self, plan: &Plan) -> bool
        requires { AreNext plan.now self.now }
        ensures { result ≡ list_all (λ rest. length rest == 0) (left_of plan.now.commands self.now) }
    {
        are_all(&self.places, plan.commands().len())
    }
}

// Whether each place is the end.
fn are_all(places: &[usize], end: usize) -> bool
    ensures { result ≡ list_all (λ place. place == end) places.now }
{
    places.iter().all(|place| *place == end)
}

// The place of the actor's first command from a place on, or the number of the commands.
fn next_place(commands: &[LineCommand], actor: u32, from: usize) -> usize
    requires { from ≤ length commands.now }
    ensures next { IsNext commands.now actor result }
    ensures skips { commands_from commands.now actor result ≡ commands_from commands.now actor from }
{
    for place in from..commands.len() {
        if commands[place].actor == actor {
            return place;
        }
    }
    commands.len()
}

//! The live mesh.
ghost use Rattle.std.specs.Prelude.{◌≡◌, ◌<◌, ◌^◌, length, find, nat_le, IfOk, IsOk};
ghost use Rattle.std.specs.Option.{option_map};
ghost use Rattle.geo_model.specs.declared.step.Step.TheVariants as steps;
ghost use Rattle.geo_model.specs.Fitting.{Fitting};
ghost use Rattle.geo_model.specs.Laws.{ClosesOk};
ghost use Rattle.geo_model.specs.Listing.{listing};
ghost use Rattle.geo_model.specs.Opening.{opening};
ghost use Rattle.geo_model.specs.Order.{first_bio, is_at_rest, is_to_take, take_step};
ghost use Rattle.geo_model.specs.Plans.{FactsFit, IsCommand};
ghost use Rattle.geo_model.specs.Sound.{Sound};
ghost use Rattle.geo_model.specs.Steady.{Steady};
ghost use Rattle.geo_model.specs.Step.{is_enabled};
ghost use Rattle.geo_model.specs.World.{is_down, is_up};
ghost use Rattle.geo_moves.specs.Spots.{bytes_read_by, spot_of};
ghost use Rattle.geo_session.specs.Growth.{with_command};
ghost use Rattle.geo_session.specs.Moves.{IsEnabledDeliver};
ghost use Rattle.geo_session.specs.Session.{none_left, HasHistory, without_commands, Answers, Commands};

use crate::found::found_against;
use crate::live::Live;
use crate::making::{command, make};
use crate::opened::begin;
use crate::refusal::SessionRefusal;
use crate::takes::first_to_take;
use geo_base::{BioId, NoMemory};
use geo_log::DiskFacts;
use geo_model::{LineCommand, MeshList, Outcome, Step};
use geo_moves::{Spot, bytes_read, is_unsettled, listing, spot_in};
use geo_script::Plan;
use std::alloc::Global;
use std::marker::{Brand, Model};
use std::sync::ledger::Blank;

/// A live mesh. Contracts see its world, in which no actor has a command left, how many steps it has made, and how many
/// of them were of the graph.
#[derive(Drop)]
pub struct Session {
    alloc: Global,
    // In a box, so that whoever moves a session moves little.
    live: Box<Live>,
}

impl Model for Session {
    ghost use Rattle.geo_session.specs.Live.{session_view, IsSession};
    ghost use Rattle.geo_session.specs.Session.{SessionView};

    ghost Value = { SessionView };

    ghost view = { λ s. session_view s.live.value };

    ghost invariant = { λ s. IsSession s.live.value };
}

impl Session {
    /// What the header of a plan begins, over disks of these sizes: its disks stand that don't come later, and it has
    /// its actors. The plan's commands aren't made.
    pub fn begin(alloc: Global, plan: &Plan, disks: &DiskFacts) -> Result<Session, NoMemory>
        requires { FactsFit plan.now disks.now.items }
        ensures { IfOk result (λ session. session
            ≡ record { world = opening (without_commands plan.now) disks.now.items; steps = 0; generation = 0 }) }
    {
        let live = Box::new(alloc, begin(alloc, plan, disks)?)?;
        Ok(Session { alloc, live })
    }

    /// Makes a step of a seat. `NotEnabled` exactly where the step isn't enabled, with what was found; `NoMemory` only
    /// else. After each the mesh is as before. A Deliver that is enabled is never refused.
    pub fn step(&mut self, seat: u32, step: Step) -> Result<Outcome, SessionRefusal>
        ensures answer { Answers result self.old self.new seat step }
        ensures sure { IsEnabledDeliver self.old.world seat step → IsOk result }
    {
        make::<Brand>(self.alloc, &mut self.live, seat, step, Blank::new(1))
    }

    /// Makes a command at once: the Go of its actor where the actor has it left and nothing else. `NotEnabled` exactly
    /// where that Go isn't enabled, with what was found: there is no such actor, or what the command waits for;
    /// `NoMemory` only else. After each the mesh is as before, and the command is gone. A close that is answered ok is
    /// never refused.
    pub fn command(&mut self, line: &LineCommand) -> Result<Outcome, SessionRefusal>
        requires { IsCommand line.now.command }
        ensures answer { Commands result self.old self.new line.now }
        ensures sure { ClosesOk (with_command line.now self.old.world) 0 line.now.actor → IsOk result }
    {
        command::<Brand>(self.alloc, &mut self.live, line, Blank::new(1))
    }

    /// Whether a step is enabled for a seat.
    pub fn enabled(&self, seat: u32, step: &Step) -> bool
        ensures { result ≡ is_enabled self.now.world seat step.now }
    {
        found_against(self.live.actors, &self.live.state, seat, step).is_none()
    }

    /// Whether no bio, event or taste is left, and no reap or wash is possible.
    pub fn at_rest(&self) -> bool
        ensures { result ≡ is_at_rest self.now.world }
    {
        !is_unsettled(&self.live.state)
    }

    /// The mesh as it is printed.
    pub fn listing(&self, alloc: Global) -> Result<MeshList, NoMemory>
        ensures { IfOk result (λ lines. lines ≡ listing self.now.world) }
    {
        listing(alloc, &self.live.state)
    }

    /// The Up of the smallest bio that is Up.
    pub fn first_up(&self) -> Option<Step>
        ensures { result ≡ first_bio self.now.world (λ x. is_up x.phase) (λ x. steps.Up x.number) }
    {
        match self.live.state.traffic.first_up() {
            Some(bio) => Some(Step::Up { bio }),
            None => None,
        }
    }

    /// The Take of the smallest bio that can be taken: it is Sent, and no bio of its disk is Busy.
    pub fn first_to_take(&self) -> Option<Step>
        ensures { result ≡ first_bio self.now.world (is_to_take self.now.world) (take_step self.now.world) }
    {
        first_to_take(&self.live.state)
    }

    /// The Start of the smallest bio that is Down.
    pub fn first_down(&self) -> Option<Step>
        ensures { result ≡ first_bio self.now.world (λ x. is_down x.phase) (λ x. steps.Start x.number) }
    {
        match self.live.state.traffic.first_down() {
            Some(bio) => Some(Step::Start { bio }),
            None => None,
        }
    }

    /// The least bio that isn't below a number.
    pub fn next_bio(&self, from: u64) -> Option<BioId>
        ensures { result ≡ option_map (λ x. x.number) (find (λ x. nat_le from x.number) self.now.world.bios) }
    {
        self.live.state.traffic.next_from(from)
    }

    /// How many bytes a READ of this bio gives; 0 for another command, or if there is no such bio.
    pub fn room(&self, bio: BioId) -> u32
        ensures { result ≡ bytes_read_by self.now.world bio }
    {
        match self.live.state.traffic.get(bio) {
            Some(found) => bytes_read(found),
            None => 0,
        }
    }

    /// Where a bio goes that waits for its disk: Some exactly where it is Sent. The numbers of bios fit 64 bits.
    pub fn sent(&self, bio: BioId) -> Option<Spot>
        ensures spot { result ≡ spot_of self.now.world bio }
        ensures bound { self.now.world.next_bio < 2 ^ 64 }
    {
        match self.live.state.traffic.get(bio) {
            Some(found) => spot_in(&self.live.state.topo, found),
            None => None,
        }
    }

    /// How many bios are on their way.
    pub fn bios(&self) -> u64
        ensures { result ≡ length self.now.world.bios }
    {
        self.live.state.traffic.len()
    }

    /// How many handles there are, open or not yet reaped.
    pub fn handles(&self) -> u64
        ensures { result ≡ length self.now.world.handles }
    {
        self.live.state.handles.len()
    }

    /// No actor has a command left: each is made when it is given.
    pub fn no_commands(&self)
        ensures { self.now.world.actors ≡ none_left (length self.now.world.actors) }
    {
        let _live = &self.live;
    }

    /// How many actors there are.
    pub fn actors(&self) -> u32
        ensures { result ≡ length self.now.world.actors }
    {
        self.live.actors
    }

    /// How many steps it has made, counted up to 2^64 and then from 0 again.
    pub fn steps(&self) -> u64
        ensures { result ≡ self.now.steps }
    {
        self.live.steps
    }

    /// How many of its steps were of the graph, counted up to 2^64 and then from 0 again: by their kind they may have
    /// changed geoms, providers, consumers, their counts or handles.
    pub fn generation(&self) -> u64
        ensures { result ≡ self.now.generation }
    {
        self.live.generation
    }

    /// How it came to be, at any moment: there is a legal history from an opening to it, which keeps all that the
    /// histories of meshes do. So it is sound, steady and fitting.
    pub fn history(&self)
        ensures history { HasHistory self.now }
        ensures sound { Sound self.now.world }
        ensures steady { Steady self.now.world }
        ensures fitting { Fitting self.now.world }
    {
        let _live = &self.live;
    }
}

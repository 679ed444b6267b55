//! The mesh: its plan, what it is now, and its log.
ghost use Rattle.std.specs.Prelude.{◌≡◌, ℕ, ◌<◌, ◌^◌, [], ◌∷◌, ◌++◌, length, find, nat_le, IfOk, IsOk, IsTrue};
ghost use Rattle.std.specs.Option.{option_map};
ghost use Rattle.geo_model.specs.declared.step.Step.TheVariants as steps;
ghost use Rattle.geo_model.specs.Laws.{NoneBusy};
ghost use Rattle.geo_model.specs.History.{next_command};
ghost use Rattle.geo_model.specs.Listing.{listing};
ghost use Rattle.geo_model.specs.Order.{is_at_rest, first_bio, is_to_take, take_step};
ghost use Rattle.geo_model.specs.Plans.{FactsFit};
ghost use Rattle.geo_model.specs.Step.{is_enabled};
ghost use Rattle.geo_model.specs.World.{is_up, is_down};
ghost use Rattle.geo_core.specs.Mesh.{MeshView, IsHistory, world_of, bytes_read_by, Applies, Advances, IsSure};
ghost use Rattle.geo_core.specs.Sent.{spot_of};

use crate::apply::{advance, apply, begin};
use crate::found::found_against;
use crate::refusal::ApplyRefusal;
use crate::rest::is_idle;
use crate::running::Running;
use crate::sent::sent;
use geo_base::{BioId, NoMemory};
use geo_log::{DiskFacts, Log};
use geo_model::{MeshList, Outcome, Step};
use geo_moves::{Spot, bytes_read, disk_of, listing, reap_found, wash_found};
use geo_script::Plan;
use std::alloc::Global;
use std::marker::{Brand, Model};
use std::mem;
use std::sync::ledger::Blank;

/// A mesh under way. Contracts see what it began with, its plan and the sizes of its disks, and its log: its world is
/// that to which the log leads from the opening.
#[derive(Drop)]
pub struct Mesh {
    alloc: Global,
    // In a box, so that whoever moves a mesh, as each pass of a lock does, moves little.
    running: Box<Running>,
}

impl Model for Mesh {
    ghost use Rattle.geo_core.specs.Mesh.{MeshView};
    ghost use Rattle.geo_core.specs.Running.{seen, IsMesh};

    ghost Value = { MeshView };

    ghost view = { λ m. seen m.running.value };

    ghost invariant = { λ m. IsMesh m.running.value };
}

impl Mesh {
    /// The mesh of a plan, over disks of these sizes, that has made no step. On `NoMemory` the plan is dropped.
    pub fn begin(alloc: Global, plan: Plan, disks: &DiskFacts) -> Result<Mesh, NoMemory>
        requires { FactsFit plan disks.now.items }
        ensures began { IfOk result (λ mesh. mesh ≡ record { plan = plan; facts = disks.now.items; log = [] }) }
        ensures history { IfOk result IsHistory }
    {
        let running = Box::new(alloc, begin(alloc, plan, disks)?)?;
        Ok(Mesh { alloc, running })
    }

    /// Makes a step of a seat, and keeps it in the log. `NotEnabled` exactly where the step isn't enabled, with what
    /// was found; `LogFull` exactly where it is enabled and its entry, with the places that are then owed, would bring
    /// the log above 4,294,967,296 entries; `NoMemory` only else. After each the mesh is as before. A Deliver that is
    /// enabled is never refused, nor is a Go of a close that is answered ok.
    pub fn apply(&mut self, seat: u32, step: Step) -> Result<Outcome, ApplyRefusal>
        ensures answer { Applies result self.old self.new seat step }
        ensures history { IsHistory self.new }
        ensures sure { IsSure (world_of self.old) seat step → IsOk result }
    {
        apply::<Brand>(self.alloc, &mut self.running, seat, step, Blank::new(1))
    }

    /// The same without the outcome, which is the last entry's, so that no bytes are copied.
    pub fn make(&mut self, seat: u32, step: Step) -> Result<(), ApplyRefusal>
        ensures answer { Advances result self.old self.new seat step }
        ensures history { IsHistory self.new }
        ensures sure { IsSure (world_of self.old) seat step → IsOk result }
    {
        advance::<Brand>(self.alloc, &mut self.running, seat, step, Blank::new(1))
    }

    /// Whether a step is enabled for a seat.
    pub fn enabled(&self, seat: u32, step: &Step) -> bool
        ensures { result ≡ is_enabled (world_of self.now) seat step.now }
    {
        let running = &*self.running;
        found_against(&running.plan, &running.left, &running.state, seat, step).is_none()
    }

    /// Whether no command, bio, event or taste is left, and no reap or wash is possible.
    pub fn at_rest(&self) -> bool
        ensures rest { result ≡ is_at_rest (world_of self.now) }
        ensures history { IsHistory self.now }
    {
        let running = &*self.running;
        if !is_idle(running) {
            return false;
        }
        // These two are asked last, since a wash is sought among the geoms.
        let state = &running.state;
        reap_found(state).is_some() && wash_found(state).is_some()
    }

    /// The mesh as it is printed.
    pub fn listing(&self, alloc: Global) -> Result<MeshList, NoMemory>
        ensures { IfOk result (λ lines. lines ≡ listing (world_of self.now)) }
    {
        listing(alloc, &self.running.state)
    }

    /// The Up of the smallest bio that is Up.
    pub fn first_up(&self) -> Option<Step>
        ensures { result ≡ first_bio (world_of self.now) (λ x. is_up x.phase) (λ x. steps.Up x.number) }
    {
        match self.running.state.traffic.first_up() {
            Some(bio) => Some(Step::Up { bio }),
            None => None,
        }
    }

    /// The Take of the smallest bio that can be taken, where none is Busy.
    pub fn first_to_take(&self) -> Option<Step>
        requires { NoneBusy (world_of self.now) }
        ensures { result
            ≡ first_bio (world_of self.now) (is_to_take (world_of self.now)) (take_step (world_of self.now)) }
    {
        let running = &*self.running;
        let state = &running.state;
        match state.traffic.first_sent() {
            Some(bio) => Some(Step::Take {
                disk: disk_of(&state.topo, &state.traffic, bio).unwrap_or(0),
                bio,
            }),
            None => None,
        }
    }

    /// The Start of the smallest bio that is Down.
    pub fn first_down(&self) -> Option<Step>
        ensures { result ≡ first_bio (world_of self.now) (λ x. is_down x.phase) (λ x. steps.Start x.number) }
    {
        match self.running.state.traffic.first_down() {
            Some(bio) => Some(Step::Start { bio }),
            None => None,
        }
    }

    /// The least bio that isn't below a number.
    pub fn next_bio(&self, from: u64) -> Option<BioId>
        ensures { result ≡ option_map (λ x. x.number) (find (λ x. nat_le from x.number) (world_of self.now).bios) }
    {
        self.running.state.traffic.next_from(from)
    }

    /// How many bytes a READ of this bio gives; 0 for another command, or if there is no such bio.
    pub fn room(&self, bio: BioId) -> u32
        ensures { result ≡ bytes_read_by (world_of self.now) bio }
    {
        match self.running.state.traffic.get(bio) {
            Some(found) => bytes_read(found),
            None => 0,
        }
    }

    /// Where a bio goes that waits for its disk: Some exactly where it is Sent. The numbers of bios fit 64 bits.
    pub fn sent(&self, bio: BioId) -> Option<Spot>
        ensures spot { result ≡ spot_of (world_of self.now) bio }
        ensures bound { (world_of self.now).next_bio < 2 ^ 64 }
    {
        sent(&self.running, bio)
    }

    /// How many actors there are.
    pub fn actors(&self) -> u32
        ensures { result ≡ length (world_of self.now).actors }
    {
        self.running.plan.actors().len() as u32
    }

    /// The line of the actor's next command.
    pub fn next_line(&self, actor: u32) -> Option<u32>
        ensures { result ≡ option_map (λ c. c.line) (next_command (world_of self.now) actor) }
    {
        match self.running.left.next(&self.running.plan, actor) {
            Ok(line) => Some(line.line),
            Err(_) => None,
        }
    }

    /// The plan with which it began.
    pub fn plan(&self) -> &Plan
        ensures plan { result.now ≡ self.now.plan }
        ensures history { IsHistory self.now }
    {
        &self.running.plan
    }

    /// The log.
    pub fn log(&self) -> &Log
        ensures log { result.now.items ≡ self.now.log }
        ensures history { IsHistory self.now }
    {
        &self.running.log
    }

    /// The log, taken out.
    pub fn into_log(self) -> Log
        ensures log { result.items ≡ self.log }
        ensures history { IsHistory self }
    {
        let Mesh { alloc, running } = self;
        let mut rest = Box::into_inner(running);
        let log = mem::replace(&mut rest.log, Log::new(alloc));
        drop(rest);
        log
    }
}

//! A client, and its turn.
ghost use Rattle.std.specs.Prelude.{◌≡◌, ℕ, List, IfSome};
ghost use Rattle.geo_model.specs.declared.listing.GeomLine.{GeomLine};
ghost use Rattle.geo_model.specs.declared.step.Outcome.TheVariants.{Replied};
ghost use Rattle.geo_model.specs.declared.step.Reply.TheVariants.{Listing};
ghost use Rattle.geo_lock.specs.Yard.{IsPassOf};
ghost use Rattle.geo_jobs.specs.Ends.{CanShow};
ghost use Rattle.geo_jobs.specs.Listings.{listing_seen};
ghost use Rattle.geo_jobs.specs.Passes.{IsGoodPass, opened_by};
ghost use Rattle.geo_jobs.specs.Clients.{DidClient, IsClientJob, NotesOutcome, ShowsOutcome, is_end};
ghost use Rattle.geo_jobs.specs.Hints.{go_hints};
ghost use Rattle.geo_jobs.specs.LanePasses.{AreFew, CanPut};

use crate::gate::{Gate, GatePlace};
use crate::lanes::Lanes;
use crate::publisher::Publisher;
use crate::putting::put;
use crate::tried::{Tried, try_step};
use crate::turn::Turn;
use geo_core::Mesh;
use geo_lane::{LanePass, TicketStep};
use geo_lock::{Pass, Yard};
use geo_model::{Found, Outcome, Reply, Step};
use std::sync::Wait;

/// A client: its actor, the line of the actor's last command that was made, or 0 before the first, the pass by which it
/// puts tickets into the down lane, and by what it shows each listing that it is replied, if it shows them.
#[derive(Drop)]
pub struct ClientJob {
    pub actor: u32,
    pub line: u32,
    pub down: LanePass,
    pub publisher: Option<Publisher>,
}

impl ClientJob {
    /// One turn: the actor's next command is tried, once the gate lets the client go on. After a command that made a
    /// bio a ticket to start it is put; a listing is shown, if the client shows. `Idle` comes only where the next
    /// command is a sync or a settle that still waits, `Finished` exactly where the actor has no command left.
    pub fn turn<R: Wait + AllocGlobal, G: Gate>(
        &mut self,
        pass: &mut Pass<Mesh>,
        rt: &R,
        yard: &Yard<Mesh>,
        lanes: &Lanes,
        gate: &G,
    ) -> Turn
        requires own { IsPassOf yard.now pass.old }
        requires job { IsClientJob lanes.now pass.old self.old }
        ensures job { IsClientJob lanes.now pass.new self.new }
        ensures good { IsGoodPass pass.new }
        ensures did { DidClient (opened_by yard.now.start) pass.old pass.new self.old self.new result }
    {
        let actor = self.actor;
        let line = self.line;
        gate.hold(GatePlace::ClientNext { actor, line });
        match try_step(rt, yard, pass, Step::Go { actor }) {
            Tried::Made(outcome) => {
                self.note(rt, lanes, &outcome);
                self.show(rt, pass, outcome);
                Turn::Worked
            }
            Tried::NotEnabled(found) => {
                if is_end(&found) {
                    Turn::Finished
                } else {
                    Turn::Idle
                }
            }
            Tried::LogFull => Turn::LogFull,
            Tried::NoMemory => Turn::NoMemory,
        }
    }

    // Notes the line of an outcome, and puts the ticket that it names.
    fn note<R: Wait>(&mut self, rt: &R, lanes: &Lanes, outcome: &Outcome)
        requires { CanPut lanes.now.down self.old.down }
        ensures noted { NotesOutcome outcome.now self.old self.new }
        ensures few { AreFew (go_hints outcome.now) }
        ensures publisher { self.new.publisher ≡ self.old.publisher }
    {
        match outcome {
            Outcome::Replied { line, .. } => self.line = *line,
            Outcome::Accepted { line, bio } => {
                self.line = *line;
                put(rt, &lanes.down, &mut self.down, TicketStep::Start(*bio));
            }
            _ => {}
        }
    }

    // Shows an outcome, if it is a listing and the client shows. The pass has seen it.
    fn show<R: AllocGlobal>(&mut self, rt: &R, pass: &Pass<Mesh>, outcome: Outcome)
        requires listed { (line : ℕ) (lines : List GeomLine)
            → outcome ≡ Replied line (Listing lines) → lines ≡ listing_seen pass.now }
        requires can { IfSome self.old.publisher (λ v. CanShow v pass.now) }
        ensures shown { ShowsOutcome outcome pass.now.seen self.old.publisher self.new.publisher }
        ensures can { IfSome self.new.publisher (λ v. CanShow v pass.now) }
        ensures same { (self.new.actor ≡ self.old.actor) × (self.new.line ≡ self.old.line)
            × (self.new.down ≡ self.old.down) }
    {
        let Some(publisher) = &mut self.publisher else {
            return;
        };
        if let Outcome::Replied {
            reply: Reply::Listing(list),
            ..
        } = outcome
        {
            let _ = publisher.publish(rt, pass, list);
        }
    }
}

// Whether no command is left.
fn is_end(found: &Found) -> bool
    ensures { result ≡ is_end found.now }
{
    match found {
        Found::NoSuchActor | Found::NoCommand => true,
        _ => false,
    }
}

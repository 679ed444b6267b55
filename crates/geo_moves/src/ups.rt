//! A request goes up to its owner (g_io_deliver, g_bio(9)).
ghost use Rattle.std.specs.Prelude.{◌≡◌, ◌+◌, ◌≤◌, List, IfOk, IfSome, OnErr, IsTrue};
ghost use Rattle.geo_model.specs.declared.step.Entry.{Entry};
ghost use Rattle.geo_model.specs.World.{bio_at, is_up, bio_among};
ghost use Rattle.geo_model.specs.Step.{up_of};
ghost use Rattle.geo_bio.specs.BioTable.{has_phase};
ghost use Rattle.geo_state.specs.Holds.{Holds};
ghost use Rattle.geo_state.specs.World.{HasBytes};
ghost use Rattle.geo_state.specs.Steps.{Stands, Makes, SameWorld};
ghost use Rattle.geo_moves.specs.Returned.{is_taste_read, steps_up};
ghost use Rattle.geo_moves.specs.Risen.{outcome_of_rise, owner_line};

use crate::returns::hand_back;
use geo_access::Steps;
use geo_base::{BioId, NoMemory};
use geo_bio::Risen;
use geo_log::Log;
use geo_model::{BioResult, Outcome, Owner, Reply};
use geo_state::{State, Traffic};
use std::alloc::Global;
use std::sync::ledger::Ledger;

/// A bio that is Up goes up to its owner: a child counts in its parent, which goes up once all its children are in; the
/// root of a line is the reply to the line; and the taste has the result of its read, and gives back what it was
/// granted for it (geom(4)). Where memory is wanting all stays.
pub fn up<L: Ledger>(
    alloc: Global,
    state: &mut State,
    log: &Log,
    bio: BioId,
    steps: &mut Steps<L>,
) -> Result<Outcome, NoMemory>
    requires stands { Stands state.old }
    requires up { IsTrue (has_phase is_up state.old.traffic.bios bio) }
    ensures made { IfOk result (λ o.
        Makes (λ w. up_of w (bio_at w bio)) log.now.items state.old state.new o) }
    ensures kept { Holds state.new }
    ensures same { OnErr result (SameWorld state.old state.new) }
    ensures logged { (entries : List Entry) → HasBytes entries state.old → HasBytes entries state.new }
    ensures bound { steps.new ≤ steps.old
        + steps_up state.old.topo.topology (bio_among state.old.traffic.bios bio) }
{
    if is_taste_read(&state.traffic, bio) {
        return hand_back(alloc, state, log, bio, steps);
    }
    let line = line_of(&state.traffic, bio);
    let risen = geo_state::up(state, alloc, bio, log)?;
    Ok(outcome_of(line, risen))
}

// Whether a bio is the taste's read.
fn is_taste_read(bios: &Traffic, bio: BioId) -> bool
    ensures { result ≡ is_taste_read bios.now.bios bio }
{
    match bios.get(bio) {
        Some(found) => match found.owner {
            Owner::Taste => true,
            _ => false,
        },
        None => false,
    }
}

// The line that a root answers.
fn line_of(bios: &Traffic, bio: BioId) -> u32
    ensures { IfSome (bio_among bios.now.bios bio) (λ x. result ≡ owner_line x.owner) }
{
    match bios.get(bio) {
        Some(found) => match found.owner {
            Owner::Line { line, .. } => line,
            _ => 0,
        },
        None => 0,
    }
}

// What comes of a rise: a child came in, or the result of a root is the reply to its line.
fn outcome_of(line: u32, risen: Risen) -> Outcome
    ensures { result ≡ outcome_of_rise line risen }
{
    match risen {
        Risen::InParent { parent, complete } => Outcome::Gathered { parent, complete },
        Risen::Root(got) => Outcome::Replied {
            line,
            reply: match got {
                BioResult::Done => Reply::Ok,
                BioResult::Bytes(bytes) => Reply::Bytes(bytes),
                BioResult::Failed(errno) => Reply::Refused(errno),
            },
        },
    }
}

//! The taste's read is back (geom(4), g_bio(9)).
ghost use Rattle.std.specs.Prelude.{◌≡◌, ◌+◌, ◌≤◌, true, List, IfOk, OnErr, IsTrue};
ghost use Rattle.geo_model.specs.declared.step.Entry.{Entry};
ghost use Rattle.geo_model.specs.World.{bio_at, is_up, bio_among};
ghost use Rattle.geo_model.specs.Bios.{taste_with};
ghost use Rattle.geo_model.specs.Step.{up_of};
ghost use Rattle.geo_bio.specs.BioTable.{has_phase};
ghost use Rattle.geo_taste.specs.Taster.{IsSettled};
ghost use Rattle.geo_state.specs.Holds.{Holds};
ghost use Rattle.geo_state.specs.World.{HasBytes};
ghost use Rattle.geo_state.specs.Steps.{Stands, Makes, SameWorld};
ghost use Rattle.geo_moves.specs.Returned.{IsReading, given_back, is_taste_read, root_result, steps_back, steps_up};

use geo_access::Steps;
use geo_base::{BioId, NoMemory};
use geo_bio::Risen;
use geo_log::Log;
use geo_model::{BioResult, Outcome};
use geo_state::State;
use std::alloc::Global;
use std::sync::ledger::Ledger;

/// The taste's read goes up: it is gone, and the taste has its result. Where memory is wanting all stays.
pub fn hand_back<L: Ledger>(
    alloc: Global,
    state: &mut State,
    log: &Log,
    bio: BioId,
    steps: &mut Steps<L>,
) -> Result<Outcome, NoMemory>
    requires stands { Stands state.old }
    requires up { IsTrue (has_phase is_up state.old.traffic.bios bio) }
    requires taste { is_taste_read state.old.traffic.bios bio ≡ true }
    ensures made { IfOk result (λ o.
        Makes (λ w. up_of w (bio_at w bio)) log.now.items state.old state.new o) }
    ensures kept { Holds state.new }
    ensures same { OnErr result (SameWorld state.old state.new) }
    ensures logged { (entries : List Entry) → HasBytes entries state.old → HasBytes entries state.new }
    ensures bound { steps.new ≤ steps.old
        + steps_up state.old.topo.topology (bio_among state.old.traffic.bios bio) }
{
    let risen = geo_state::up(state, alloc, bio, log)?;
    give_back(state, root_result(risen), steps);
    Ok(Outcome::TasteBack)
}

// The result of a root.
fn root_result(risen: Risen) -> BioResult
    ensures { result ≡ root_result risen }
{
    match risen {
        Risen::Root(got) => got,
        Risen::InParent { .. } => BioResult::Done,
    }
}

// The taste has the result of its read, and gives back what it was granted for it.
fn give_back<L: Ledger>(state: &mut State, got: BioResult, steps: &mut Steps<L>)
    requires settled { IsSettled state.old.topo }
    requires reading { IsReading state.old.topo state.old.taste }
    ensures topo { state.new.topo ≡ given_back state.old.topo state.old.taste }
    ensures taste { state.new.taste ≡ taste_with got state.old.taste }
    ensures rest { state.new ≡ record state.old { topo = state.new.topo; taste = state.new.taste } }
    ensures settled { IsSettled state.new.topo }
    ensures bound { steps.new ≤ steps.old + steps_back state.old.topo.topology state.old.taste }
{
    match state.taste.take() {
        Some(mut taste) => {
            geo_taste::hand_back(&mut taste, &mut state.topo, got, steps);
            state.taste = Some(taste);
        }
        None => {}
    }
}

//! What is against an Event, a Judge and a Wash.
ghost use Rattle.std.specs.Prelude.{◌≡◌};
ghost use Rattle.geo_model.specs.Step.{event, judge_next, wash_next};
ghost use Rattle.geo_model.specs.World.{is_read_out};
ghost use Rattle.geo_state.specs.Holds.{Holds};
ghost use Rattle.geo_state.specs.Steps.{IsAgainst, Stands};
ghost use Rattle.geo_moves.specs.Steps.{event_against, taste_against};

use geo_base::BioId;
use geo_class::{Asked, Taste};
use geo_event::EventQueue;
use geo_life::wash_where;
use geo_model::Found;
use geo_state::State;

/// What is against an Event, if anything is: a taste is under way, or no event waits.
pub fn event_found(state: &State) -> Option<Found>
    ensures { IsAgainst event state.now result }
{
    queue_found(state.taste.is_some(), &state.queue)
}

/// What is against a Judge, if anything is: no taste is under way, or its read is out.
pub fn judge_found(state: &State) -> Option<Found>
    requires kept { Holds state.now }
    ensures { IsAgainst judge_next state.now result }
{
    taste_found(&state.taste, state.read)
}

/// What is against a Wash, if anything is: nothing of a withering geom can go.
pub fn wash_found(state: &State) -> Option<Found>
    requires stands { Stands state.now }
    ensures { IsAgainst wash_next state.now result }
{
    match wash_where(&state.topo) {
        Some(_work) => None,
        None => Some(Found::NothingToWash),
    }
}

// What is against an Event, by whether a taste is under way and by the queue.
fn queue_found(tasting: bool, queue: &EventQueue) -> Option<Found>
    ensures { result ≡ event_against tasting queue.now.events }
{
    if tasting {
        return Some(Found::TasteUnderWay);
    }
    match queue.head() {
        Some(_next) => None,
        None => Some(Found::QueueEmpty),
    }
}

// What is against a Judge of a taste, if there is one, by the number of its read.
fn taste_found(taste: &Option<Taste>, read: Option<BioId>) -> Option<Found>
    ensures { result ≡ taste_against read taste.now }
{
    let Some(taste) = taste else {
        return Some(Found::NoTaste);
    };
    if !is_out(taste) {
        return None;
    }
    match read {
        Some(bio) => Some(Found::ReadOut { bio }),
        None => Some(Found::ReadOut { bio: BioId::new(0) }),
    }
}

// Whether the read of the taste is out.
fn is_out(taste: &Taste) -> bool
    ensures { result ≡ is_read_out taste.now.asked }
{
    match taste.asked() {
        Asked::ReadOut { .. } => true,
        _ => false,
    }
}

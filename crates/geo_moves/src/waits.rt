//! What a command waits for.
ghost use Rattle.std.specs.Prelude.{ℕ, ◌≡◌, ◌==◌, ◌||◌, List, not, length, is_some};
ghost use Rattle.geo_model.specs.declared.command.Command.TheVariants as commands;
ghost use Rattle.geo_model.specs.declared.command.LineCommand.{LineCommand};
ghost use Rattle.geo_model.specs.declared.step.Entry.{Entry};
ghost use Rattle.geo_model.specs.Freeing.{reap_work, wash_work};
ghost use Rattle.geo_model.specs.Step.{is_unsettled, waits_for};
ghost use Rattle.geo_state.specs.Steps.{Stands};
ghost use Rattle.geo_state.specs.World.{world};

use geo_life::wash_where;
use geo_model::{Command, Found};
use geo_state::{State, own_bio};

/// What a command waits for, if anything: a sync for the requests of the actor's own lines, a settle until no event, no
/// taste, no request, no reap and no wash is due.
pub fn wait_found(state: &State, actor: u32, command: &Command) -> Option<Found>
    requires stands { Stands state.now }
    ensures { (actors : List (List LineCommand)) (log : List Entry)
        → result ≡ waits_for (world actors log state.now) actor command.now }
{
    match command {
        Command::Sync => sync_found(state, actor),
        Command::Settle => settle_found(state),
        _ => None,
    }
}

// What a sync waits for: the first request of the actor's own lines.
fn sync_found(state: &State, actor: u32) -> Option<Found>
    requires stands { Stands state.now }
    ensures { (actors : List (List LineCommand)) (log : List Entry)
        → result ≡ waits_for (world actors log state.now) actor commands.Sync }
{
    match own_bio(state, actor) {
        Some(bio) => Some(Found::OwnBiosOut { bio }),
        None => None,
    }
}

// What a settle waits for.
fn settle_found(state: &State) -> Option<Found>
    requires stands { Stands state.now }
    ensures { (actors : List (List LineCommand)) (log : List Entry) (actor : ℕ)
        → result ≡ waits_for (world actors log state.now) actor commands.Settle }
{
    if is_unsettled(state) {
        Some(Found::Unsettled)
    } else {
        None
    }
}

/// Whether an event, a taste, a request, a reap or a wash is due.
pub fn is_unsettled(state: &State) -> bool
    requires stands { Stands state.now }
    ensures { (actors : List (List LineCommand)) (log : List Entry)
        → result ≡ is_unsettled (world actors log state.now) }
{
    is_under_way(state) || can_be_freed(state)
}

// Whether an event waits, a taste is under way or a request is out.
fn is_under_way(state: &State) -> bool
    ensures { result ≡ (not (length state.now.queue.events == 0)
        || (is_some state.now.taste || not (length state.now.traffic.bios == 0))) }
{
    state.queue.head().is_some() || state.taste.is_some() || !state.traffic.is_empty()
}

// Whether a dead handle can be reaped, or a part of a withering geom washed.
fn can_be_freed(state: &State) -> bool
    requires stands { Stands state.now }
    ensures { (actors : List (List LineCommand)) (log : List Entry) → result
        ≡ (is_some (reap_work (world actors log state.now)) || is_some (wash_work (world actors log state.now))) }
{
    state.handles.first_ready().is_some() || wash_where(&state.topo).is_some()
}

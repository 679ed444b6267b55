//! A step is made, and a command.
ghost use Rattle.std.specs.Prelude.{◌≡◌, ◌+◌, ◌%◌, ◌^◌, [], None, IfOk, IsOk, IsTrue, List, OnErr};
ghost use Rattle.geo_bio.specs.BioTable.{has_phase};
ghost use Rattle.geo_model.specs.declared.step.Entry.{Entry as EntryValue};
ghost use Rattle.geo_model.specs.Commands.{do_command};
ghost use Rattle.geo_model.specs.Laws.{ClosesOk};
ghost use Rattle.geo_model.specs.Plans.{IsCommand};
ghost use Rattle.geo_model.specs.Step.{up_of};
ghost use Rattle.geo_model.specs.World.{bio_at, is_up};
ghost use Rattle.geo_laws_texts.specs.Naming.{HaveNames};
ghost use Rattle.geo_state.specs.Holds.{Holds};
ghost use Rattle.geo_state.specs.Steps.{Does, Makes, SameWorld, Stands};
ghost use Rattle.geo_state.specs.World.{world, HasBytes};
ghost use Rattle.geo_session.specs.Growth.{with_command};
ghost use Rattle.geo_session.specs.Live.{session_view, IsSession};
ghost use Rattle.geo_session.specs.Moves.{IsFoundAgainst, IsEnabledDeliver, Leads, SurelyCloses};
ghost use Rattle.geo_session.specs.Session.{none_left, Answers, Commands};

use crate::found::{found_against, found_given};
use crate::generation::{is_graph_command, is_graph_step, is_of_graph, is_up, next_generation};
use crate::live::Live;
use crate::refusal::SessionRefusal;
use geo_access::Steps;
use geo_base::{BioId, NoMemory};
use geo_log::Log;
use geo_model::{LineCommand, Outcome, Step};
use geo_moves::{decide, deliver_kept, do_command, event, judge, reap, start, take, up, wash};
use geo_state::State;
use std::alloc::Global;
use std::sync::ledger::{Blank, Ledger};

/// Makes a step of a seat, unless something is against it. What it calls counts steps: here no one looks at the count.
pub fn make<L: Ledger>(
    alloc: Global,
    live: &mut Live,
    seat: u32,
    step: Step,
    blank: Blank,
) -> Result<Outcome, SessionRefusal>
    requires session { IsSession live.old }
    requires name { blank.name ≡ L.name }
    requires parts { blank.parts ≡ L.parts }
    requires some { L.parts ≡ 1 }
    ensures session { IsSession live.new }
    ensures answer { Answers result (session_view live.old) (session_view live.new) seat step }
    ensures sure { IsEnabledDeliver (session_view live.old).world seat step → IsOk result }
{
    if let Some(found) = found_against(live.actors, &live.state, seat, &step) {
        return Err(SessionRefusal::NotEnabled { found });
    }
    let mut steps: Steps<L> = Steps::new(blank);
    let works = is_graph_step(&step);
    let rises = is_up(&step);
    let outcome = turn(alloc, live.actors, &mut live.state, seat, step, &mut steps)?;
    live.steps = one_more(live.steps);
    live.generation = next_generation(live.generation, is_of_graph(works, rises, &outcome));
    Ok(outcome)
}

// Makes a step, against which nothing is. Where memory is wanting all stays; a Deliver takes none.
fn turn<L: Ledger>(
    alloc: Global,
    actors: u32,
    state: &mut State,
    seat: u32,
    step: Step,
    steps: &mut Steps<L>,
) -> Result<Outcome, NoMemory>
    requires stands { Stands state.old }
    requires bytes { HasBytes [] state.old }
    requires found { IsFoundAgainst actors state.old seat step None }
    ensures made { IfOk result (λ o.
        Leads (world (none_left actors) [] state.old) seat step (world (none_left actors) [] state.new) o) }
    ensures kept { Holds state.new }
    ensures same { OnErr result (SameWorld state.old state.new) }
    ensures bytes { HasBytes [] state.new }
    ensures sure { IsEnabledDeliver (world (none_left actors) [] state.old) seat step → IsOk result }
{
    match step {
        Step::Go { .. } => unreachable!(),
        Step::Event => {
            event(state)?;
            Ok(Outcome::Ran)
        }
        Step::Judge => judge(alloc, state, steps),
        Step::Reap => {
            reap(state, steps);
            Ok(Outcome::Ran)
        }
        Step::Wash => {
            wash(state);
            Ok(Outcome::Ran)
        }
        Step::Start { bio } => start(alloc, state, bio),
        Step::Take { disk, bio } => take(alloc, state, seat, disk, bio),
        Step::Deliver { bio, got } => {
            deliver_kept(state, seat, bio, got);
            Ok(Outcome::Delivered)
        }
        Step::Up { bio } => rise(alloc, state, bio, steps),
    }
}

// A bio goes up. No bytes are sought in a log: the log has none.
fn rise<L: Ledger>(
    alloc: Global,
    state: &mut State,
    bio: BioId,
    steps: &mut Steps<L>,
) -> Result<Outcome, NoMemory>
    requires stands { Stands state.old }
    requires up { IsTrue (has_phase is_up state.old.traffic.bios bio) }
    ensures made { IfOk result (λ o. Makes (λ w. up_of w (bio_at w bio)) [] state.old state.new o) }
    ensures kept { Holds state.new }
    ensures same { OnErr result (SameWorld state.old state.new) }
    ensures bytes { HasBytes [] state.old → HasBytes [] state.new }
{
    let none = Log::new(alloc);
    up(alloc, state, &none, bio, steps)
}

/// Makes the command of a line at once, unless its actor isn't there or something is against it.
pub fn command<L: Ledger>(
    alloc: Global,
    live: &mut Live,
    line: &LineCommand,
    blank: Blank,
) -> Result<Outcome, SessionRefusal>
    requires session { IsSession live.old }
    requires is_command { IsCommand line.now.command }
    requires name { blank.name ≡ L.name }
    requires parts { blank.parts ≡ L.parts }
    requires some { L.parts ≡ 1 }
    ensures session { IsSession live.new }
    ensures answer { Commands result (session_view live.old) (session_view live.new) line.now }
    ensures sure { ClosesOk (with_command line.now (session_view live.old).world) 0 line.now.actor → IsOk result }
{
    if let Some(found) = found_given(live.actors, &live.state, line) {
        return Err(SessionRefusal::NotEnabled { found });
    }
    let mut steps: Steps<L> = Steps::new(blank);
    let outcome = go(alloc, &mut live.state, line, &mut steps)?;
    live.steps = one_more(live.steps);
    live.generation = next_generation(live.generation, is_graph_command(&line.command));
    Ok(outcome)
}

// Decides of the command of a line, and makes it. Where memory is wanting all stays; a close that is answered ok takes
// none.
fn go<L: Ledger>(
    alloc: Global,
    state: &mut State,
    line: &LineCommand,
    steps: &mut Steps<L>,
) -> Result<Outcome, NoMemory>
    requires stands { Stands state.old }
    requires named { HaveNames state.old.topo.topology }
    requires is_command { IsCommand line.now.command }
    ensures does { (log : List EntryValue) → IfOk result (λ o.
        Does (λ w. do_command w line.now.line line.now.actor line.now.command) log state.old state.new o) }
    ensures kept { Holds state.new }
    ensures same { OnErr result (SameWorld state.old state.new) }
    ensures logged { (log : List EntryValue) → HasBytes log state.old → HasBytes log state.new }
    ensures sure { SurelyCloses state.old line.now.actor line.now.command → IsOk result }
{
    let decision = decide(state, line.actor, &line.command, steps);
    do_command(
        alloc,
        state,
        line.line,
        line.actor,
        &line.command,
        decision,
        steps,
    )
}

// The count of steps with one more; after 2^64 - 1 comes 0.
fn one_more(steps: u64) -> u64
    ensures { result ≡ (steps + 1) % 2 ^ 64 }
{
    steps.wrapping_add(1)
}

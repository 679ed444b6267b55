//! A step is made, and its entry stands in the log.
ghost use Rattle.std.specs.Prelude.{◌≡◌, ◌++◌, ◌∷◌, [], List, None, Ok, IfOk, IsOk, OnOk, OnErr, All};
ghost use Rattle.geo_model.specs.declared.command.LineCommand.{LineCommand as LineCommandValue};
ghost use Rattle.geo_model.specs.declared.step.Entry.{Entry as EntryValue};
ghost use Rattle.geo_model.specs.declared.step.Outcome.{Outcome as OutcomeValue};
ghost use Rattle.geo_model.specs.declared.step.Step.{Step as StepValue};
ghost use Rattle.geo_model.specs.Step.{go};
ghost use Rattle.geo_model.specs.Plans.{IsCommand};
ghost use Rattle.geo_state.specs.Holds.{Holds};
ghost use Rattle.geo_state.specs.Steps.{SameWorld, Stands};
ghost use Rattle.geo_state.specs.World.{world, HasBytes};
ghost use Rattle.geo_laws_texts.specs.Naming.{HaveNames};
ghost use Rattle.geo_core.specs.Left.{left_of, AreNext};
ghost use Rattle.geo_core.specs.Mesh.{world_of, IsSure, Made};
ghost use Rattle.geo_core.specs.Moves.{Moves, IsFound};
ghost use Rattle.geo_core.specs.Running.{seen, IsMesh};
ghost use Rattle.geo_core.specs.Goes.{IsAdmitted, IsDecidedNext, IsReady};

use crate::left::Left;
use crate::running::Running;
use geo_access::Steps;
use geo_base::NoMemory;
use geo_log::Log;
use geo_model::{Entry, Outcome, Step};
use geo_moves::{Decision, deliver, do_command, event, judge, reap, start, take, up, wash};
use geo_script::Plan;
use geo_state::State;
use std::alloc::Global;
use std::sync::ledger::Ledger;

/// Makes a step of a seat that can be made, and keeps it in the log. Where memory is wanting all stays. A Deliver takes
/// none, nor does a close that is answered ok.
pub fn carry<L: Ledger>(
    alloc: Global,
    running: &mut Running,
    seat: u32,
    step: Step,
    decision: Option<Decision>,
    steps: &mut Steps<L>,
) -> Result<(), NoMemory>
    requires mesh { IsMesh running.old }
    requires admitted { IsAdmitted running.old seat step decision }
    ensures mesh { IsMesh running.new }
    ensures made { OnOk result ((o : OutcomeValue) × Made (seen running.old) (seen running.new) seat step o) }
    ensures same { OnErr result (seen running.new ≡ seen running.old) }
    ensures sure { IsSure (world_of (seen running.old)) seat step → IsOk result }
{
    let outcome = make(
        alloc,
        &running.plan,
        &mut running.left,
        &mut running.state,
        &running.log,
        seat,
        &step,
        decision,
        steps,
    )?;
    running.log.push(Entry {
        seat,
        step,
        outcome,
    });
    Ok(())
}

// Makes a step, against which nothing is. Its entry is to be the next of the log. Where memory is wanting all stays.
fn make<L: Ledger>(
    alloc: Global,
    plan: &Plan,
    left: &mut Left,
    state: &mut State,
    log: &Log,
    seat: u32,
    step: &Step,
    decision: Option<Decision>,
    steps: &mut Steps<L>,
) -> Result<Outcome, NoMemory>
    requires stands { Stands state.old }
    requires logged { HasBytes log.now.items state.old }
    requires next { AreNext plan.now left.old }
    requires named { HaveNames state.old.topo.topology }
    requires commands { All (All (λ (c : LineCommandValue). IsCommand c.command))
        (left_of plan.now.commands left.old) }
    requires found { IsFound plan.now.commands left.old state.old seat step.now None }
    requires ready { IsReady plan.now.commands left.old state.old step.now decision }
    ensures made { IfOk result (λ o.
        Moves plan.now.commands log.now.items left.old left.new state.old state.new seat step.now o) }
    ensures next { AreNext plan.now left.new }
    ensures kept { Holds state.new }
    ensures same { OnErr result (SameWorld state.old state.new) }
    ensures left_stays { OnErr result (left.new ≡ left.old) }
    ensures logged { IfOk result (λ _. (e : EntryValue) → HasBytes (log.now.items ++ e ∷ []) state.new) }
    ensures bytes { OnErr result (HasBytes log.now.items state.new) }
    ensures sure { IsSure (world (left_of plan.now.commands left.old) log.now.items state.old) seat step.now
        → IsOk result }
{
    match step {
        Step::Go { actor } => match decision {
            Some(decision) => go(alloc, plan, left, state, *actor, decision, steps),
            None => unreachable!(),
        },
        Step::Event => {
            event(state)?;
            Ok(Outcome::Ran)
        }
        Step::Judge => judge(alloc, state, steps),
        Step::Reap => {
            reap(state, steps);
            Ok(Outcome::Ran)
        }
        Step::Wash => {
            wash(state);
            Ok(Outcome::Ran)
        }
        Step::Start { bio } => start(alloc, state, *bio),
        Step::Take { disk, bio } => take(alloc, state, seat, *disk, *bio),
        Step::Deliver { bio, got } => {
            deliver(state, log, seat, *bio, got);
            Ok(Outcome::Delivered)
        }
        Step::Up { bio } => up(alloc, state, log, *bio, steps),
    }
}

// Makes a Go, against which nothing is.
fn go<L: Ledger>(
    alloc: Global,
    plan: &Plan,
    left: &mut Left,
    state: &mut State,
    actor: u32,
    decision: Decision,
    steps: &mut Steps<L>,
) -> Result<Outcome, NoMemory>
    requires stands { Stands state.old }
    requires next { AreNext plan.now left.old }
    requires named { HaveNames state.old.topo.topology }
    requires commands { All (All (λ (c : LineCommandValue). IsCommand c.command))
        (left_of plan.now.commands left.old) }
    requires found { IsFound plan.now.commands left.old state.old 0 (StepValue.Go actor) None }
    requires ready { IsDecidedNext plan.now.commands left.old state.old actor decision }
    ensures made { (log : List EntryValue) → IfOk result (λ o.
        go (world (left_of plan.now.commands left.old) log state.old) actor
        ≡ Ok (world (left_of plan.now.commands left.new) log state.new, o)) }
    ensures next { AreNext plan.now left.new }
    ensures kept { Holds state.new }
    ensures same { OnErr result (SameWorld state.old state.new) }
    ensures left_stays { OnErr result (left.new ≡ left.old) }
    ensures logged { (log : List EntryValue) → HasBytes log state.old → HasBytes log state.new }
    ensures sure { (log : List EntryValue)
        → IsSure (world (left_of plan.now.commands left.old) log state.old) 0 (StepValue.Go actor) → IsOk result }
{
    let Ok(line) = left.next(plan, actor) else {
        unreachable!();
    };
    let outcome = do_command(
        alloc,
        state,
        line.line,
        actor,
        &line.command,
        decision,
        steps,
    )?;
    left.advance(plan, actor);
    Ok(outcome)
}

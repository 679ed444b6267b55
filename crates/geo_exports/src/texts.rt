//! What is read of the texts that C gives.
ghost use Rattle.std.specs.Prelude.{◌≡◌, IfOk, IfSome, MatchResult};
ghost use Rattle.geo_model.specs.Plans.{IsCommand};
ghost use Rattle.geo_exports.specs.Texts.{only_one, IsCommandOf, IsNoCommand, IsPlanOf, IsUnread};

use crate::refusal::Refusal;
use geo_model::LineCommand;
use geo_script::{ParseRefusal, Plan, parse};
use std::alloc::Global;

/// The plan of a text.
pub fn plan_of(alloc: Global, text: &[u8]) -> Result<Plan, Refusal>
    ensures { MatchResult result (λ plan. IsPlanOf text.now plan) (λ refusal. IsUnread refusal text.now) }
{
    if text.len() >= 1 << 32 {
        return Err(Refusal::Long);
    }
    match parse(alloc, text) {
        Ok(plan) => Ok(plan),
        Err(ParseRefusal::Fault { line, .. }) => Err(Refusal::Fault { line }),
        Err(ParseRefusal::NoMemory) => Err(Refusal::NoMemory),
    }
}

// The only one of these commands.
#[tactic(auto, using(crate::proofs::OnlyCommand::no_other))]
fn only_one(commands: Vec<LineCommand>) -> Option<LineCommand>
    ensures { result ≡ only_one commands.items }
{
    let mut commands = commands;
    let Some(last) = commands.pop() else {
        return None;
    };
    if commands.is_empty() {
        return Some(last);
    }
    drop(last);
    None
}

// The only command of a plan.
#[tactic(auto, using(crate::proofs::OnlyCommand::only_of_plan))]
fn only_of(plan: Plan) -> Option<LineCommand>
    ensures only { result ≡ only_one plan.commands }
    ensures form { IfSome result (λ c. IsCommand c.command) }
{
    let (disks, actors, commands) = plan.into_parts();
    drop(disks);
    drop(actors);
    only_one(commands)
}

/// The command of a text that has no other.
pub fn command_of(alloc: Global, text: &[u8]) -> Result<LineCommand, Refusal>
    ensures read { MatchResult result (λ c. IsCommandOf text.now c) (λ refusal. IsNoCommand refusal text.now) }
    ensures form { IfOk result (λ c. IsCommand c.command) }
{
    let plan = match plan_of(alloc, text) {
        Ok(plan) => plan,
        Err(refusal) => return Err(refusal),
    };
    match only_of(plan) {
        Some(command) => Ok(command),
        None => Err(Refusal::Commands),
    }
}

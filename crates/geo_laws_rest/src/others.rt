//! What actors have left to do (geom(4)).
ghost use Rattle.geo_laws_rest.specs.CommandsLeft.{OthersLeaveCommands};

/// What an actor has left changes by its own Goes alone: entries that are none of these leave it as it is.
#[tactic(auto, using(crate::proofs::EachStep::others_leave_commands))]
pub fn others_leave_commands()
    ensures { OthersLeaveCommands }
{}

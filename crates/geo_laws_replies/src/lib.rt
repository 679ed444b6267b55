//! The law of replies: where a legal log comes to rest, each command has exactly one reply, and no line has another.
//! There is no code: each contract is a law.
//!
//! A line is unanswered as often as a command of it is left, or a request that it made is on its way. Each step that
//! replies to the line takes one away, and no other step changes the number ([`steps_answer`]). At the opening that is
//! as often as the plan has a command there, and at rest it is zero ([`each_command_has_its_reply`]).
//!
//! geo_run needs it. Read `specs/ReplyLaws.antt` first.
#![tactic(auto)]

ghost use Rattle.geo_laws_replies.specs.ReplyLaws.{RestAnswersEachCommand, StepsAnswer};

/// Each step takes a line that it replies to from those that are unanswered, once, and no other.
#[tactic(auto, using(crate::proofs::AnsweringSteps::steps_answer))]
pub fn steps_answer()
    ensures { StepsAnswer }
{}

/// Where a legal log comes to rest, each command has exactly one reply, and no line has another.
#[tactic(auto, using(crate::proofs::AllAnswered::rest_answers_each_command))]
pub fn each_command_has_its_reply()
    ensures { RestAnswersEachCommand }
{}

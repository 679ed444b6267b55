//! The mesh as a state with a log, which threads share under a lock, and what the answers to its steps tell.
ghost use Rattle.geo_core.specs.Logged.{AnswersTell, DeliversAreSure, MadeIsAnswered, PassesAreGood};

use crate::mesh::Mesh;
use crate::refusal::ApplyRefusal;
use geo_lock::Logged;
use geo_model::{Entry, Outcome, Step};
use geo_script::Plan;
use std::collections::LinkedList;

/// What a mesh began with: its plan, and the sector size and the size of each disk. No value of it is made.
pub struct MeshStart {
    pub plan: Plan,
    pub facts: LinkedList<(u32, u64)>,
}

impl Logged for Mesh {
    type Start = MeshStart;

    type Entry = Entry;

    type Step = Step;

    type Outcome = Outcome;

    type Refusal = ApplyRefusal;

    ghost use Rattle.std.specs.Prelude.{refl};
    ghost use Rattle.geo_core.specs.Mesh.{IsHistory, entry_of, world_of};
    ghost use Rattle.geo_core.specs.Logged.{answer_of, is_sure, is_want, mesh_of, mesh_start};

    ghost start = { mesh_start };

    ghost log = { λ m. m.log };

    ghost lawful = { λ s log. IsHistory (mesh_of s log) };

    ghost entry = { entry_of };

    ghost seat_of = { λ e. e.seat };

    ghost answer = { λ s log seat step. answer_of (mesh_of s log) seat step };

    ghost is_no_memory = { is_want };

    ghost takes_no_memory = { λ s log seat step. is_sure (world_of (mesh_of s log)) seat step };

    ghost seat_is = { λ _ _ _. refl };

    #[tactic(auto, using(crate::proofs::LoggedAnswers::answered, crate::proofs::LoggedAnswers::takes_no_memory))]
    fn apply_as(&mut self, seat: u32, step: Step) -> Result<Outcome, ApplyRefusal> {
        self.apply(seat, step)
    }
}

/// What an answer tells: an outcome, that the step was enabled and had its place; a refusal, that it wasn't enabled, or
/// that the log was full; and no other is answered but for want of memory.
#[tactic(auto, using(crate::proofs::LoggedAnswers::answers_tell))]
pub fn answers_tell()
    ensures { AnswersTell }
{}

/// A step that is enabled and has its place is answered with its outcome, want of memory aside.
#[tactic(auto, using(crate::proofs::LoggedAnswers::made_is_answered))]
pub fn made_is_answered()
    ensures { MadeIsAnswered }
{}

/// An enabled Deliver takes no memory.
#[tactic(auto, using(crate::proofs::LoggedAnswers::delivers_are_sure))]
pub fn delivers_are_sure()
    ensures { DeliversAreSure }
{}

/// A pass of a yard that is good in a log of the mesh is a good pass of the model: what it has seen begins the log, and
/// its own entries are those of its number, all among what it has seen.
#[tactic(auto, using(crate::proofs::LoggedAnswers::passes_are_good))]
pub fn passes_are_good()
    ensures { PassesAreGood }
{}

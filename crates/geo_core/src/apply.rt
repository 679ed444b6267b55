//! A mesh that begins, and a step of it.
ghost use Rattle.std.specs.Prelude.{◌≡◌, [], ◌∷◌, ◌++◌, List, IfOk, IsOk};
ghost use Rattle.geo_model.specs.declared.step.Entry.{Entry as EntryValue};
ghost use Rattle.geo_model.specs.Plans.{FactsFit};
ghost use Rattle.geo_core.specs.Mesh.{world_of, Applies, Advances, IsHistory, IsSure};
ghost use Rattle.geo_core.specs.Running.{seen, IsMesh};
ghost use Rattle.geo_core.specs.Twins.{EndsWith};

use crate::admit::admit;
use crate::carry::carry;
use crate::left::Left;
use crate::refusal::ApplyRefusal;
use crate::running::Running;
use crate::twin::{Spare, spare_of, twin};
use geo_access::Steps;
use geo_base::NoMemory;
use geo_log::{DiskFacts, Log};
use geo_model::{Outcome, Step};
use geo_moves::opening;
use geo_script::Plan;
use std::alloc::Global;
use std::sync::ledger::{Blank, Ledger};

/// What a mesh holds that has made no step.
pub fn begin(alloc: Global, plan: Plan, disks: &DiskFacts) -> Result<Running, NoMemory>
    requires { FactsFit plan disks.now.items }
    ensures began { IfOk result (λ r. seen r ≡ record { plan = plan; facts = disks.now.items; log = [] }) }
    ensures mesh { IfOk result IsMesh }
{
    let left = Left::all(alloc, &plan)?;
    let facts = disks.copy(alloc)?;
    let state = opening(alloc, &plan, disks)?;
    Ok(Running {
        plan,
        facts,
        left,
        state,
        log: Log::new(alloc),
    })
}

/// Makes a step of a seat, and keeps it in the log. What it calls counts steps: here no one looks at the count.
pub fn advance<L: Ledger>(
    alloc: Global,
    running: &mut Running,
    seat: u32,
    step: Step,
    blank: Blank,
) -> Result<(), ApplyRefusal>
    requires mesh { IsMesh running.old }
    requires name { blank.name ≡ L.name }
    requires parts { blank.parts ≡ L.parts }
    requires some { L.parts ≡ 1 }
    ensures mesh { IsMesh running.new }
    ensures answer { Advances result (seen running.old) (seen running.new) seat step }
    ensures sure { IsSure (world_of (seen running.old)) seat step → IsOk result }
{
    let mut steps: Steps<L> = Steps::new(blank);
    let decision = admit(running, seat, &step, &mut steps)?;
    carry(alloc, running, seat, step, decision, &mut steps)?;
    Ok(())
}

/// Makes a step of a seat, keeps it in the log, and answers its outcome. What takes memory is copied before the step.
pub fn apply<L: Ledger>(
    alloc: Global,
    running: &mut Running,
    seat: u32,
    step: Step,
    blank: Blank,
) -> Result<Outcome, ApplyRefusal>
    requires mesh { IsMesh running.old }
    requires name { blank.name ≡ L.name }
    requires parts { blank.parts ≡ L.parts }
    requires some { L.parts ≡ 1 }
    ensures mesh { IsMesh running.new }
    ensures answer { Applies result (seen running.old) (seen running.new) seat step }
    ensures sure { IsSure (world_of (seen running.old)) seat step → IsOk result }
{
    let mut steps: Steps<L> = Steps::new(blank);
    let decision = admit(running, seat, &step, &mut steps)?;
    let spare = spare_of(alloc, running, &step)?;
    carry(alloc, running, seat, step, decision, &mut steps)?;
    Ok(last_outcome(&running.log, spare))
}

// The outcome of the last entry.
fn last_outcome(log: &Log, spare: Spare) -> Outcome
    requires { EndsWith log.now.items spare }
    ensures { (entries : List EntryValue) (e : EntryValue) → log.now.items ≡ entries ++ e ∷ [] → result ≡ e.outcome }
{
    match log.entries().last() {
        Some(entry) => twin(&entry.outcome, spare),
        None => unreachable!(),
    }
}

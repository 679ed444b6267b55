//! A handle is opened and closed.
ghost use Rattle.std.specs.Prelude.{◌≡◌, IfOk, MatchResult, None};
ghost use Rattle.geo_exports.specs.Held.{mesh_in};
ghost use Rattle.geo_exports.specs.Opening.{begun, facts_of, Begins, BeginsBy, IsUnbegun, IsUnopened, Opens, SizesFit};

use crate::codes::{OK, OPEN};
use crate::held::TzbCore;
use crate::refusal::{Refusal, fault_line, refusal_code};
use crate::sizes::{TzbSize, listed, sizes_fit};
use crate::texts::plan_of;
use geo_base::NoMemory;
use geo_log::DiskFacts;
use geo_script::Plan;
use geo_tags::TaggedSession;
use std::alloc::Global;

// The sizes of the disks of a plan, which fit it.
fn facts_of(alloc: Global, plan: &Plan, sizes: &[TzbSize]) -> Result<DiskFacts, NoMemory>
    requires { SizesFit plan.now sizes.now }
    ensures { IfOk result (λ facts. facts.items ≡ facts_of plan.now.disks sizes.now) }
{
    listed(alloc, &sizes[..plan.disks().len()])
}

// The live mesh of a plan's header over sizes that fit it.
#[tactic(auto, using(crate::proofs::Fitting::fitting_facts))]
fn begin_fitting(
    alloc: Global,
    plan: &Plan,
    sizes: &[TzbSize],
) -> Result<Box<TaggedSession>, NoMemory>
    requires { SizesFit plan.now sizes.now }
    ensures { IfOk result (λ b. b.value ≡ begun plan.now (facts_of plan.now.disks sizes.now)) }
{
    let facts = facts_of(alloc, plan, sizes)?;
    let begun = TaggedSession::begin(alloc, plan, &facts);
    drop(facts);
    match begun {
        Ok(session) => match Box::new(alloc, session) {
            Ok(boxed) => Ok(boxed),
            Err(_) => Err(NoMemory),
        },
        Err(_) => Err(NoMemory),
    }
}

// The live mesh of a plan's header.
fn begin(alloc: Global, plan: &Plan, sizes: &[TzbSize]) -> Result<Box<TaggedSession>, Refusal>
    ensures { MatchResult result (λ b. Begins plan.now sizes.now b.value)
        (λ refusal. IsUnbegun refusal plan.now sizes.now) }
{
    if !sizes_fit(plan.disks(), sizes) {
        return Err(Refusal::Sizes);
    }
    match begin_fitting(alloc, plan, sizes) {
        Ok(session) => Ok(session),
        Err(_) => Err(Refusal::NoMemory),
    }
}

// The live mesh of a text's header.
fn begin_by(alloc: Global, text: &[u8], sizes: &[TzbSize]) -> Result<Box<TaggedSession>, Refusal>
    ensures { MatchResult result (λ b. BeginsBy text.now sizes.now b.value)
        (λ refusal. IsUnopened refusal text.now sizes.now) }
{
    let plan = match plan_of(alloc, text) {
        Ok(plan) => plan,
        Err(refusal) => return Err(refusal),
    };
    let begun = begin(alloc, &plan, sizes);
    drop(plan);
    begun
}

/// Opens a handle with a header and the size of each of its disks, in its order.
#[unsafe(no_mangle)]
pub extern "C" fn tzb_core_open(
    alloc: Global,
    core: &mut TzbCore,
    header: &[u8],
    sizes: &[TzbSize],
    fault: &mut u32,
) -> i32
    ensures { Opens result fault.new header.now sizes.now (mesh_in core.old) (mesh_in core.new) }
{
    *fault = 0;
    if !core.is_closed() {
        return OPEN;
    }
    match begin_by(alloc, header, sizes) {
        Ok(session) => {
            core.put(alloc, session);
            OK
        }
        Err(refusal) => {
            *fault = fault_line(refusal);
            refusal_code(refusal)
        }
    }
}

/// Closes a handle, and lets all go that it held.
#[unsafe(no_mangle)]
pub extern "C" fn tzb_core_close(alloc: Global, core: &mut TzbCore)
    ensures { mesh_in core.new ≡ None }
{
    drop(core.take(alloc));
}

//! A request is split into pieces (g_io_request, g_bio(9)).
ghost use Rattle.std.specs.Prelude.{ℕ, ◌≡◌, ◌+◌, ◌≤◌, ◌<◌, ◌^◌, true, ◌++◌, length, IsSome, IfSome, IfOk, OnOk, OnErr, IsTrue};
ghost use Rattle.std.specs.List.{AllByRecursion};
ghost use Rattle.geo_model.specs.declared.step.Phase.TheVariants as phases;
ghost use Rattle.geo_model.specs.Topology.{consumer_at};
ghost use Rattle.geo_model.specs.World.{change_number, is_down, bio_among};
ghost use Rattle.geo_bio.specs.BioTable.{has_phase, with_phase};
ghost use Rattle.geo_bio.specs.Split.{split_into};
ghost use Rattle.geo_slots.specs.Slots.{value_at};
ghost use Rattle.geo_state.specs.Holds.{Holds};
ghost use Rattle.geo_state.specs.Bios.{OnlyBios, IsNoHandles, all_out};

use crate::Targets;
use crate::bios::{MOST_OUT, has_count};
use crate::state::State;
use geo_base::{BioId, ConsId, NoMemory, ProvId};
use geo_class::{Config, PieceList};
use geo_mesh::Topo;
use std::alloc::Global;

/// A bio is split into children, one for each piece, in piece order, and waits for them. The first child's number is
/// answered; the others have the numbers that follow. Each goes through a consumer that no handle has. What can't be
/// counted, 2^32 pieces or more, and numbers that are used up, are answered as want of memory.
pub fn split(
    state: &mut State,
    alloc: Global,
    bio: BioId,
    pieces: &PieceList,
    targets: &Targets,
) -> Result<BioId, NoMemory>
    requires kept { Holds state.old }
    requires down { IsTrue (has_phase is_down state.old.traffic.bios bio) }
    requires some { 1 ≤ length pieces.now.items }
    requires same_number { length targets.now.items ≡ length pieces.now.items }
    requires through { AllByRecursion (λ (z : ℕ × ℕ). IsNoHandles state.old z.0) targets.now.items }
    ensures first { IfOk result (λ first. first ≡ state.old.traffic.next) }
    ensures split { IfSome (bio_among state.old.traffic.bios bio) (λ x. OnOk result
        (state.new.traffic.bios ≡ change_number bio (with_phase phases.Waiting) state.old.traffic.bios
        ++ split_into state.old.traffic.next x 0 pieces.now.items targets.now.items)) }
    ensures next { OnOk result (state.new.traffic.next ≡ state.old.traffic.next + length pieces.now.items) }
    ensures bios_stay { OnErr result (state.new.traffic.bios ≡ state.old.traffic.bios) }
    ensures next_stays { OnErr result (state.new.traffic.next ≡ state.old.traffic.next) }
    ensures only { OnlyBios state.old state.new }
    ensures kept { Holds state.new }
{
    let pairs = targets.items();
    if !have_counts(&state.topo, pairs) {
        return Err(NoMemory);
    }
    let first = state.traffic.start(alloc, bio, pieces, targets)?;
    note_all(&mut state.topo, pairs);
    Ok(first)
}

// Whether one more request through each of the consumers can be counted, and their number too.
fn have_counts(topo: &Topo<Config>, targets: &[(ConsId, ProvId)]) -> bool
    ensures few { result ≡ true → length targets.now < 2 ^ 62 }
    ensures counts { result ≡ true
        → AllByRecursion (λ (z : ℕ × ℕ). IfSome (value_at topo.now.active z.0) (λ n. n < 2 ^ 62)) targets.now }
{
    for target in targets {
        if !has_count(topo, target.0) {
            return false;
        }
    }
    (targets.len() as u64) < MOST_OUT
}

// One more request is out through each of the consumers.
fn note_all(topo: &mut Topo<Config>, targets: &[(ConsId, ProvId)])
    requires live { AllByRecursion (λ (z : ℕ × ℕ). IsSome (consumer_at topo.old.topology z.0)) targets.now }
    requires few { AllByRecursion (λ (z : ℕ × ℕ).
        IfSome (value_at topo.old.active z.0) (λ n. n + length targets.now ≤ 2 ^ 63)) targets.now }
    ensures { topo.new ≡ all_out topo.old targets.now }
{
    for target in targets {
        topo.note_active(target.0);
    }
}

//! A request goes down (g_io_request, g_bio(9)).
ghost use Rattle.std.specs.Prelude.{◌≡◌, ◌≤◌, List, length, IfOk, IfSome, OnErr, IsTrue, ℕ};
ghost use Rattle.std.specs.List.{AllByRecursion};
ghost use Rattle.geo_model.specs.declared.step.Entry.{Entry};
ghost use Rattle.geo_model.specs.World.{bio_at, is_down, bio_among};
ghost use Rattle.geo_model.specs.Bios.{PieceTarget, Splits, Passes};
ghost use Rattle.geo_model.specs.Step.{start_of};
ghost use Rattle.geo_bio.specs.BioTable.{has_phase};
ghost use Rattle.geo_state.specs.Bios.{IsNoHandles};
ghost use Rattle.geo_state.specs.Holds.{Holds};
ghost use Rattle.geo_state.specs.World.{HasBytes};
ghost use Rattle.geo_state.specs.Steps.{Stands, Makes, SameWorld};
ghost use Rattle.geo_mesh.specs.Topo.{with_topology};
ghost use Rattle.geo_model.specs.Topology.{note_started};
ghost use Rattle.geo_moves.specs.Started.{HasStarted};
ghost use Rattle.geo_moves.specs.Ways.{CanCount, IsCut};

use crate::cut::Cut;
use crate::way::{Way, way_of};
use geo_base::{BioId, Errno, GeomId, NoMemory};
use geo_model::Outcome;
use geo_state::{State, bounce, split};
use std::alloc::Global;

/// A bio that is Down goes its way: back with an error, to its disk, or in pieces to those below. What can't be
/// counted, and numbers that are used up, are told as want of memory. Where memory is wanting all stays.
pub fn start(alloc: Global, state: &mut State, bio: BioId) -> Result<Outcome, NoMemory>
    requires stands { Stands state.old }
    requires down { IsTrue (has_phase is_down state.old.traffic.bios bio) }
    ensures made { (log : List Entry) → IfOk result (λ o.
        Makes (λ w. start_of w (bio_at w bio)) log state.old state.new o) }
    ensures kept { Holds state.new }
    ensures same { OnErr result (SameWorld state.old state.new) }
    ensures logged { (log : List Entry) → HasBytes log state.old → HasBytes log state.new }
{
    let Some(found) = state.traffic.get(bio) else {
        unreachable!()
    };
    let way = way_of(alloc, &state.topo, found)?;
    match way {
        Way::Bounces(errno) => {
            bounce(state, bio, errno);
            Ok(Outcome::Bounced)
        }
        // a NOP geom counts what it fails
        Way::Fails(geom) => {
            note_started(state, geom);
            bounce(state, bio, Errno::EIO);
            Ok(Outcome::Bounced)
        }
        Way::Sends(disk) => {
            state.traffic.send(bio);
            Ok(Outcome::Queued { disk })
        }
        Way::Splits(cut) => split_by(alloc, state, bio, &cut),
        Way::Passes(geom, cut) => pass_by(alloc, state, bio, geom, &cut),
    }
}

// A bio is split into its pieces.
fn split_by(alloc: Global, state: &mut State, bio: BioId, cut: &Cut) -> Result<Outcome, NoMemory>
    requires kept { Holds state.old }
    requires down { IsTrue (has_phase is_down state.old.traffic.bios bio) }
    requires some { 1 ≤ length cut.now.pieces.items }
    requires same_number { length cut.now.targets.items ≡ length cut.now.pieces.items }
    requires through { AllByRecursion (λ (z : ℕ × ℕ). IsNoHandles state.old z.0) cut.now.targets.items }
    ensures started { (zs : List PieceTarget) → IsCut state.old.topo.topology cut.now zs
        → IfSome (bio_among state.old.traffic.bios bio) (λ x. IfOk result (λ o.
        HasStarted state.old state.new bio x (Splits zs) o)) }
    ensures kept { Holds state.new }
    ensures graph { state.new.topo.topology ≡ state.old.topo.topology }
    ensures same { OnErr result (SameWorld state.old state.new) }
    ensures bios_stay { OnErr result (state.new.traffic.bios ≡ state.old.traffic.bios) }
{
    let count = cut.pieces.items().len();
    if count > u32::MAX as usize {
        return Err(NoMemory);
    }
    let first = split(state, alloc, bio, &cut.pieces, &cut.targets)?;
    Ok(Outcome::Split {
        first,
        count: count as u32,
    })
}

// A NOP geom counts a bio, which is split into its pieces.
fn pass_by(
    alloc: Global,
    state: &mut State,
    bio: BioId,
    geom: GeomId,
    cut: &Cut,
) -> Result<Outcome, NoMemory>
    requires kept { Holds state.old }
    requires down { IsTrue (has_phase is_down state.old.traffic.bios bio) }
    requires count { CanCount state.old.topo.topology geom }
    requires some { 1 ≤ length cut.now.pieces.items }
    requires same_number { length cut.now.targets.items ≡ length cut.now.pieces.items }
    requires through { AllByRecursion (λ (z : ℕ × ℕ). IsNoHandles state.old z.0) cut.now.targets.items }
    ensures started { (zs : List PieceTarget) → IsCut state.old.topo.topology cut.now zs
        → IfSome (bio_among state.old.traffic.bios bio) (λ x. IfOk result (λ o.
        HasStarted state.old state.new bio x (Passes geom zs) o)) }
    ensures kept { Holds state.new }
    ensures same { OnErr result (SameWorld state.old state.new) }
    ensures bios_stay { OnErr result (state.new.traffic.bios ≡ state.old.traffic.bios) }
{
    let outcome = split_by(alloc, state, bio, cut)?;
    note_started(state, geom);
    Ok(outcome)
}

// A geom has started one more request.
fn note_started(state: &mut State, geom: GeomId)
    requires kept { Holds state.old }
    requires count { CanCount state.old.topo.topology geom }
    ensures noted { state.new ≡ record state.old {
      topo = with_topology state.old.topo (note_started state.old.topo.topology geom);
    } }
    ensures kept { Holds state.new }
{
    state.topo.note_started(geom);
}

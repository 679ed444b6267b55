//! Orders in which one thread makes the steps of a mesh.
ghost use Rattle.std.specs.Prelude.{◌≡◌, [], List, OnErr, OnOk, ⊤};
ghost use Rattle.geo_model.specs.declared.step.Entry.{Entry as EntryValue};
ghost use Rattle.geo_model.specs.FixedOrder.{StepOrder, fixed_order};
ghost use Rattle.geo_model.specs.Laws.{NoneBusy, OrderEnds, OrderGoesOn};
ghost use Rattle.geo_model.specs.World.{World};
ghost use Rattle.geo_model.proofs.RestLemmas.{pick-rest};
ghost use Rattle.geo_laws_rest.proofs.Picking.{pick_goes_on};
ghost use Rattle.geo_core.specs.Mesh.{IsHistory, opened, world_of};
ghost use Rattle.geo_drain.specs.Noted.{KnowsAll, KnowsPart};

use crate::picking::pick;
use geo_base::NoMemory;
use geo_core::Mesh;
use geo_model::Step;

/// An order in which one thread makes the steps of a mesh. Where a legal log leads without a Busy bio, and not to rest,
/// it gives an enabled step. It may keep what it needs of what the mesh did, and notes that after each turn.
pub trait Order {
    /// The step that is due in a world after its log, if there is one.
    ghost due: { Self → StepOrder };

    /// What the order has noted is right for a mesh that opened so and has this log.
    ghost knows: { Self → World → List EntryValue → Type 0 };

    /// The step that is due, where no bio is Busy and all that the mesh did is noted.
    fn next(&self, mesh: &Mesh) -> Option<Step>
        requires none_busy { NoneBusy (world_of mesh.now) }
        requires known { KnowsAll (knows self.now) mesh.now }
        ensures due { result ≡ due self.now (world_of mesh.now) mesh.now.log }
        ensures history { IsHistory mesh.now };

    /// Notes what the mesh did since. On `NoMemory`, which comes only of a look at the mesh, it may know nothing, as
    /// before the first entry.
    fn note(&mut self, mesh: &Mesh) -> Result<(), NoMemory>
        requires earlier { KnowsPart (knows self.old) mesh.now }
        ensures noted { OnOk result (KnowsAll (knows self.new) mesh.now) }
        ensures forgot { OnErr result (knows self.new (opened mesh.now) []) }
        ensures history { OnErr result (IsHistory mesh.now) }
        ensures due { due self.new ≡ due self.old };

    /// Where a legal log leads without a Busy bio, the step that is due is enabled and lowers the measure.
    ghost goes_on: { (order : Self) → OrderGoesOn (due order) };

    /// At rest none is due.
    ghost ends: { (order : Self) → OrderEnds (due order) };
}

/// The fixed order: Up, Take and Start of the smallest bio, Judge, Event, Reap, Wash, and then the Go of the actor
/// whose next line is the smallest. It notes nothing.
#[derive(Clone, Copy, Debug)]
pub struct FixedOrder;

impl Order for FixedOrder {
    ghost due = { λ _. fixed_order };

    ghost knows = { λ _ _ _. ⊤ };

    fn next(&self, mesh: &Mesh) -> Option<Step> {
        pick(mesh)
    }

    fn note(&mut self, _mesh: &Mesh) -> Result<(), NoMemory> {
        Ok(())
    }

    ghost goes_on = { λ _. pick_goes_on };

    ghost ends = { λ _ w _ rest. pick-rest w rest };
}

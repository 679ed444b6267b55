//! The step that is due in the fixed order.
ghost use Rattle.std.specs.Prelude.{◌≡◌, ◌↔◌, IfSome, IsNone, IsTrue};
ghost use Rattle.std.specs.Option.{option_map};
ghost use Rattle.geo_model.specs.declared.step.Step.TheVariants as steps;
ghost use Rattle.geo_model.specs.Laws.{NoneBusy};
ghost use Rattle.geo_model.specs.Order.{Rest, earliest, if_enabled, pick, ready_actors};
ghost use Rattle.geo_core.specs.Mesh.{IsHistory, world_of};
ghost use Rattle.geo_drain.specs.Drain.{Falls};
ghost use Rattle.geo_drain.specs.Earliest.{earlier_of, ready_at};

use geo_core::Mesh;
use geo_model::Step;

/// The step that is due in the fixed order, where no bio is Busy: the first enabled of Up, Take and Start of the
/// smallest bio, Judge, Event, Reap, Wash, and the Go of the actor whose next line is the smallest. None exactly at
/// rest. It lowers the measure, a Take together with its Deliver, so the order comes to rest however long the log may
/// be.
pub fn pick(mesh: &Mesh) -> Option<Step>
    requires { NoneBusy (world_of mesh.now) }
    ensures picked { result ≡ pick (world_of mesh.now) }
    ensures rest { IsNone result ↔ Rest (world_of mesh.now) }
    ensures falls { IfSome result (Falls (world_of mesh.now)) }
    ensures history { IsHistory mesh.now }
{
    if mesh.at_rest() {
        return None;
    }
    first_enabled(mesh)
}

// The first enabled step.
#[tactic(auto, unfolding(geo_model::specs::Order::pick))]
fn first_enabled(mesh: &Mesh) -> Option<Step>
    requires { NoneBusy (world_of mesh.now) }
    ensures { result ≡ pick (world_of mesh.now) }
{
    if let Some(step) = mesh.first_up() {
        return Some(step);
    }
    if let Some(step) = mesh.first_to_take() {
        return Some(step);
    }
    if let Some(step) = mesh.first_down() {
        return Some(step);
    }
    if let Some(step) = if_enabled(mesh, Step::Judge) {
        return Some(step);
    }
    if let Some(step) = if_enabled(mesh, Step::Event) {
        return Some(step);
    }
    if let Some(step) = if_enabled(mesh, Step::Reap) {
        return Some(step);
    }
    if let Some(step) = if_enabled(mesh, Step::Wash) {
        return Some(step);
    }
    match earliest(mesh) {
        Some(actor) => Some(Step::Go { actor }),
        None => None,
    }
}

/// A step, if seat 0 can make it.
pub fn if_enabled(mesh: &Mesh, step: Step) -> Option<Step>
    ensures { result ≡ if_enabled (world_of mesh.now) step }
{
    if mesh.enabled(0, &step) {
        Some(step)
    } else {
        None
    }
}

/// The actor whose next line is the smallest among those whose next command is enabled, if there is one.
pub fn earliest(mesh: &Mesh) -> Option<u32>
    ensures { result ≡ earliest (ready_actors (world_of mesh.now)) }
{
    let mut best: Option<(u32, u32)> = None;
    for actor in (0..mesh.actors()).rev() {
        best = earlier(mesh, actor, best);
    }
    match best {
        Some((actor, _)) => Some(actor),
        None => None,
    }
}

// Of an actor and one that comes later, the one whose line is smaller, or the actor where both have the same: with that
// line, and the actor only if its next command is enabled.
fn earlier(mesh: &Mesh, actor: u32, later: Option<(u32, u32)>) -> Option<(u32, u32)>
    ensures { result ≡ earlier_of (ready_at (world_of mesh.now) actor) later }
{
    let Some(line) = mesh.next_line(actor) else {
        return later;
    };
    if !mesh.enabled(0, &Step::Go { actor }) {
        return later;
    }
    match later {
        Some(other) if other.1 < line => Some(other),
        _ => Some((actor, line)),
    }
}

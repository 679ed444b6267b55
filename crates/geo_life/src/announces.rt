//! What follows a change of write counts (g_access(9)): spoils where they left zero, new tastes where they came to it.
ghost use Rattle.std.specs.Prelude.{◌≡◌, ℕ, ◌+◌, ◌≤◌, ◌||◌, true, not, length};
ghost use Rattle.std.specs.Option.{option_map_or};
ghost use Rattle.geo_base.specs.declared.request.Counts.{Counts};
ghost use Rattle.geo_model.specs.Topology.{is_errored, geom_of_provider};
ghost use Rattle.geo_model.specs.Events.{offer_again, announce_risen, announce_fallen};
ghost use Rattle.geo_access.specs.Access.{noted, IsCounted};
ghost use Rattle.geo_life.specs.Life.{queued, notes, IsDevMade, RestStays, AreStored, CountsStay, without_rises, without_falls};

use crate::spoils::spoil_at;
use geo_access::{next_fallen, next_risen};
use geo_base::ProvId;
use geo_event::EventQueue;
use geo_mesh::Topo;
use geo_model::Event;

/// What follows a rise of write counts, as an open makes it: at each provider that is noted, in order of numbers,
/// consumers are marked and Spoil is posted. No note of a rise is left. It takes one place of the queue for each note.
pub fn announce_risen<C>(topo: &mut Topo<C>, queue: &mut EventQueue)
    requires made { IsDevMade topo.old.topology }
    requires counted { IsCounted topo.old }
    requires room { notes topo.old.risen ≤ queue.old.spare }
    ensures announced { (granted : ℕ → Counts) → AreStored granted topo.old
        → queued topo.new queue.new ≡ announce_risen granted (noted topo.old.risen) (queued topo.old queue.old) }
    ensures rest { RestStays (without_rises topo.old) queue.old topo.new queue.new }
    ensures room { queue.new.spare + notes topo.old.risen ≡ queue.old.spare }
    ensures kept { CountsStay (without_rises topo.old) topo.new }
{
    while let Some(prov) = next_risen(topo) {
        spoil_at(topo, queue, prov);
    }
}

/// What follows a fall of write counts, as a close makes it: each provider that is noted is offered for taste again, in
/// order of numbers, unless it carries an error or its geom withers. No note of a fall is left. It takes at most one
/// place of the queue for each note.
pub fn announce_fallen<C>(topo: &mut Topo<C>, queue: &mut EventQueue)
    requires counted { IsCounted topo.old }
    requires room { notes topo.old.fallen ≤ queue.old.spare }
    ensures announced { queued topo.new queue.new
        ≡ announce_fallen (noted topo.old.fallen) (queued topo.old queue.old) }
    ensures mesh { topo.new ≡ without_falls topo.old }
    ensures memory { queue.new.spare + length queue.new.events ≡ queue.old.spare + length queue.old.events }
    ensures room { queue.old.spare ≤ queue.new.spare + notes topo.old.fallen }
    ensures counted { IsCounted topo.new }
{
    while let Some(prov) = next_fallen(topo) {
        offer_again(topo, queue, prov);
    }
}

/// The provider is offered for taste again, unless it carries an error or its geom withers. It takes at most one place
/// of the queue.
pub fn offer_again<C>(topo: &Topo<C>, queue: &mut EventQueue, prov: ProvId)
    requires room { 1 ≤ queue.old.spare }
    ensures offered { queued topo.now queue.new ≡ offer_again (queued topo.now queue.old) prov }
    ensures memory { queue.new.spare + length queue.new.events ≡ queue.old.spare + length queue.old.events }
    ensures room { queue.old.spare ≤ queue.new.spare + 1 }
{
    if is_offered(topo, prov) {
        queue.post(Event::NewProvider(prov));
    }
}

// Whether the provider carries no error, and its geom doesn't wither.
fn is_offered<C>(topo: &Topo<C>, prov: ProvId) -> bool
    ensures { result ≡ not (is_errored topo.now.topology prov
        || option_map_or (λ g. g.withering) (geom_of_provider topo.now.topology prov) true) }
{
    let Some(found) = topo.provider(prov) else {
        return false;
    };
    let Some(geom) = topo.geom(found.geom) else {
        return false;
    };
    !found.errored && !geom.withering
}

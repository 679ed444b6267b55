//! The end that looks.
ghost use Rattle.std.specs.Prelude.{◌≡◌, [], ◌∷◌, IfOk};
ghost use mathlib.Core.List.{IsPrefix};
ghost use Rattle.geo_jobs.specs.Passes.{MeshPass};
ghost use Rattle.geo_jobs.specs.Ends.{HasSeen, IsLooking, listing_of_watcher};
ghost use Rattle.geo_jobs.specs.Views.{AllBegin};

use crate::keeping::{Fetch, Keeping, Notes, Peep};
use crate::known::Known;
use crate::publisher::Slots;
use crate::shown::Shown;
use crate::told::Told;
use atomic_table::{Seat, Shared};
use geo_base::NoMemory;
use geo_core::Mesh;
use geo_lock::Pass;
use geo_model::MeshList;
use std::alloc::Global;
use std::marker::Model;
use std::snapshot::Snapshot;
use std::sync::Arc;

/// Looks at what the publisher shows with which it was made.
///
/// Contracts see which view it is, the pass with which it began, what that pass had seen of which the watcher saw the
/// list, and what it was told of since.
#[derive(Drop)]
pub struct Watcher {
    pub(crate) slots: Arc<Slots, Global>,
    pub(crate) seat: Seat<Option<Shown>, Known>,
    pub(crate) front: usize,
    pub(crate) alloc: Global,
}

impl Model for Watcher {
    ghost use Rattle.std.specs.Prelude.{◌≡◌};
    ghost use Rattle.std.specs.Arc.{arc_value};
    ghost use Rattle.geo_jobs.specs.Passes.{MeshPass};
    ghost use Rattle.geo_jobs.specs.Ends.{WatcherView, IsLooking};

    ghost Value = { WatcherView };

    ghost view = { λ w. record {
      view = w.seat.table_id;
      of = w.seat.me.0.of;
      seen = w.seat.me.0.seen;
      told = w.seat.me.0.told;
    } };

    ghost invariant = { λ w. (w.seat.table_id ≡ (arc_value w.slots).shared.table_id)
        × ((arc_value w.slots).shared.table_id.words ≡ 1) × ((arc_value w.slots).shared.table_id.slots ≡ 3)
        × ((o : MeshPass) × IsLooking o w.front w.seat.me) };
}

// The slot with a list that begins with what the watcher saw and was told of.
fn newest(
    shared: &Shared<Option<Shown>, Known, Snapshot<Pass<Mesh>>, Keeping>,
    seat: &mut Seat<Option<Shown>, Known>,
    front: usize,
) -> usize
    requires own { (seat.old.table_id ≡ shared.now.table_id) × (shared.now.table_id.words ≡ 1)
        × (shared.now.table_id.slots ≡ 3) }
    requires looks { (o : MeshPass) × IsLooking o front seat.old.me }
    ensures own { (seat.new.table_id ≡ seat.old.table_id) × (seat.new.me.0.of ≡ seat.old.me.0.of) }
    ensures looks { (o : MeshPass) × IsLooking o result seat.new.me }
    ensures later { IsPrefix seat.old.me.0.seen seat.new.me.0.seen
        × AllBegin seat.old.me.0.told seat.new.me.0.seen × (seat.new.me.0.told ≡ []) }
{
    let found = shared.load::<Peep>(seat, 0);
    let newer_waits = found % 2 == 1;
    if !newer_waits {
        return front;
    }
    let found = shared.swap::<Fetch>(seat, 0, 2 * front as u64);
    (found / 2) as usize
}

impl Watcher {
    /// Learns where the view stood. From now on it sees no less.
    pub fn learn(&mut self, told: Told)
        requires { told.view ≡ self.old.view }
        ensures same { (self.new.view ≡ self.old.view) × (self.new.of ≡ self.old.of) × (self.new.seen ≡ self.old.seen) }
        ensures told { self.new.told ≡ told.stood ∷ self.old.told }
    {
        let note = told.into_note();
        let shared = &self.slots.shared;
        shared.join_seat::<Notes>(&mut self.seat, note);
    }

    /// Tells what it has seen.
    pub fn tell(&mut self) -> Told
        ensures told { (result.view ≡ self.old.view) × (result.stood ≡ self.old.seen) }
        ensures same { self.new ≡ self.old }
    {
        let note = self.slots.shared.split_seat::<Notes>(&mut self.seat);
        Told { note }
    }

    /// The mesh as it is printed after what is then seen, which begins with all that this watcher saw before and was
    /// told of. `NoMemory` comes for the copy alone, and what is seen then is seen all the same.
    pub fn look(&mut self) -> Result<MeshList, NoMemory>
        ensures same { (self.new.view ≡ self.old.view) × (self.new.of ≡ self.old.of) × (self.new.told ≡ []) }
        ensures later { IsPrefix self.old.seen self.new.seen × AllBegin self.old.told self.new.seen }
        ensures list { IfOk result (λ l. l ≡ listing_of_watcher self.new) }
        ensures moment { (p : MeshPass) × HasSeen self.new p }
    {
        let shared = &self.slots.shared;
        self.front = newest(shared, &mut self.seat, self.front);
        let Some(shown) = shared.exchange(&mut self.seat, self.front, None) else {
            unreachable!()
        };
        let list = shown.list.copy(self.alloc);
        shared.exchange(&mut self.seat, self.front, Some(shown));
        list
    }
}

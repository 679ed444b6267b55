//! The end that shows lists.
ghost use Rattle.std.specs.Prelude.{◌≡◌, [], ◌∷◌, Some, IfErr, IfOk, IsOk};
ghost use mathlib.Core.List.{IsPrefix};
ghost use Rattle.geo_jobs.specs.Ends.{CanShow, IsLaid};
ghost use Rattle.geo_jobs.specs.Listings.{listing_seen};

use crate::keeping::{Agree, Fetch, Keeping, Meeting, Notes, Show, TakeBack};
use crate::known::Known;
use crate::shown::{Shown, shown_at};
use crate::told::Told;
use crate::watcher::Watcher;
use atomic_table::{Seat, Table};
use geo_base::NoMemory;
use geo_core::Mesh;
use geo_lock::Pass;
use geo_model::MeshList;
use std::alloc::Global;
use std::marker::Model;
use std::snapshot::Snapshot;
use std::sync::Arc;

/// The three slots of a view. Its word is twice the slot that waits, and one more while that is newer than what the
/// watcher has.
pub type Slots = Table<Option<Shown>, Known, Snapshot<Pass<Mesh>>, Keeping, Global>;

/// Shows the mesh, as it is printed, to the watcher with which it was made.
///
/// Contracts see which view it is, the pass with which it began, and what that pass had seen of which the list is
/// shown.
#[derive(Drop)]
pub struct Publisher {
    slots: Arc<Slots, Global>,
    seat: Seat<Option<Shown>, Known>,
    back: usize,
}

/// There was no memory to show a list, which comes back. [`Publisher::publish`] never answers it.
#[derive(Debug, Drop)]
pub struct PublishFault {
    pub list: MeshList,
}

impl Model for Publisher {
    ghost use Rattle.std.specs.Prelude.{◌≡◌};
    ghost use Rattle.std.specs.Arc.{arc_value};
    ghost use Rattle.geo_jobs.specs.Passes.{MeshPass};
    ghost use Rattle.geo_jobs.specs.Ends.{PublisherView, IsShowing};

    ghost Value = { PublisherView };

    ghost view = { λ p. record { view = p.seat.table_id; of = p.seat.me.0.of; stands = p.seat.me.0.seen } };

    ghost invariant = { λ p. (p.seat.table_id ≡ (arc_value p.slots).shared.table_id)
        × ((arc_value p.slots).shared.table_id.words ≡ 1) × ((arc_value p.slots).shared.table_id.slots ≡ 3)
        × ((o : MeshPass) × IsShowing o p.back p.seat.me) };
}

// The three slots, of which the first has the list.
fn lay(alloc: Global, pass: &Pass<Mesh>, list: MeshList) -> Result<Vec<Option<Shown>>, NoMemory>
    requires { list ≡ listing_seen pass.now }
    ensures { IfOk result (λ v. IsLaid pass.now v.items) }
{
    let mut slots = Vec::with_capacity(alloc, 3)?;
    slots.push(Some(shown_at(pass, list)))?;
    slots.push(None)?;
    slots.push(None)?;
    Ok(slots)
}

/// A view that shows the mesh as the pass has seen it, and its two ends.
pub fn view_create<R: AllocGlobal>(
    rt: &R,
    pass: &Pass<Mesh>,
    list: MeshList,
) -> Result<(Publisher, Watcher), NoMemory>
    requires { list ≡ listing_seen pass.now }
    ensures publisher { IfOk result (λ r. (r.0.of ≡ Some pass.now) × (r.0.stands ≡ pass.now.seen)) }
    ensures watcher { IfOk result (λ r. (r.1.view ≡ r.0.view) × (r.1.of ≡ Some pass.now)
        × IsPrefix pass.now.seen r.1.seen × (r.1.told ≡ [])) }
{
    let alloc = rt.alloc();
    let about = Snapshot::of(pass);
    let slots = lay(alloc, pass, list)?;
    let Ok((table, mut seat)) = Table::new(alloc, &[1], slots, &about) else {
        return Err(NoMemory);
    };
    let mut other = table.shared.split_seat::<Meeting>(&mut seat);
    table.shared.load::<TakeBack>(&mut seat, 0);
    let found = table.shared.swap::<Fetch>(&mut other, 0, 4);
    let slots = Arc::new(alloc, table)?;
    let shared = Arc::try_clone(&slots)?;
    let watcher = Watcher {
        slots: shared,
        seat: other,
        front: (found / 2) as usize,
        alloc,
    };
    Ok((
        Publisher {
            slots,
            seat,
            back: 1,
        },
        watcher,
    ))
}

impl Publisher {
    /// Shows a list, which is the mesh as the pass has seen it, by one swap. It neither waits nor takes memory, so it
    /// is never refused: `PublishFault` stands for a view that would.
    pub fn publish<R: AllocGlobal>(
        &mut self,
        rt: &R,
        pass: &Pass<Mesh>,
        list: MeshList,
    ) -> Result<(), PublishFault>
        requires pass { CanShow self.old pass.now }
        requires list { list ≡ listing_seen pass.now }
        ensures same { (self.new.view ≡ self.old.view) × (self.new.of ≡ self.old.of) }
        ensures stands { self.new.stands ≡ pass.now.seen }
        ensures sure { IsOk result }
    {
        let shared = &self.slots.shared;
        let shown = shown_at(pass, list);
        shared.exchange(&mut self.seat, self.back, Some(shown));
        let found = shared.swap::<Show>(&mut self.seat, 0, 2 * self.back as u64 + 1);
        self.back = (found / 2) as usize;
        Ok(())
    }

    /// Tells where the view stands.
    pub fn tell(&mut self) -> Told
        ensures told { (result.view ≡ self.old.view) × (result.stood ≡ self.old.stands) }
        ensures same { self.new ≡ self.old }
    {
        let note = self.slots.shared.split_seat::<Notes>(&mut self.seat);
        Told { note }
    }

    /// Learns what the watcher has seen, which begins what was shown last.
    pub fn learn(&mut self, told: Told)
        requires { told.view ≡ self.old.view }
        ensures same { self.new ≡ self.old }
        ensures begins { IsPrefix told.stood self.old.stands }
    {
        let note = told.into_note();
        let shared = &self.slots.shared;
        shared.join_seat::<Notes>(&mut self.seat, note);
        shared.load::<Agree>(&mut self.seat, 0);
    }

    /// Ends the publisher, without waiting. What it showed last stays to be looked at.
    pub fn end<R: AllocGlobal>(self, rt: &R) {
        let Self {
            slots: _slots,
            seat: _seat,
            back: _,
        } = self;
    }
}

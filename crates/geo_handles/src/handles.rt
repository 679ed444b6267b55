//! The table of handles.
ghost use Rattle.std.specs.Prelude.{◌≡◌, ◌≤◌, ◌+◌, None, length, IsOk, OnOk, IfOk, IsSome, option_map, option_copied};
ghost use Rattle.std.specs.Option.{option_and_then};
ghost use Rattle.geo_slots.specs.Slots.{with_value, without};
ghost use Rattle.geo_handles.specs.Handles.{no_handles, handle_seen, handle_at, named_handle, holding_handle, HoldsAlone, AreApart, with_opened, killed, released, closed, first_ready};

use crate::key::Key;
use crate::parts;
use crate::records::HandleRec;
use geo_base::{ConsId, Counts, HandleId, Name, NoMemory};
use geo_family::Family;
use geo_slots::Slots;
use std::alloc::Global;
use std::collections::HashMap;
use std::marker::Model;

/// What is kept of handles: each under its number, the number of each actor's name and of each consumer, which can
/// be reaped, and how many there are.
#[derive(Drop)]
pub struct Inside {
    pub names: HashMap<Key, u64>,
    pub consumers: HashMap<u64, u64>,
    pub table: Slots<HandleRec>,
    pub ready: Family,
    pub live: u64,
}

/// The handles of all actors, under numbers that count from 1 and aren't used again. No look-up walks over the
/// others.
///
/// Contracts see the model's list of handles, the next number, which are noted as those that can be reaped, and for
/// how many more memory is kept.
#[derive(Drop)]
pub struct Handles {
    inside: Inside,
}

impl Model for Handles {
    ghost use Rattle.geo_handles.specs.Handles.{HandlesView};

    ghost Value = { HandlesView };

    ghost use Rattle.geo_handles.specs.Inside.{handles_of, IsInside};

    ghost view = { λ h. handles_of h.inside };

    ghost invariant = { λ h. IsInside h.inside };
}

// The parent of the numbers that can be reaped.
const READY: u64 = 1;

impl Handles {
    /// No handle.
    pub fn new(alloc: Global) -> Result<Handles, NoMemory>
        ensures { IfOk result (λ h. h ≡ no_handles h.room) }
    {
        let mut ready = Family::new(alloc);
        ready.reserve(1, 0)?;
        ready.add_parent();
        Ok(Handles {
            inside: Inside {
                names: HashMap::new(alloc),
                consumers: HashMap::new(alloc),
                table: Slots::new(alloc),
                ready,
                live: 0,
            },
        })
    }

    /// Keeps room for so many more. Where memory is wanting all stays, and the room is no less than it was.
    pub fn reserve(&mut self, count: u64) -> Result<(), NoMemory>
        ensures same { self.new ≡ record self.old { room = self.new.room } }
        ensures room { OnOk result (count ≤ self.new.room) }
        ensures room_stays { self.old.room ≤ self.new.room }
        ensures had_room { count ≤ self.old.room → IsOk result }
    {
        self.inside.names.reserve(count as usize)?;
        self.inside.consumers.reserve(count as usize)?;
        self.inside.table.reserve(count)?;
        self.inside.ready.reserve(0, count)?;
        Ok(())
    }

    /// How many handles there are.
    pub fn len(&self) -> u64
        ensures { result ≡ length self.now.handles }
    {
        self.inside.live
    }

    /// The handle of a number. No two handles have one consumer.
    pub fn get(&self, id: HandleId) -> Option<&HandleRec>
        ensures found { handle_at self.now.handles id ≡ option_map (handle_seen id) (option_copied result) }
        ensures apart { AreApart self.now.handles }
    {
        self.inside.table.get(id.number())
    }

    /// The handle of the actor with the name.
    pub fn by_name(&self, actor: u32, name: &Name) -> Option<HandleId>
        ensures number { result ≡ option_map (λ h. h.number) (named_handle self.now.handles actor name.now) }
        ensures handle { option_and_then (handle_at self.now.handles) result
            ≡ named_handle self.now.handles actor name.now }
    {
        parts::number_named(&self.inside.names, actor, name)
    }

    /// The handle of a consumer. No other handle has the consumer.
    pub fn of_consumer(&self, consumer: ConsId) -> Option<HandleId>
        ensures number { result ≡ option_map (λ h. h.number) (holding_handle self.now.handles consumer) }
        ensures handle { option_and_then (handle_at self.now.handles) result
            ≡ holding_handle self.now.handles consumer }
        ensures alone { HoldsAlone self.now.handles consumer result }
    {
        parts::number_held(&self.inside.consumers, consumer)
    }

    /// A new handle, in room that was kept: the actor has no other of the name, and the consumer is nobody's.
    pub fn open(&mut self, actor: u32, name: &Name, consumer: ConsId, grant: Counts) -> HandleId
        requires room { 1 ≤ self.old.room }
        requires free { named_handle self.old.handles actor name.now ≡ None }
        requires nobodys { holding_handle self.old.handles consumer ≡ None }
        ensures number { result ≡ self.old.next }
        ensures opened { self.new
            ≡ record (with_opened self.old actor name.now consumer grant) { room = self.new.room } }
        ensures room { self.old.room ≤ self.new.room + 1 }
    {
        let number = self.inside.table.insert(HandleRec {
            actor,
            name: *name,
            consumer: Some(consumer),
            grant,
            dead: false,
        });
        let key = Key { actor, name: *name };
        let _ = self.inside.names.insert(key, number);
        let _ = self.inside.consumers.insert(consumer.number(), number);
        self.inside.ready.add_child();
        self.inside.live += 1;
        HandleId::new(number)
    }

    /// The handle of the consumer, if there is one, becomes dead. No two handles had one consumer.
    pub fn kill(&mut self, consumer: ConsId)
        ensures killed { self.new ≡ record self.old { handles = killed self.old.handles consumer } }
        ensures apart { AreApart self.old.handles }
    {
        if let Some(id) = parts::number_held(&self.inside.consumers, consumer) {
            parts::mark_dead(&mut self.inside.table, id.number());
        }
    }

    /// The handle of the consumer, if there is one, has none from then on.
    pub fn release(&mut self, consumer: ConsId)
        ensures released { self.new ≡ record self.old {
          handles = released self.old.handles consumer;
          room = self.new.room;
        } }
        ensures room { self.old.room ≤ self.new.room }
    {
        if let Some(id) = parts::number_held(&self.inside.consumers, consumer) {
            parts::drop_consumer(&mut self.inside.table, id.number());
            parts::forget_consumer(&mut self.inside.consumers, Some(consumer));
        }
    }

    /// Takes a handle away, if there is one. Its number isn't used again.
    pub fn remove(&mut self, id: HandleId)
        ensures removed { self.new ≡ record self.old {
          handles = closed self.old.handles id;
          ready = without self.old.ready id;
          room = self.new.room;
        } }
        ensures room { self.old.room ≤ self.new.room }
    {
        let number = id.number();
        self.inside.ready.remove_child(number);
        if let Some(handle) = self.inside.table.remove(number) {
            parts::forget_name(&mut self.inside.names, handle.actor, &handle.name);
            parts::forget_consumer(&mut self.inside.consumers, handle.consumer);
            self.inside.live -= 1;
        }
    }

    /// Notes whether a handle can be reaped.
    pub fn set_ready(&mut self, id: HandleId, ready: bool)
        requires { IsSome (handle_at self.old.handles id) }
        ensures { self.new ≡ record self.old { ready = with_value self.old.ready id ready } }
    {
        let number = id.number();
        self.inside.ready.unlink(number);
        if ready {
            self.inside.ready.link(number, READY);
        }
    }

    /// The smallest number that is noted as that of a handle that can be reaped.
    pub fn first_ready(&self) -> Option<HandleId>
        ensures { result ≡ first_ready self.now.ready }
    {
        self.inside.ready.first_from(READY, 0).map(HandleId::new)
    }
}

//! Events that wait to be done.
ghost use Rattle.std.specs.Prelude.{◌≡◌, ◌≢◌, ◌+◌, ◌-◌, ◌≤◌, [], ◌∷◌, ◌++◌, drop, length, slice_get, IsOk, OnOk};
ghost use Rattle.geo_model.specs.Events.{provider_of_event, without_events_of};

use geo_base::{NoMemory, ProvId};
use geo_model::Event;
use std::alloc::Global;
use std::collections::VecDeque;
use std::marker::Model;

/// The events that wait, first in, first out, and the room that is reserved for more. Contracts see the list of the
/// events, whose head is done first, and the spare number.
#[derive(Drop)]
pub struct EventQueue {
    waiting: VecDeque<Event>,
}

impl Model for EventQueue {
    ghost use Rattle.std.specs.Prelude.{◌-◌};
    ghost use Rattle.std.specs.VecDeque.{deque_len, deque_capacity};
    ghost use Rattle.geo_event.specs.EventQueue.{Queued};

    ghost Value = { Queued };

    ghost view = { λ q. record { events = q.waiting.items; spare = deque_capacity q.waiting - deque_len q.waiting } };
}

// The provider that an event names.
fn provider_of(event: Event) -> ProvId
    ensures { result ≡ provider_of_event event }
{
    match event {
        Event::NewProvider(prov) => prov,
        Event::Spoil(prov) => prov,
        Event::Orphan(prov) => prov,
        Event::Resize(prov) => prov,
    }
}

impl EventQueue {
    /// No event. It takes no memory yet.
    pub fn new(alloc: Global) -> EventQueue
        ensures { result.events ≡ [] }
    {
        EventQueue {
            waiting: VecDeque::new(alloc),
        }
    }

    /// Makes room for `count` events, so that as many posts take no memory. The events stay, and the room is no less
    /// than it was, also where memory is wanting.
    pub fn reserve(&mut self, count: u64) -> Result<(), NoMemory>
        ensures events_stay { self.new.events ≡ self.old.events }
        ensures room_stays { self.old.spare ≤ self.new.spare }
        ensures room { OnOk result (count ≤ self.new.spare) }
        ensures had_room { count ≤ self.old.spare → IsOk result }
    {
        self.waiting.reserve(count as usize)?;
        Ok(())
    }

    /// Puts an event at the end (g_post_event(9)), in the room that was reserved. It takes no memory.
    pub fn post(&mut self, event: Event)
        requires { 1 ≤ self.old.spare }
        ensures { self.new ≡ record { events = self.old.events ++ event ∷ []; spare = self.old.spare - 1 } }
    {
        self.waiting.push_back_reserved(event);
    }

    /// The event that is done next.
    pub fn head(&self) -> Option<Event>
        ensures { result ≡ slice_get self.now.events 0 }
    {
        self.waiting.front().copied()
    }

    /// Takes the head away.
    pub fn drop_head(&mut self)
        requires { self.old.events ≢ [] }
        ensures { self.new ≡ record { events = drop 1 self.old.events; spare = self.old.spare + 1 } }
    {
        let _ = self.waiting.pop_front();
    }

    /// Takes away the events that name a provider (g_cancel_event), in one pass. The others keep their order, and
    /// what is taken away leaves its room.
    pub fn cancel(&mut self, prov: ProvId)
        ensures events { self.new.events ≡ without_events_of self.old.events prov }
        ensures spare { self.new.spare + length self.new.events ≡ self.old.spare + length self.old.events }
    {
        self.waiting.retain(|event| provider_of(*event) != prov);
    }
}

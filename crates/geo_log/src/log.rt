//! The entries of the log, and the bytes that were delivered.
ghost use Rattle.std.specs.Prelude.{◌≡◌, ◌+◌, ◌-◌, ◌≤◌, [], ◌∷◌, ◌++◌, length, IsOk, OnOk, OnErr, option_copied};
ghost use Rattle.geo_log.specs.Places.{bytes_delivered};

use geo_base::{NoMemory, SharedBytes};
use geo_bio::LogBytes;
use geo_model::{DeviceResult, Entry, Step};
use std::alloc::Global;
use std::marker::Model;

/// The entries of all steps, in order. Contracts see the list, and for how many more there is room.
#[derive(Debug, Drop)]
pub struct Log {
    entries: Vec<Entry>,
}

impl Model for Log {
    ghost use Rattle.std.specs.Prelude.{vec_len, vec_capacity, ◌-◌};
    ghost use Rattle.geo_model.specs.declared.step.Entry.{Entry};
    ghost use Rattle.geo_log.specs.Room.{Room};

    ghost Value = { Room Entry };

    ghost view = { λ l. record { items = l.entries.items; spare = vec_capacity l.entries - vec_len l.entries } };
}

impl Log {
    /// No entry. It takes no memory yet.
    pub fn new(alloc: Global) -> Log
        ensures { result.items ≡ [] }
    {
        Log {
            entries: Vec::new(alloc),
        }
    }

    /// Makes room for `count` more entries. Where memory is wanting nothing changes.
    pub fn reserve(&mut self, count: u64) -> Result<(), NoMemory>
        ensures entries { self.new.items ≡ self.old.items }
        ensures room { OnOk result (count ≤ self.new.spare) }
        ensures room_stays { self.old.spare ≤ self.new.spare }
        ensures had_room { count ≤ self.old.spare → IsOk result }
        ensures same { OnErr result (self.new ≡ self.old) }
    {
        self.entries.reserve(count as usize)?;
        Ok(())
    }

    /// One more entry, in room that was made. Its bytes are moved, and it takes no memory.
    pub fn push(&mut self, entry: Entry)
        requires { 1 ≤ self.old.spare }
        ensures { self.new ≡ record { items = self.old.items ++ entry ∷ []; spare = self.old.spare - 1 } }
    {
        self.entries.push_reserved(entry);
    }

    /// How many entries there are, which is the place of the next one.
    pub fn len(&self) -> u64
        ensures { result ≡ length self.now.items }
    {
        self.entries.len() as u64
    }

    /// The entries.
    pub fn entries(&self) -> &[Entry]
        ensures { result.now ≡ self.now.items }
    {
        self.entries.as_slice()
    }
}

// The bytes that an entry delivered; None where it is no Deliver, or one without bytes.
fn delivered(entry: &Entry) -> Option<&SharedBytes>
    ensures { option_copied result ≡ bytes_delivered entry.now }
{
    match &entry.step {
        Step::Deliver { got, .. } => match got {
            DeviceResult::Bytes(bytes) => Some(bytes),
            _ => None,
        },
        _ => None,
    }
}

// The bytes of a place are those that its entry delivered.
impl LogBytes for Log {
    ghost use Rattle.geo_log.specs.Places.{delivered_at};

    ghost place_bytes = { λ log. delivered_at log.items };

    fn bytes_at(&self, place: u64) -> Option<&SharedBytes> {
        match self.entries.get(place as usize) {
            Some(entry) => delivered(entry),
            None => None,
        }
    }
}

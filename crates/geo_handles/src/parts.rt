//! Reads and changes of one part of what is kept of handles.
ghost use Rattle.std.specs.Prelude.{◌≡◌, ◌≤◌, ℕ, None, MatchOption, if◌then◌else◌};
ghost use Rattle.std.specs.HashMap.{spare};
ghost use Rattle.geo_model.specs.Words.{names_number};
ghost use Rattle.geo_slots.specs.Slots.{value_at, with_value};
ghost use Rattle.geo_handles.specs.Keys.{key_named, same_key, number_of_key, number_of_consumer};
ghost use Rattle.geo_handles.specs.Inside.{dead_one, reaped_one};

use crate::key::Key;
use crate::records::HandleRec;
use geo_base::{ConsId, HandleId, Name};
use geo_slots::Slots;
use std::collections::HashMap;

/// The number that an actor's name has.
pub fn number_named(names: &HashMap<Key, u64>, actor: u32, name: &Name) -> Option<HandleId>
    ensures { result ≡ number_of_key names.now (key_named actor name.now) }
{
    let key = Key { actor, name: *name };
    names.get(&key).copied().map(HandleId::new)
}

/// The number that a consumer has.
pub fn number_held(consumers: &HashMap<u64, u64>, consumer: ConsId) -> Option<HandleId>
    ensures { result ≡ number_of_consumer consumers.now consumer }
{
    consumers
        .get(&consumer.number())
        .copied()
        .map(HandleId::new)
}

/// The name of an actor is nobody's from then on.
pub fn forget_name(names: &mut HashMap<Key, u64>, actor: u32, name: &Name)
    ensures finds { (q : Key) → number_of_key names.new q
        ≡ (if same_key (key_named actor name.now) q then None else number_of_key names.old q) }
    ensures spare { spare names.old ≤ spare names.new }
{
    let key = Key { actor, name: *name };
    let _ = names.remove(&key);
}

/// The consumer, if there is one, is nobody's from then on.
pub fn forget_consumer(consumers: &mut HashMap<u64, u64>, consumer: Option<ConsId>)
    ensures finds { (c : ℕ) → number_of_consumer consumers.new c
        ≡ (if names_number consumer c then None else number_of_consumer consumers.old c) }
    ensures spare { spare consumers.old ≤ spare consumers.new }
{
    if let Some(consumer) = consumer {
        let _ = consumers.remove(&consumer.number());
    }
}

/// The handle of a number, if there is one, is dead.
pub fn mark_dead(table: &mut Slots<HandleRec>, number: u64)
    ensures { MatchOption (value_at table.old.rows number) (table.new ≡ table.old) (λ x.
        table.new ≡ record table.old { rows = with_value table.old.rows number (dead_one x) }) }
{
    if let Some(handle) = table.get_mut(number) {
        handle.dead = true;
    }
}

/// The handle of a number, if there is one, has no consumer.
pub fn drop_consumer(table: &mut Slots<HandleRec>, number: u64)
    ensures { MatchOption (value_at table.old.rows number) (table.new ≡ table.old) (λ x.
        table.new ≡ record table.old { rows = with_value table.old.rows number (reaped_one x) }) }
{
    if let Some(handle) = table.get_mut(number) {
        handle.consumer = None;
    }
}

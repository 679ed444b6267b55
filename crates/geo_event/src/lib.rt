//! The queue of events (g_event(9)): first in, first out.
//!
//! Contracts see an [`EventQueue`] as the list of its events, whose head is done first, and the room for more.
//! [`EventQueue::post`] puts one at the end, in room that was reserved, and takes no memory (g_post_event(9)).
//! [`EventQueue::head`] and [`EventQueue::drop_head`] are exact. [`EventQueue::cancel`] leaves exactly the events
//! that don't name the provider (`events`: g_cancel_event).
//!
//! geo_life and geo_taste post, geo_moves does what stands at the head, and geo_state keeps the room. Tests stand in
//! geo_tests_low. Read `src/queue.rt`.
#![tactic(auto)]

mod queue;

pub use geo_model::Event;
pub use queue::EventQueue;

//! What no clause says: that there is memory, and that a queue may be sent.
use crate::same::assert_same;
use geo_base::ProvId;
use geo_event::EventQueue;
use geo_model::Event;

#[test]
fn events_are_done_in_order_and_those_of_a_provider_cancelled(rt: HostRuntime) {
    let (disk, slice) = (ProvId::new(1), ProvId::new(2));
    let mut queue = EventQueue::new(rt.alloc());
    assert_same(&rt, queue.head(), None);
    queue.reserve(1).expect(&rt, "memory");
    queue.post(Event::NewProvider(disk));
    queue.reserve(1).expect(&rt, "memory");
    queue.post(Event::Spoil(slice));
    queue.reserve(1).expect(&rt, "memory");
    queue.post(Event::Orphan(disk));
    queue.reserve(1).expect(&rt, "memory");
    queue.post(Event::Resize(disk));
    queue.reserve(1).expect(&rt, "memory");
    queue.post(Event::Resize(slice));
    assert_same(&rt, queue.head(), Some(Event::NewProvider(disk)));
    queue.cancel(disk);
    assert_same(&rt, queue.head(), Some(Event::Spoil(slice)));
    queue.drop_head();
    assert_same(&rt, queue.head(), Some(Event::Resize(slice)));
}

// A queue goes to another thread.
fn goes_to_another_thread<T: Send>(_value: &T) {}

#[test]
fn a_queue_may_be_sent(rt: HostRuntime) {
    let queue = EventQueue::new(rt.alloc());
    goes_to_another_thread(&queue);
    assert_same(&rt, queue.head(), None);
}

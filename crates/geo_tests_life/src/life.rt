//! What no clause says: that there is memory, and the life of providers and geoms at a concrete type: marks and spoils,
//! an orphan under a handle, and a tower that is washed.
//!
//! Each mesh is dropped by a call. At the end of a scope the drop of each part of it would be written out, and proved
//! for a minute.
ghost use Rattle.std.specs.Prelude.{◌≡◌, ◌+◌, ◌≤◌, true, false, OnOk, IsSomeAnd};
ghost use Rattle.geo_model.specs.Topology.{geom_at};
ghost use Rattle.geo_life.specs.Life.{sound_providers, IsDevMade, AreHandlesUnmarked};

use geo_access::consumer_of;
use geo_base::{ConsId, GeomId, Kind, Name, ProvId};
use geo_event::EventQueue;
use geo_life::{
    mark_spoiled, next_dying, orphan, resize, spoil, wash, wash_where, wither,
    wither_unless_withering,
};
use geo_mesh::Topo;
use geo_model::{Event, WashWork};
use std::alloc::Global;
use std::test::Fail;

// A geom of the class, made by a taste or by hand.
fn add_geom(topo: &mut Topo<u8>, kind: Kind, text: &[u8], automatic: bool) -> Result<GeomId, Fail> {
    Ok(topo.new_geom(kind, name(text)?, 7, automatic)?)
}

// A provider of the geom, of a megabyte.
fn add_provider(topo: &mut Topo<u8>, geom: GeomId, text: &[u8]) -> Result<ProvId, Fail> {
    let name = name(text)?;
    let good = topo.geom(geom).is_some() && geom.number() > 2;
    if !good || topo.is_withering(geom) || topo.is_name_taken(&name) {
        return Err(Fail::from("no provider may be made"));
    }
    Ok(topo.new_provider(geom, name, 1_048_576, 512)?)
}

// A consumer of the geom, attached to the provider.
fn add_consumer(topo: &mut Topo<u8>, geom: GeomId, prov: ProvId) -> Result<ConsId, Fail> {
    if topo.geom(geom).is_none() {
        return Err(Fail::from("no geom"));
    }
    let cons = topo.new_consumer(geom)?;
    let free = match topo.consumer(cons) {
        Some(consumer) => consumer.prov.is_none(),
        None => false,
    };
    if !free || topo.provider(prov).is_none() {
        return Err(Fail::from("not to be attached"));
    }
    match topo.attach(cons, prov) {
        Ok(()) => Ok(cons),
        Err(_) => Err(Fail::from("refused")),
    }
}

// The name of these bytes.
fn name(bytes: &[u8]) -> Result<Name, Fail> {
    Ok(Name::new(bytes).ok().ok_or("not a name")?)
}

// A disk's provider, and over it a label that a taste made, which has a provider, a concat made by hand, and a handle.
#[derive(Clone, Copy)]
struct Tower {
    foot: ProvId,
    label: GeomId,
    concat: GeomId,
    consumers: [ConsId; 3],
}

// The tower in a mesh of the first two geoms.
fn build(topo: &mut Topo<u8>) -> Result<Tower, Fail> {
    let disk = add_geom(topo, Kind::Disk, b"md0", false)?;
    let foot = add_provider(topo, disk, b"md0")?;
    let label = add_geom(topo, Kind::Label, b"data", true)?;
    let concat = add_geom(topo, Kind::Concat, b"both", false)?;
    let first = add_consumer(topo, label, foot)?;
    let second = add_consumer(topo, concat, foot)?;
    let handle = add_consumer(topo, GeomId::new(1), foot)?;
    add_provider(topo, label, b"label/data")?;
    Ok(Tower {
        foot,
        label,
        concat,
        consumers: [first, second, handle],
    })
}

// Which of the consumers are marked.
fn marks(topo: &Topo<u8>, tower: &Tower) -> [bool; 3] {
    [
        is_marked(topo, tower.consumers[0]),
        is_marked(topo, tower.consumers[1]),
        is_marked(topo, tower.consumers[2]),
    ]
}

fn is_marked(topo: &Topo<u8>, cons: ConsId) -> bool {
    topo.consumer(cons).is_some_and(|consumer| consumer.spoiled)
}

// Makes room for the events of all providers, and one more.
fn make_room(topo: &Topo<u8>, queue: &mut EventQueue) -> Result<(), Fail>
    ensures { OnOk result (sound_providers topo.now.topology + 1 ≤ queue.new.spare) }
{
    let count = count_providers(topo);
    if count == u64::MAX {
        return Err(Fail::from("too many providers"));
    }
    queue.reserve(count + 1)?;
    Ok(())
}

// How many providers there are.
fn count_providers(topo: &Topo<u8>) -> u64
    ensures { sound_providers topo.now.topology ≤ result }
{
    let mut count: u64 = 0;
    let mut from = 0;
    while let Some(prov) = topo.next_provider(from) {
        count += 1;
        from = prov.number() + 1;
    }
    count
}

// Whether no taste made DEV.
fn is_dev_made(topo: &Topo<u8>) -> bool
    ensures { result ≡ true → IsDevMade topo.now.topology }
{
    match topo.geom(GeomId::new(1)) {
        Some(geom) => !geom.automatic,
        None => false,
    }
}

// Whether no consumer of a handle is marked.
fn are_handles_unmarked(topo: &Topo<u8>) -> bool
    ensures { result ≡ true → AreHandlesUnmarked topo.now.topology }
{
    let mut from = 0;
    while let Some((id, cons)) = consumer_of(topo, GeomId::new(1), from) {
        if cons.spoiled {
            return false;
        }
        from = id.number() + 1;
    }
    true
}

// The provider is written.
fn write_first(topo: &mut Topo<u8>, prov: ProvId) -> Result<(), Fail> {
    if !is_dev_made(topo) {
        return Err(Fail::from("no DEV"));
    }
    mark_spoiled(topo, prov);
    Ok(())
}

// The Spoil event of the provider.
fn spoil_next(topo: &mut Topo<u8>, queue: &mut EventQueue, prov: ProvId) -> Result<(), Fail> {
    make_room(topo, queue)?;
    if !are_handles_unmarked(topo) {
        return Err(Fail::from("a handle is marked"));
    }
    spoil(topo, queue, prov);
    Ok(())
}

// Which consumers of a tower are marked where the provider at its foot is written; then, after each of two spoils, and
// whether the label's geom and the concat wither.
fn two_spoils(topo: &mut Topo<u8>, queue: &mut EventQueue) -> Result<[[bool; 3]; 3], Fail> {
    let tower = build(topo)?;
    write_first(topo, tower.foot)?;
    let written = marks(topo, &tower);
    spoil_next(topo, queue, tower.foot)?;
    let once = marks(topo, &tower);
    spoil_next(topo, queue, tower.foot)?;
    let label = topo.is_withering(tower.label);
    let concat = topo.is_withering(tower.concat);
    Ok([
        written,
        once,
        [label, concat, is_marked(topo, tower.consumers[0])],
    ])
}

// The same, and the events that are posted.
fn spoiled(
    topo: &mut Topo<u8>,
    alloc: Global,
) -> Result<([[bool; 3]; 3], [Option<Event>; 2]), Fail> {
    let mut queue = EventQueue::new(alloc);
    let seen = two_spoils(topo, &mut queue)?;
    Ok((seen, first_events(&mut queue)))
}

// The same in a new mesh.
fn first_spoiled(alloc: Global) -> Result<([[bool; 3]; 3], [Option<Event>; 2]), Fail> {
    let mut topo = Topo::new(alloc, 1, 2)?;
    let answer = spoiled(&mut topo, alloc);
    drop(topo);
    answer
}

// The first two events of the queue.
fn first_events(queue: &mut EventQueue) -> [Option<Event>; 2] {
    let first = queue.head();
    if first.is_none() {
        return [None, None];
    }
    queue.drop_head();
    [first, queue.head()]
}

#[test]
fn a_write_spoils_what_a_taste_made_and_once(rt: HostRuntime) -> Result<(), Fail> {
    let (seen, events) = first_spoiled(rt.alloc())?;
    assert_eq!(rt;
        seen,
        [
            [true, false, false],
            [false, false, false],
            [true, false, false]
        ]
    );
    assert_eq!(rt; events, [Some(Event::Orphan(ProvId::new(2))), None]);
    Ok(())
}

// A provider is orphaned that has a handle: the consumer whose handle dies, the one behind it, and which geoms wither.
fn orphaned(topo: &mut Topo<u8>, alloc: Global) -> Result<([Option<ConsId>; 2], [bool; 3]), Fail> {
    let mut queue = EventQueue::new(alloc);
    let tower = build(topo)?;
    orphan_tower(topo, &mut queue, &tower)
}

// The same in a new mesh.
fn first_orphaned(alloc: Global) -> Result<([Option<ConsId>; 2], [bool; 3]), Fail> {
    let mut topo = Topo::new(alloc, 1, 2)?;
    let answer = orphaned(&mut topo, alloc);
    drop(topo);
    answer
}

fn orphan_tower(
    topo: &mut Topo<u8>,
    queue: &mut EventQueue,
    tower: &Tower,
) -> Result<([Option<ConsId>; 2], [bool; 3]), Fail> {
    make_room(topo, queue)?;
    orphan(topo, queue, tower.foot);
    let dying = [
        next_dying(topo, tower.foot, 0),
        next_dying(topo, tower.foot, 4),
    ];
    let label = topo.is_withering(tower.label);
    let concat = topo.is_withering(tower.concat);
    Ok((dying, [label, concat, topo.is_withering(GeomId::new(1))]))
}

#[test]
fn an_orphan_tells_of_handles_and_withers_the_rest(rt: HostRuntime) -> Result<(), Fail> {
    let (dying, withers) = first_orphaned(rt.alloc())?;
    assert_eq!(rt; dying, [Some(ConsId::new(3)), None]);
    assert_eq!(rt; withers, [true, true, false]);
    Ok(())
}

// What is washed next, if anything is.
fn wash_next(topo: &mut Topo<u8>, queue: &mut EventQueue) -> Option<WashWork> {
    let told = wash_where(topo);
    let work = wash_where(topo)?;
    let dev = stands(topo, GeomId::new(1));
    let taste = stands(topo, GeomId::new(2));
    if !dev {
        return None;
    }
    if !taste {
        return None;
    }
    wash(topo, queue, work);
    told
}

// Whether the geom stands and doesn't wither.
fn stands(topo: &Topo<u8>, geom: GeomId) -> bool
    ensures { result ≡ true → IsSomeAnd (geom_at topo.now.topology geom) (λ g. g.withering ≡ false) }
{
    match topo.geom(geom) {
        Some(found) => !found.withering,
        None => false,
    }
}

// The label withers.
fn wither_label(topo: &mut Topo<u8>, queue: &mut EventQueue, tower: &Tower) -> Result<(), Fail>
    requires { sound_providers topo.old.topology + 1 ≤ queue.old.spare }
{
    if topo.geom(tower.label).is_none() {
        return Err(Fail::from("no label"));
    }
    wither_unless_withering(topo, queue, tower.label);
    Ok(())
}

// A request goes out through the consumer, if none is out.
fn send_out(topo: &mut Topo<u8>, cons: ConsId) -> bool {
    let idle = match topo.consumer(cons) {
        Some(consumer) => consumer.active == 0,
        None => false,
    };
    if idle {
        topo.note_active(cons);
    }
    idle
}

// A request through the consumer is back, if one is out.
fn send_back(topo: &mut Topo<u8>, cons: ConsId) -> bool {
    let out = match topo.consumer(cons) {
        Some(consumer) => consumer.active > 0,
        None => false,
    };
    if out {
        topo.note_back(cons);
    }
    out
}

// The label of a tower withers, while a request is out through its consumer.
fn wither_busy(topo: &mut Topo<u8>, queue: &mut EventQueue, tower: &Tower) -> Result<(), Fail> {
    make_room(topo, queue)?;
    wither_label(topo, queue, tower)?;
    if send_out(topo, tower.consumers[0]) {
        Ok(())
    } else {
        Err(Fail::from("a request is out"))
    }
}

// What is washed while the request is out, and, where it is back, after it.
fn wash_busy(topo: &mut Topo<u8>, queue: &mut EventQueue, cons: ConsId) -> [Option<WashWork>; 3] {
    let first = wash_next(topo, queue);
    let blocked = wash_next(topo, queue);
    send_back(topo, cons);
    [first, blocked, wash_next(topo, queue)]
}

// The label of a tower is washed, first while a request is out through its consumer, and then when it is back.
fn washed(
    topo: &mut Topo<u8>,
    queue: &mut EventQueue,
) -> Result<([Option<WashWork>; 3], [Option<WashWork>; 2]), Fail> {
    let tower = build(topo)?;
    wither_busy(topo, queue, &tower)?;
    let busy = wash_busy(topo, queue, tower.consumers[0]);
    let third = wash_next(topo, queue);
    Ok((busy, [third, wash_next(topo, queue)]))
}

fn washed_with(
    topo: &mut Topo<u8>,
    alloc: Global,
) -> Result<([Option<WashWork>; 3], [Option<WashWork>; 2]), Fail> {
    let mut queue = EventQueue::new(alloc);
    washed(topo, &mut queue)
}

// The same in a new mesh.
fn first_washed(alloc: Global) -> Result<([Option<WashWork>; 3], [Option<WashWork>; 2]), Fail> {
    let mut topo = Topo::new(alloc, 1, 2)?;
    let answer = washed_with(&mut topo, alloc);
    drop(topo);
    answer
}

#[test]
fn a_label_is_washed_in_order_once_no_request_is_out(rt: HostRuntime) -> Result<(), Fail> {
    let (busy, then) = first_washed(rt.alloc())?;
    assert_eq!(rt;
        busy,
        [
            Some(WashWork::Provider(ProvId::new(2))),
            None,
            Some(WashWork::Consumer(ConsId::new(1)))
        ]
    );
    assert_eq!(rt; then, [Some(WashWork::Geom(GeomId::new(4))), None]);
    Ok(())
}

// The foot of a tower was resized.
fn resize_tower(topo: &mut Topo<u8>, queue: &mut EventQueue, tower: &Tower) -> Result<(), Fail> {
    make_room(topo, queue)?;
    if !is_dev_made(topo) {
        return Err(Fail::from("no DEV"));
    }
    resize(topo, queue, tower.foot);
    Ok(())
}

// The concat withers by hand.
fn wither_concat(topo: &mut Topo<u8>, queue: &mut EventQueue, tower: &Tower) -> Result<(), Fail> {
    make_room(topo, queue)?;
    if topo.geom(tower.concat).is_none() {
        return Err(Fail::from("no concat"));
    }
    wither(topo, queue, tower.concat);
    Ok(())
}

// Which geoms of a tower wither: the label and the concat.
fn withers(topo: &Topo<u8>, tower: &Tower) -> [bool; 2] {
    [
        topo.is_withering(tower.label),
        topo.is_withering(tower.concat),
    ]
}

// Which geoms wither after a Resize of the foot, and once the concat withers by hand; whether the label's consumer is
// marked, as it is by a spoil alone; and the first events.
type Resized = ([[bool; 2]; 2], bool, [Option<Event>; 2]);

fn resized(topo: &mut Topo<u8>, alloc: Global) -> Result<Resized, Fail> {
    let mut queue = EventQueue::new(alloc);
    let tower = build(topo)?;
    resize_tower(topo, &mut queue, &tower)?;
    let outgrown = withers(topo, &tower);
    wither_concat(topo, &mut queue, &tower)?;
    let all = withers(topo, &tower);
    let marked = is_marked(topo, tower.consumers[0]);
    Ok(([outgrown, all], marked, first_events(&mut queue)))
}

// The same in a new mesh.
fn first_resized(alloc: Global) -> Result<Resized, Fail> {
    let mut topo = Topo::new(alloc, 1, 2)?;
    let answer = resized(&mut topo, alloc);
    drop(topo);
    answer
}

#[test]
fn a_resize_withers_what_a_taste_made_and_offers_again(rt: HostRuntime) -> Result<(), Fail> {
    let (withering, marked, events) = first_resized(rt.alloc())?;
    assert_eq!(rt; withering, [[true, false], [true, true]]);
    assert!(rt; !marked);
    assert_eq!(rt;
        events,
        [
            Some(Event::Orphan(ProvId::new(2))),
            Some(Event::NewProvider(ProvId::new(1)))
        ]
    );
    Ok(())
}

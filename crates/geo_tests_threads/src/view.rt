//! A view of a mesh that a script changes: alone, and with a publisher and a watcher in threads of their own.
ghost use Rattle.std.specs.Prelude.{◌≡◌, [], IfSome};
ghost use Rattle.geo_lock.specs.Yard.{IsPassOf, first_pass};
ghost use Rattle.geo_model.specs.Listing.{listing};
ghost use Rattle.geo_jobs.specs.Mesh.{IsHistory, world_of};
ghost use Rattle.geo_jobs.specs.Ends.{CanShow};
ghost use Rattle.geo_jobs.specs.Listings.{listing_seen};

use crate::mesh::mesh_of;
use crate::same::assert_same;
use geo_core::Mesh;
use geo_jobs::{Publisher, Tried, Watcher, try_step, view_create};
use geo_lock::{Pass, Yard};
use geo_model::{MeshList, Outcome, Reply, Step};
use geo_script::parse;
use std::alloc::Global;
use std::sync::Wait;
use std::test::Fail;
use std::thread::{Threads, join};

// Each mesh that is shown has one reader of the disk more than the one before.
const SCRIPT: &[u8] = b"ram md0 512 16
actor alice
alice open a md0 r1w0e0
alice mesh
alice open b md0 r1w0e0
alice mesh
alice open c md0 r1w0e0
alice mesh
alice open d md0 r1w0e0
alice mesh
";

// How many commands the actor has.
const COMMANDS: u32 = 8;

// How often each mesh is shown.
const TIMES: u32 = 2_500;

// How often the watcher looks.
const LOOKS: u32 = 20_000;

// The readers of the first provider, and 99 where there is none.
fn readers(list: &MeshList) -> u32 {
    match list.items() {
        [geom, ..] => {
            match geom.providers.items() {
                [provider, ..] => provider.counts.r,
                [] => 99,
            }
        }
        [] => 99,
    }
}

// What shows a mesh: its pass and its publisher.
#[derive(Drop)]
struct Showing {
    pass: Pass<Mesh>,
    publisher: Publisher,
}

// Shows a list some times. Counts the publishes; one is left out where memory is wanting.
fn show<R: AllocGlobal>(rt: &R, showing: &mut Showing, list: &MeshList, times: u32) -> u32
    requires pass { CanShow showing.old.publisher showing.old.pass }
    requires list { list.now ≡ listing_seen showing.old.pass }
    ensures pass { showing.new.pass ≡ showing.old.pass }
    ensures view { showing.new.publisher.view ≡ showing.old.publisher.view }
    ensures shows { CanShow showing.new.publisher showing.new.pass }
{
    let mut count = 0u32;
    for _ in 0..times {
        if let Ok(copy) = list.copy(rt.alloc()) {
            let _ = showing.publisher.publish(rt, &showing.pass, copy);
            count = count.wrapping_add(1);
        }
    }
    count
}

// The actor's next command. A mesh that it was replied is shown some times. Counts the publishes.
fn go<R: Wait + AllocGlobal>(rt: &R, yard: &Yard<Mesh>, showing: &mut Showing, times: u32) -> u32
    requires own { IsPassOf yard.now showing.old.pass }
    requires shows { CanShow showing.old.publisher showing.old.pass }
    ensures own { IsPassOf yard.now showing.new.pass }
    ensures view { showing.new.publisher.view ≡ showing.old.publisher.view }
    ensures shows { CanShow showing.new.publisher showing.new.pass }
{
    match try_step(rt, yard, &mut showing.pass, Step::Go { actor: 0 }) {
        Tried::Made(
            Outcome::Replied {
                reply: Reply::Listing(list),
                ..
            },
        ) => show(rt, showing, &list, times),
        _ => 0,
    }
}

// All commands of the actor. Counts the publishes.
fn go_all<R: Wait + AllocGlobal>(rt: &R, yard: &Yard<Mesh>, mut showing: Showing) -> (Showing, u32)
    requires own { IsPassOf yard.now showing.pass }
    requires shows { CanShow showing.publisher showing.pass }
    ensures view { result.0.publisher.view ≡ showing.publisher.view }
{
    let mut count = 0u32;
    for _ in 0..COMMANDS {
        count = count.wrapping_add(go(rt, yard, &mut showing, TIMES));
    }
    (showing, count)
}

// Looks many times. Counts the looks that went back.
fn look_all(mut watcher: Watcher) -> (Watcher, u32)
    ensures { result.0.view ≡ watcher.view }
{
    let mut last = 0u32;
    let mut back = 0u32;
    for _ in 0..LOOKS {
        if let Ok(list) = watcher.look() {
            let now = readers(&list);
            if now < last {
                back = back.wrapping_add(1);
            }
            last = now;
        }
    }
    (watcher, back)
}

// What both saw: how many publishes there were, how many looks went back, and the readers that are seen at the end, 99
// where memory is wanting.
#[derive(Clone, Copy, Debug, PartialEq, Eq)]
struct Seen {
    publishes: u32,
    back: u32,
    last: u32,
}

// The readers that the watcher sees now, 99 where memory is wanting.
fn readers_seen(watcher: &mut Watcher) -> u32
    ensures { watcher.new.view ≡ watcher.old.view }
{
    match watcher.look() {
        Ok(list) => readers(&list),
        Err(_) => 99,
    }
}

// The watcher learns where the view stands, and looks once more.
fn last_look(watcher: &mut Watcher, publisher: &mut Publisher) -> u32
    requires { publisher.old.view ≡ watcher.old.view }
{
    watcher.learn(publisher.tell());
    readers_seen(watcher)
}

// Publishes and looks, each in a thread of its own.
fn race<R: Threads + Wait + Sync + AllocGlobal>(
    rt: &R,
    yard: &Yard<Mesh>,
    showing: Showing,
    watcher: Watcher,
) -> Seen
    requires own { IsPassOf yard.now showing.pass }
    requires shows { CanShow showing.publisher showing.pass }
    requires view { showing.publisher.view ≡ watcher.view }
{
    let (looked, showed) = join(
        rt,
        || -> (Watcher, u32)
            ensures { result.0.view ≡ watcher.view }
        { look_all(watcher) },
        || -> (Showing, u32)
            requires { IsPassOf yard.now showing.pass × CanShow showing.publisher showing.pass }
            ensures { result.0.publisher.view ≡ showing.publisher.view }
        { go_all(rt, yard, showing) },
    );
    let (mut showing, publishes) = showed;
    let (mut watcher, back) = looked;
    let last = last_look(&mut watcher, &mut showing.publisher);
    Seen {
        publishes,
        back,
        last,
    }
}

// The mesh is shown twice, and the watcher is told of the first. What it sees then, in two looks.
fn show_twice<R: Wait + AllocGlobal>(
    rt: &R,
    yard: &Yard<Mesh>,
    showing: &mut Showing,
    watcher: &mut Watcher,
) -> (u32, u32)
    requires own { IsPassOf yard.now showing.old.pass }
    requires shows { CanShow showing.old.publisher showing.old.pass }
    requires view { showing.old.publisher.view ≡ watcher.old.view }
{
    go(rt, yard, showing, 1);
    go(rt, yard, showing, 1);
    let told = showing.publisher.tell();
    go(rt, yard, showing, 1);
    go(rt, yard, showing, 1);
    watcher.learn(told);
    let first = readers_seen(watcher);
    let second = readers_seen(watcher);
    (first, second)
}

// A yard with a mesh that made no step, its first pass, and the mesh as it is printed.
#[derive(Drop)]
struct Begun {
    yard: Yard<Mesh>,
    pass: Pass<Mesh>,
    list: MeshList,
}

// The yard of a mesh, if there is memory.
fn begun_with<R: AllocGlobal>(rt: &R, mesh: Mesh, list: MeshList) -> Option<Begun>
    requires log { mesh.log ≡ [] }
    requires history { IsHistory mesh }
    requires list { list ≡ listing (world_of mesh) }
    ensures pass { IfSome result (λ b. b.pass ≡ first_pass b.yard) }
    ensures list { IfSome result (λ b. b.list ≡ listing_seen b.pass) }
{
    match Yard::create(rt, mesh) {
        Ok((yard, pass)) => Some(Begun { yard, pass, list }),
        Err(fault) => {
            drop(fault);
            drop(list);
            None
        }
    }
}

// A yard with the mesh of the script, and the two ends of a view of it.
#[derive(Drop)]
struct Setup {
    yard: Yard<Mesh>,
    showing: Showing,
    watcher: Watcher,
}

// A view of what the pass has seen, if there is memory.
#[tactic(auto, using(crate::proofs::Starts::first_is_of, geo_jobs::proofs::Shows::shows_first))]
fn view_of<R: AllocGlobal>(rt: &R, begun: Begun) -> Option<Setup>
    requires pass { begun.pass ≡ first_pass begun.yard }
    requires list { begun.list ≡ listing_seen begun.pass }
    ensures own { IfSome result (λ m. IsPassOf m.yard m.showing.pass) }
    ensures shows { IfSome result (λ m. CanShow m.showing.publisher m.showing.pass) }
    ensures view { IfSome result (λ m. m.showing.publisher.view ≡ m.watcher.view) }
{
    let Begun { yard, pass, list } = begun;
    match view_create(rt, &pass, list) {
        Ok((publisher, watcher)) => Some(Setup {
            yard,
            showing: Showing { pass, publisher },
            watcher,
        }),
        Err(_) => {
            drop(pass);
            drop(yard);
            None
        }
    }
}

// A view of a mesh that made no step, if there is memory.
fn setup_of<R: AllocGlobal>(rt: &R, mesh: Mesh) -> Option<Setup>
    requires log { mesh.log ≡ [] }
    requires history { IsHistory mesh }
    ensures own { IfSome result (λ m. IsPassOf m.yard m.showing.pass) }
    ensures shows { IfSome result (λ m. CanShow m.showing.publisher m.showing.pass) }
    ensures view { IfSome result (λ m. m.showing.publisher.view ≡ m.watcher.view) }
{
    match mesh.listing(rt.alloc()) {
        Ok(list) => {
            match begun_with(rt, mesh, list) {
                Some(begun) => view_of(rt, begun),
                None => None,
            }
        }
        Err(_) => {
            drop(mesh);
            None
        }
    }
}

// The mesh of the script, if there is memory.
fn script_mesh(alloc: Global) -> Option<Mesh>
    ensures log { IfSome result (λ mesh. mesh.log ≡ []) }
    ensures history { IfSome result IsHistory }
{
    match parse(alloc, SCRIPT) {
        Ok(plan) => mesh_of(alloc, plan),
        Err(_) => None,
    }
}

// A view of the mesh of the script, if there is memory.
fn script_setup<R: AllocGlobal>(rt: &R) -> Option<Setup>
    ensures own { IfSome result (λ m. IsPassOf m.yard m.showing.pass) }
    ensures shows { IfSome result (λ m. CanShow m.showing.publisher m.showing.pass) }
    ensures view { IfSome result (λ m. m.showing.publisher.view ≡ m.watcher.view) }
{
    let alloc: Global = rt.alloc();
    match script_mesh(alloc) {
        Some(mesh) => setup_of(rt, mesh),
        None => None,
    }
}

// Publishes and looks in two threads. None for want of memory.
fn seen_in_two<R: Threads + Wait + Sync + AllocGlobal>(rt: &R) -> Option<Seen> {
    let Setup {
        yard,
        showing,
        watcher,
    } = script_setup(rt)?;
    Some(race(rt, &yard, showing, watcher))
}

// Two publishes, and two looks after a note of the first. None for want of memory.
fn seen_alone<R: Wait + AllocGlobal>(rt: &R) -> Option<(u32, u32)> {
    let Setup {
        yard,
        mut showing,
        mut watcher,
    } = script_setup(rt)?;
    Some(show_twice(rt, &yard, &mut showing, &mut watcher))
}

// What the watcher sees of two commands once their publisher has ended.
fn see_after_end<R: Wait + AllocGlobal>(
    rt: &R,
    yard: &Yard<Mesh>,
    mut showing: Showing,
    watcher: &mut Watcher,
) -> u32
    requires own { IsPassOf yard.now showing.pass }
    requires shows { CanShow showing.publisher showing.pass }
{
    go(rt, yard, &mut showing, 1);
    go(rt, yard, &mut showing, 1);
    let Showing { pass, publisher } = showing;
    drop(pass);
    publisher.end(rt);
    readers_seen(watcher)
}

// The same of the script. None for want of memory.
fn seen_after_end<R: Wait + AllocGlobal>(rt: &R) -> Option<u32> {
    let Setup {
        yard,
        showing,
        mut watcher,
    } = script_setup(rt)?;
    Some(see_after_end(rt, &yard, showing, &mut watcher))
}

#[test]
fn looks_never_go_back_beside_ten_thousand_publishes(rt: HostRuntime) -> Result<(), Fail> {
    let seen = seen_in_two(&rt);
    let wanted = Seen {
        publishes: 10_000,
        back: 0,
        last: 4,
    };
    assert_same(&rt, seen, Some(wanted));
    Ok(())
}

#[test]
fn a_watcher_told_of_the_first_sees_it_or_the_second(rt: HostRuntime) -> Result<(), Fail> {
    let Some((first, second)) = seen_alone(&rt) else {
        panic!(rt; "memory")
    };
    assert!(rt; first == 1 || first == 2);
    assert!(rt; first <= second && second <= 2);
    Ok(())
}

#[test]
fn what_was_shown_last_stays_where_the_publisher_ended(rt: HostRuntime) -> Result<(), Fail> {
    assert_same(&rt, seen_after_end(&rt), Some(1));
    Ok(())
}

//! The ranks that stand in the cells of the geoms, and how they are mended after the graph changed (geom(4)).
ghost use Rattle.std.specs.Prelude.{◌≡◌, ℕ, ◌≤◌, ◌<◌, ◌+◌, IsSome, IfErr, OnOk, OnErr, length, map, false, true};
ghost use Rattle.geo_model.specs.Words.{largest, is_granted_kind};
ghost use Rattle.geo_slots.specs.Slots.{IsRising, value_at};
ghost use Rattle.geo_mesh.specs.Rows.{passes};
ghost use Rattle.geo_mesh.specs.Mending.{AreEnough, AreLocal, IsLow, Lifted, Lowered, IsJoinable};
ghost use Rattle.geo_mesh.specs.Ranks.{IsKin, kinds, bare, offers, ranked_links, links, stored, ranked_below, below, owner, user, is_dev_or_taste, is_offered, is_attached, is_above, belongs, is_high, rank_under, rank_from, FirstIs, EachUser, highest_raise, IsRefusedFor, IsWalkable, IsAdmitted};

use crate::records::{AttachRefusal, GeomCell};
use crate::tables::{Edges, cell_mut};
use geo_base::{Kind, MAX_RANK};
use geo_slots::Slots;

// The greatest rank of a geom other than DEV and TASTE, in the type of the cells.
const RANK_LIMIT: u64 = MAX_RANK as u64;

// No rank that stands in a cell is greater, since there are fewer geoms.
const RANK_MOST: u64 = 4294967295;

// Whether the class is DEV or TASTE.
fn is_granted(kind: Kind) -> bool
    ensures { result ≡ is_granted_kind kind }
{
    matches!(kind, Kind::Dev | Kind::Taste)
}

// The first provider of a geom from a number on.
fn offered(edges: &Edges, geom: u64, from: u64) -> Option<u64>
    requires { IsKin edges.now }
    ensures { FirstIs (is_offered geom) (offers edges.now) from result }
{
    edges.index.offered.first_from(geom, from)
}

/// Whether the geom is DEV or TASTE, the first two: they have no provider, so no geom stands on their ranks, which
/// are found where they are asked for and don't stand in their cells.
pub fn is_dev_or_taste(geom: u64) -> bool
    ensures { result ≡ is_dev_or_taste geom }
{
    geom == 1 || geom == 2
}

// The first consumer of a geom other than the first two that is attached to a provider, from a number on. DEV's aren't
// met, however many handles are open; TASTE's only while a taste is under way.
fn ranked_consumer(edges: &Edges, prov: u64, from: u64) -> Option<u64>
    requires { IsKin edges.now }
    ensures { FirstIs (is_attached prov) (ranked_links edges.now) from result }
{
    let mut at = from;
    while let Some(cons) = consumer_above(edges, prov, at) {
        if !is_dev_or_taste(user(edges, cons)) {
            return Some(cons);
        }
        at = cons + 1;
    }
    None
}

// The first consumer of a geom other than DEV that is attached to a provider, from a number on.
fn consumer_above(edges: &Edges, prov: u64, from: u64) -> Option<u64>
    requires { IsKin edges.now }
    ensures { FirstIs (is_above prov) (links edges.now) from result }
{
    edges.index.above.first_from(prov, from)
}

// The first consumer of a geom from a number on.
fn belonging(edges: &Edges, geom: u64, from: u64) -> Option<u64>
    requires { IsKin edges.now }
    ensures { FirstIs (belongs geom) (links edges.now) from result }
{
    edges.index.owned.first_from(geom, from)
}

/// The geom of a consumer, and 0 where there is none.
pub fn user(edges: &Edges, cons: u64) -> u64
    ensures { result ≡ user edges.now cons }
{
    edges
        .consumers
        .get(cons)
        .map_or(0, |cell| cell.consumer.geom.number())
}

/// The geom that offers a provider, and 0 where there is none.
pub fn owner(edges: &Edges, prov: u64) -> u64
    ensures { result ≡ owner edges.now prov }
{
    edges
        .providers
        .get(prov)
        .map_or(0, |cell| cell.provider.geom.number())
}

/// The rank that stands in the cell of a geom, and 1 where there is no geom.
pub fn stored<C>(geoms: &Slots<GeomCell<C>>, geom: u64) -> u64
    ensures { result ≡ stored geoms.now geom }
{
    geoms.get(geom).map_or(1, |cell| cell.rank)
}

// Gives the geom this rank.
fn store<C>(geoms: &mut Slots<GeomCell<C>>, geom: u64, rank: u64)
    requires lives { IsSome (value_at (kinds geoms.old) geom) }
    ensures same { bare geoms.new ≡ bare geoms.old }
    ensures here { stored geoms.new geom ≡ rank }
    ensures others { (x : ℕ) → (x ≡ geom → ⊥) → stored geoms.new x ≡ stored geoms.old x }
    ensures rising { IsRising 1 geoms.old.rows geoms.old.next }
{
    cell_mut(geoms, geom).rank = rank;
}

// Gives the geom a greater rank. Whether a geom other than DEV and TASTE is above the limit; before it was so or not.
fn lift<C>(geoms: &mut Slots<GeomCell<C>>, geom: u64, rank: u64, high: bool) -> bool
    requires lives { IsSome (value_at (kinds geoms.old) geom) }
    requires more { stored geoms.old geom < rank }
    requires high { high ≡ is_high (kinds geoms.old) (stored geoms.old) }
    ensures same { bare geoms.new ≡ bare geoms.old }
    ensures here { stored geoms.new geom ≡ rank }
    ensures others { (x : ℕ) → (x ≡ geom → ⊥) → stored geoms.new x ≡ stored geoms.old x }
    ensures high { result ≡ is_high (kinds geoms.old) (stored geoms.new) }
{
    store(geoms, geom, rank);
    high || (RANK_LIMIT < rank && !is_granted_at(geoms, geom))
}

// Whether the geom is there and of class DEV or TASTE.
fn is_granted_at<C>(geoms: &Slots<GeomCell<C>>, geom: u64) -> bool
    ensures { result ≡ passes is_granted_kind (value_at (kinds geoms.now) geom) }
{
    geoms
        .get(geom)
        .is_some_and(|cell| is_granted(cell.geom.kind))
}

/// Gives the geom at least this rank, and those above it as great ranks as they then have to have. Whether a geom other
/// than DEV and TASTE is above the limit, where it is told whether one was before.
#[cycle(raise)]
pub fn raise<C>(
    geoms: &mut Slots<GeomCell<C>>,
    edges: &Edges,
    geom: u64,
    least: u64,
    high: bool,
) -> bool
    requires walkable { IsWalkable (kinds geoms.old) edges.now }
    requires lives { IsSome (value_at (kinds geoms.old) geom) }
    requires fits { least ≤ highest_raise geoms.old edges.now geom }
    requires high { high ≡ is_high (kinds geoms.old) (stored geoms.old) }
    ensures same { bare geoms.new ≡ bare geoms.old }
    ensures lifted { Lifted (ranked_below edges.now) geom least (stored geoms.old) (stored geoms.new) }
    ensures raised { least ≤ stored geoms.new geom }
    ensures high { result ≡ is_high (kinds geoms.old) (stored geoms.new) }
{
    if least <= stored(geoms, geom) {
        return high;
    }
    let mut high = lift(geoms, geom, least, high);
    let mut at = 0;
    while let Some(prov) = offered(edges, geom, at) {
        high = raise_attached(geoms, edges, prov, least + 1, high);
        at = prov + 1;
    }
    high
}

// Raises the geoms of the consumers that are attached to a provider.
#[cycle(raise)]
fn raise_attached<C>(
    geoms: &mut Slots<GeomCell<C>>,
    edges: &Edges,
    prov: u64,
    least: u64,
    high: bool,
) -> bool
    requires walkable { IsWalkable (kinds geoms.old) edges.now }
    requires lives { IsSome (value_at (offers edges.now).rows prov) }
    requires low { least ≤ stored geoms.old (owner edges.now prov) + 1 }
    requires fits { least ≤ 1 + highest_raise geoms.old edges.now (owner edges.now prov) }
    requires high { high ≡ is_high (kinds geoms.old) (stored geoms.old) }
    ensures same { bare geoms.new ≡ bare geoms.old }
    ensures lifted { Lifted (ranked_below edges.now) (owner edges.now prov) 0 (stored geoms.old) (stored geoms.new) }
    ensures raised { EachUser edges.now prov (λ x. least ≤ stored geoms.new x) }
    ensures high { result ≡ is_high (kinds geoms.old) (stored geoms.new) }
{
    let mut high = high;
    let mut at = 0;
    while let Some(cons) = ranked_consumer(edges, prov, at) {
        high = raise(geoms, edges, user(edges, cons), least, high);
        at = cons + 1;
    }
    high
}

// The highest rank directly below a geom, which is at most `most`: where it is met, the walk ends.
fn highest_below<C>(geoms: &Slots<GeomCell<C>>, edges: &Edges, geom: u64, most: u64) -> u64
    requires kin { IsKin edges.now }
    requires most { largest (map (stored geoms.now) (below edges.now geom)) ≤ most }
    ensures { result ≡ largest (map (stored geoms.now) (below edges.now geom)) }
{
    let mut highest: u64 = 0;
    let mut at = 0;
    while let Some(cons) = belonging(edges, geom, at) {
        highest = highest.max(rank_below(geoms, edges, cons));
        if highest == most {
            return most;
        }
        at = cons + 1;
    }
    highest
}

// The rank of the geom to whose provider a consumer is attached, and 0 where it is attached to nothing.
fn rank_below<C>(geoms: &Slots<GeomCell<C>>, edges: &Edges, cons: u64) -> u64
    ensures { result ≡ rank_under (stored geoms.now) (offers edges.now).rows (value_at (links edges.now).rows cons) }
{
    let Some(consumer) = edges.consumers.get(cons) else {
        return 0;
    };
    let Some(prov) = consumer.consumer.prov else {
        return 0;
    };
    match edges.providers.get(prov.number()) {
        Some(provider) => stored(geoms, provider.provider.geom.number()),
        None => 0,
    }
}

/// The rank of a geom (geom(4)). That of DEV and of TASTE is found from the ranks of the geoms below.
pub fn rank_from<C>(geoms: &Slots<GeomCell<C>>, edges: &Edges, geom: u64) -> u64
    requires kin { IsKin edges.now }
    requires few { (x : ℕ) → stored geoms.now x ≤ 4294967295 }
    ensures { result ≡ rank_from (stored geoms.now) edges.now geom }
{
    if is_dev_or_taste(geom) {
        1 + highest_below(geoms, edges, geom, RANK_MOST)
    } else {
        stored(geoms, geom)
    }
}

/// Gives the geom the rank that it has to have, where that is lower, and then those above it too.
#[cycle(lower)]
pub fn lower<C>(geoms: &mut Slots<GeomCell<C>>, edges: &Edges, geom: u64)
    requires walkable { IsWalkable (kinds geoms.old) edges.now }
    requires lives { IsSome (value_at (kinds geoms.old) geom) }
    requires later { is_dev_or_taste geom ≡ false }
    requires enough { AreEnough (ranked_below edges.now) (stored geoms.old) }
    ensures same { bare geoms.new ≡ bare geoms.old }
    ensures lowered { Lowered (ranked_below edges.now) (stored geoms.old) (stored geoms.new) }
    ensures low { IsLow (ranked_below edges.now) (stored geoms.new) geom }
{
    let rank = stored(geoms, geom);
    let new = 1 + highest_below(geoms, edges, geom, rank - 1);
    if rank <= new {
        return;
    }
    store(geoms, geom, new);
    let mut at = 0;
    while let Some(prov) = offered(edges, geom, at) {
        lower_attached(geoms, edges, prov);
        at = prov + 1;
    }
}

// Lowers the geoms of the consumers that are attached to a provider.
#[cycle(lower)]
fn lower_attached<C>(geoms: &mut Slots<GeomCell<C>>, edges: &Edges, prov: u64)
    requires walkable { IsWalkable (kinds geoms.old) edges.now }
    requires lives { IsSome (value_at (offers edges.now).rows prov) }
    requires enough { AreEnough (ranked_below edges.now) (stored geoms.old) }
    ensures same { bare geoms.new ≡ bare geoms.old }
    ensures lowered { Lowered (ranked_below edges.now) (stored geoms.old) (stored geoms.new) }
    ensures low { EachUser edges.now prov (IsLow (ranked_below edges.now) (stored geoms.new)) }
{
    let mut at = 0;
    while let Some(cons) = ranked_consumer(edges, prov, at) {
        lower(geoms, edges, user(edges, cons));
        at = cons + 1;
    }
}

/// Lets the lower geom be put below the upper one, to which ranks are given as `join` says. No rank stands on that of
/// one of the first two geoms, so there nothing changes and nothing is refused.
pub fn admit<C>(
    geoms: &mut Slots<GeomCell<C>>,
    edges: &Edges,
    upper: u64,
    under: u64,
) -> Result<(), AttachRefusal>
    requires walkable { IsWalkable (kinds geoms.old) edges.now }
    requires lives { IsSome (value_at (kinds geoms.old) upper) }
    requires local { AreLocal (ranked_below edges.now) (stored geoms.old) }
    requires low { is_high (kinds geoms.old) (stored geoms.old) ≡ false }
    ensures same { bare geoms.new ≡ bare geoms.old }
    ensures admitted { OnOk result
        (IsAdmitted (is_dev_or_taste upper) (ranked_below edges.now) upper under (stored geoms.old)
        (stored geoms.new)) }
    ensures low { OnOk result (is_high (kinds geoms.old) (stored geoms.new) ≡ false) }
    ensures later { OnErr result (is_dev_or_taste upper ≡ false) }
    ensures refused { IfErr result (λ e. IsRefusedFor e geoms.old (ranked_below edges.now) upper under) }
    ensures kept { OnErr result ((x : ℕ) → stored geoms.new x ≡ stored geoms.old x) }
{
    if is_dev_or_taste(upper) {
        return Ok(());
    }
    join(geoms, edges, upper, under)
}

// Gives the upper geom, and those above it, the ranks that they have once the lower geom is below it. It's refused
// where the lower geom stands above the upper one, else where a geom other than DEV and TASTE would be above the
// limit: then the ranks are as before.
fn join<C>(
    geoms: &mut Slots<GeomCell<C>>,
    edges: &Edges,
    upper: u64,
    under: u64,
) -> Result<(), AttachRefusal>
    requires walkable { IsWalkable (kinds geoms.old) edges.now }
    requires lives { IsSome (value_at (kinds geoms.old) upper) }
    requires later { is_dev_or_taste upper ≡ false }
    requires local { AreLocal (ranked_below edges.now) (stored geoms.old) }
    requires low { is_high (kinds geoms.old) (stored geoms.old) ≡ false }
    ensures same { bare geoms.new ≡ bare geoms.old }
    ensures joined { OnOk result (IsJoinable (ranked_below edges.now) upper under (stored geoms.new)) }
    ensures low { OnOk result (is_high (kinds geoms.old) (stored geoms.new) ≡ false) }
    ensures refused { IfErr result (λ e. IsRefusedFor e geoms.old (ranked_below edges.now) upper under) }
    ensures kept { OnErr result ((x : ℕ) → stored geoms.new x ≡ stored geoms.old x) }
{
    let rank = stored(geoms, under);
    let high = raise(geoms, edges, upper, rank + 1, false);
    if stored(geoms, under) != rank {
        lower(geoms, edges, upper);
        return Err(AttachRefusal::Eloop);
    }
    if high {
        lower(geoms, edges, upper);
        return Err(AttachRefusal::Edeep);
    }
    Ok(())
}

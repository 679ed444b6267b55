//! What keeps the marks of the withering geoms of which something can go (g_wither_geom(9)).
ghost use Rattle.std.specs.Prelude.{◌≡◌, ◌==◌, ◌&&◌, [], MatchOption};
ghost use Rattle.std.specs.List.{list_any};
ghost use Rattle.geo_model.specs.Topology.{providers_of, consumers_of};
ghost use Rattle.geo_model.specs.Demand.{is_zero};
ghost use Rattle.geo_slots.specs.Slots.{IsRising, value_at};
ghost use Rattle.geo_laws_graph.specs.LookupLaws.{left_from, IsStep};
ghost use Rattle.geo_mesh.specs.Rows.{passes};
ghost use Rattle.geo_mesh.specs.Graph.{IsNumber, IsOrderly};
ghost use Rattle.geo_mesh.specs.Index.{IsIndexed};
ghost use Rattle.geo_mesh.specs.Notes.{withering_of};
ghost use Rattle.geo_mesh.specs.Cells.{graph, topo_view};
ghost use Rattle.geo_mesh.specs.Going.{is_unattached, is_unused, is_bare, is_free};
ghost use Rattle.geo_mesh.specs.Whole.{IsWhole, IsWholeBut};

use crate::records::{ConsRec, GeomCell};
use crate::tables::Tables;
use geo_slots::Slots;

/// Looks again whether something of the geom can go, after a part of it changed. One that doesn't wither has no mark,
/// so there is nothing to look for.
pub fn look_again<C>(tables: &mut Tables<C>, geom: u64)
    requires { IsWholeBut geom tables.old }
    ensures whole { IsWhole tables.new }
    ensures same { topo_view tables.new ≡ topo_view tables.old }
{
    if withers(&tables.geoms, geom) {
        let free = is_free(tables, geom);
        tables.notes.going.set(geom, free);
    }
}

// Whether the geom is there and withers.
fn withers<C>(geoms: &Slots<GeomCell<C>>, geom: u64) -> bool
    ensures withers { result ≡ passes withering_of (value_at geoms.now.rows geom) }
    ensures rising { IsRising 1 geoms.now.rows geoms.now.next }
{
    geoms.get(geom).is_some_and(|cell| cell.geom.withering)
}

// Whether something of the geom, or the geom itself, is free to go.
fn is_free<C>(tables: &Tables<C>, geom: u64) -> bool
    requires indexed { IsIndexed (graph tables.now) tables.now.edges.index }
    requires orderly { IsOrderly (graph tables.now) }
    ensures { result ≡ is_free (topo_view tables.now) geom }
{
    has_unattached(tables, geom) || (has_unused(tables, geom) || is_bare(tables, geom))
}

// Whether the geom has a provider to which nothing is attached.
fn has_unattached<C>(tables: &Tables<C>, geom: u64) -> bool
    requires indexed { IsIndexed (graph tables.now) tables.now.edges.index }
    requires orderly { IsOrderly (graph tables.now) }
    ensures { result
        ≡ list_any (λ p. is_unattached (topo_view tables.now) p.number) (providers_of (graph tables.now) geom) }
{
    let mut from = 0;
    while let Some(prov) = offered(tables, geom, from) {
        if is_unattached(tables, prov) {
            return true;
        }
        from = prov + 1;
    }
    false
}

// The first provider of the geom from a number on.
fn offered<C>(tables: &Tables<C>, geom: u64, from: u64) -> Option<u64>
    requires indexed { IsIndexed (graph tables.now) tables.now.edges.index }
    requires orderly { IsOrderly (graph tables.now) }
    ensures next { MatchOption result (left_from (λ p. p.number) from (providers_of (graph tables.now) geom) ≡ [])
        (λ n. IsStep (λ p. p.number) (providers_of (graph tables.now) geom) tables.now.edges.providers.next from n) }
    ensures fits { IsNumber tables.now.edges.providers.next }
{
    tables.edges.index.offered.first_from(geom, from)
}

// Whether nothing is attached to the provider.
fn is_unattached<C>(tables: &Tables<C>, prov: u64) -> bool
    requires { IsIndexed (graph tables.now) tables.now.edges.index }
    ensures { result ≡ is_unattached (topo_view tables.now) prov }
{
    tables.edges.index.attached.first_from(prov, 0).is_none()
}

// Whether the geom has a consumer that holds no count, and through which no request is out.
fn has_unused<C>(tables: &Tables<C>, geom: u64) -> bool
    requires indexed { IsIndexed (graph tables.now) tables.now.edges.index }
    requires orderly { IsOrderly (graph tables.now) }
    ensures { result
        ≡ list_any (λ c. is_unused (topo_view tables.now) c.number) (consumers_of (graph tables.now) geom) }
{
    let mut from = 0;
    while let Some(cons) = owned(tables, geom, from) {
        if is_unused(tables, cons) {
            return true;
        }
        from = cons + 1;
    }
    false
}

// The first consumer of the geom from a number on.
fn owned<C>(tables: &Tables<C>, geom: u64, from: u64) -> Option<u64>
    requires indexed { IsIndexed (graph tables.now) tables.now.edges.index }
    requires orderly { IsOrderly (graph tables.now) }
    ensures next { MatchOption result (left_from (λ c. c.number) from (consumers_of (graph tables.now) geom) ≡ [])
        (λ n. IsStep (λ c. c.number) (consumers_of (graph tables.now) geom) tables.now.edges.consumers.next from n) }
    ensures fits { IsNumber tables.now.edges.consumers.next }
{
    tables.edges.index.owned.first_from(geom, from)
}

// Whether the consumer holds no count, and no request is out through it.
fn is_unused<C>(tables: &Tables<C>, cons: u64) -> bool
    ensures { result ≡ is_unused (topo_view tables.now) cons }
{
    tables
        .edges
        .consumers
        .get(cons)
        .map_or(true, |cell| is_idle(&cell.consumer))
}

// So by its record.
fn is_idle(cons: &ConsRec) -> bool
    ensures { result ≡ (is_zero cons.now.want && (cons.now.active == 0)) }
{
    cons.want.r == 0 && (cons.want.w == 0 && cons.want.e == 0) && cons.active == 0
}

// Whether the geom has neither provider nor consumer.
fn is_bare<C>(tables: &Tables<C>, geom: u64) -> bool
    requires { IsIndexed (graph tables.now) tables.now.edges.index }
    ensures { result ≡ is_bare (topo_view tables.now) geom }
{
    tables.edges.index.offered.first_from(geom, 0).is_none()
        && tables.edges.index.owned.first_from(geom, 0).is_none()
}

//! The order of a walk: each geom that is reached downwards from one, before those below it. It stands in the marks
//! of the geoms.
ghost use Rattle.std.specs.Prelude.{◌≡◌, ℕ, ◌+◌, ◌≤◌, ◌<◌, ◌^◌, [], ◌∷◌, All, IsSome, IfSome, MatchOption};
ghost use Rattle.geo_model.specs.Topology.{geom_at};
ghost use Rattle.geo_model.specs.Rank.{rank};
ghost use Rattle.geo_mesh.specs.Cells.{consumer_seen};
ghost use Rattle.geo_access.specs.Views.{order_of, put_geom, fresh_under, visit};

use crate::counts::NO_COUNTS;
use crate::walk::consumer_of;
use geo_base::{ConsId, GeomId};
use geo_mesh::{ConsRec, Scratch, Topo};

/// The first geom of an order, and how many there are. Each leads to the next by its mark.
#[derive(Clone, Copy, Debug, PartialEq, Eq)]
pub struct Order {
    pub head: u64,
    pub count: u64,
}

/// Takes the first geom of the order.
pub fn take<C>(topo: &Topo<C>, order: &mut Order) -> Option<GeomId>
    requires { All (λ x. IsSome (geom_at topo.now.topology x)) (order_of topo.now order.old) }
    ensures next { MatchOption result (order_of topo.now order.old ≡ []) (λ x. order_of topo.now order.old
        ≡ x ∷ order_of topo.now order.new) }
    ensures lives { IfSome result (λ x. IsSome (geom_at topo.now.topology x)) }
    ensures fewer { IfSome result (λ x. order.new.count + 1 ≡ order.old.count) }
{
    if order.count == 0 {
        return None;
    }
    let geom = GeomId::new(order.head);
    order.head = topo.geom_scratch(geom).mark;
    order.count -= 1;
    Some(geom)
}

/// Puts the geom, and what is reached downwards from it, in front of the order, but for what is in it.
pub fn gather<C>(topo: &mut Topo<C>, geom: GeomId, order: &mut Order)
    requires { IsSome (geom_at topo.old.topology geom) }
    ensures gathered { (levels : ℕ) → rank topo.old.topology geom ≤ levels
        → record { view = topo.new; order = order.new }
        ≡ visit levels geom (record { view = topo.old; order = order.old }) }
    ensures graph { topo.new.topology ≡ topo.old.topology }
{
    let mut from = 0;
    while let Some((id, cons)) = consumer_of(topo, geom, from) {
        if let Some(under) = fresh_under(topo, id, &cons) {
            gather(topo, under, order);
        }
        from = id.number() + 1;
    }
    put(topo, geom, order)
}

// Puts the geom in front of the order.
fn put<C>(topo: &mut Topo<C>, geom: GeomId, order: &mut Order)
    requires { IsSome (geom_at topo.old.topology geom) }
    ensures { record { view = topo.new; order = order.new }
        ≡ put_geom geom (record { view = topo.old; order = order.old }) }
{
    let scratch = Scratch {
        mark: order.head,
        trial: NO_COUNTS,
    };
    topo.set_geom_scratch(geom, scratch);
    order.head = geom.number();
    order.count = order.count.saturating_add(1);
}

// The geom of the provider to which the consumer is attached, if it isn't in the order.
fn fresh_under<C>(topo: &Topo<C>, id: ConsId, cons: &ConsRec) -> Option<GeomId>
    ensures fresh { result ≡ fresh_under topo.now (consumer_seen id cons.now) }
    ensures lives { IfSome result (λ x. IsSome (geom_at topo.now.topology x)) }
{
    let prov = topo.provider(cons.prov?)?;
    let marked = topo.geom_scratch(prov.geom).mark;
    if marked == 0 { Some(prov.geom) } else { None }
}

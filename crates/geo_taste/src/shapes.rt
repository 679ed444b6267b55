//! What becomes of a provider that a class accepts.
ghost use Rattle.std.specs.Prelude.{◌≡◌, ◌+◌, ◌≤◌, IfOk, IfSome, OnErr};
ghost use Rattle.geo_model.specs.Topology.{provider_at};
ghost use Rattle.geo_mesh.specs.Graph.{IsSoundGraph};
ghost use Rattle.geo_taste.specs.Making.{both, queued, AreBoth};
ghost use Rattle.geo_taste.specs.Accepting.{accepted, IsAccepted};
ghost use Rattle.geo_taste.specs.Accepts.{MayAccept, NamesAPlace};
ghost use Rattle.geo_taste.specs.Standing.{CanStandOn};

use crate::join::accept_member;
use crate::label::accept_label;
use crate::member::{concat_member, stripe_member};
use crate::tables::{accept_partitions, accept_slices};
use geo_base::{MAX_LINKS, NoMemory, ProvId};
use geo_class::Config;
use geo_event::EventQueue;
use geo_mesh::Topo;
use geo_model::Shape;
use std::alloc::Global;

/// Whether something was made of a provider, or the class declined after all.
#[derive(Clone, Copy, Debug, PartialEq, Eq)]
pub enum Accepted {
    Made,
    Declined,
}

/// Makes what a class accepts in a provider: the slices of a table, the partitions of a chain, a label, or a place of
/// an assembly, and offers the new providers for taste. The class declines after all, and nothing changes, where a
/// name is too long or taken, a place is filled, a component has another sector size, or the whole would have a size
/// that no provider may have. After `NoMemory` nothing changed.
///
/// In a mesh that is sound, steady and fitting that is what the model declines; in another one, where what would be
/// made breaks the graph, it is declined too.
pub fn accept(
    alloc: Global,
    topo: &mut Topo<Config>,
    queue: &mut EventQueue,
    prov: ProvId,
    shape: &Shape,
) -> Result<Accepted, NoMemory>
    requires stands { CanStandOn topo.old.topology prov }
    requires place { NamesAPlace shape.now }
    ensures made { IfOk result (λ answer. IfSome (provider_at topo.old.topology prov) (λ p.
        let old = both topo.old queue.old in
        IsAccepted answer topo.new queue.new old (accepted old p shape.now) (MayAccept (queued old) p shape.now))) }
    ensures same { OnErr result (AreBoth topo.new queue.new (both topo.old queue.old)) }
    ensures spare { queue.old.spare ≤ queue.new.spare + MAX_LINKS }
    ensures sound { IsSoundGraph topo.old.topology }
{
    let Some(below) = topo.provider(prov) else {
        unreachable!()
    };
    let below = *below;
    match shape {
        Shape::Slices(table) => accept_slices(alloc, topo, queue, prov, &below.name, table),
        Shape::Logical(table) => accept_partitions(alloc, topo, queue, prov, &below.name, table),
        Shape::Named(found) => accept_label(topo, queue, prov, &below, found),
        Shape::Joined(found) => {
            let member = concat_member(alloc, found)?;
            accept_member(alloc, topo, queue, prov, &below, member)
        }
        Shape::Striped(found) => {
            let member = stripe_member(alloc, found)?;
            accept_member(alloc, topo, queue, prov, &below, member)
        }
    }
}

//! Whether a demand that is tried is refused. Counts alone say it; who stands in its way is looked for only where it is
//! refused, and a caller asks for that.
ghost use Rattle.std.specs.Prelude.{◌≡◌, ◌||◌, is_some, All, IsSome, IfSome, option_map};
ghost use Rattle.geo_model.specs.Topology.{geom_at, provider_at};
ghost use Rattle.geo_mesh.specs.Cells.{consumer_seen};
ghost use Rattle.geo_access.specs.declared.decide.Asked.TheVariants.{Exclusion};
ghost use Rattle.geo_access.specs.Tries.{stands_beside, is_stopped, sign_of};
ghost use Rattle.geo_access.specs.Views.{CountsTell, MayJudge, judged, errno_of_refused, against, order_of, want_at, raised_have, sign_at, sign_in, fault_in, first_given};

use crate::counts::add;
use crate::decide::{Asked, Refused, first_errored, first_fault, have_of, raised, reason};
use crate::order::{Order, take};
use crate::walk::consumer_of;
use geo_base::{ConsId, Counts, Errno, GeomId, ProvId};
use geo_mesh::{ConsRec, Topo};

/// What the counts of a consumer say beside those of its provider, where it isn't nothing.
#[derive(Clone, Copy, Debug, PartialEq, Eq)]
pub enum Sign {
    /// It writes beside another's exclusive count, or has an exclusive count beside another writer.
    Clash,
    /// A count of it stopped at the greatest number, so another's may be hidden beside it.
    Unclear,
}

/// What refuses the demand that is tried, if anything does.
pub fn judge<C>(topo: &Topo<C>, prov: ProvId, add: Counts, order: Order) -> Option<Refused>
    requires { MayJudge topo.now prov order }
    ensures { result ≡ judged topo.now prov add (order_of topo.now order) }
{
    decide(topo, prov, add, order)?;
    reason(topo, prov, add, order)
}

/// The error of what refuses the demand that is tried, if anything does.
pub fn decide<C>(topo: &Topo<C>, prov: ProvId, add: Counts, order: Order) -> Option<Errno>
    requires { MayJudge topo.now prov order }
    ensures { result ≡ option_map errno_of_refused (judged topo.now prov add (order_of topo.now order)) }
{
    if first_errored(topo, prov, order).is_some() {
        return Some(Errno::ENXIO);
    }
    if is_against(topo, prov, add) || is_against_below(topo, prov, order) {
        return Some(Errno::EPERM);
    }
    if first_fault(topo, order, Asked::Limit).is_some() {
        return Some(Errno::EOVERFLOW);
    }
    None
}

// Whether another consumer at the provider stands in the way of these counts.
fn is_against<C>(topo: &Topo<C>, prov: ProvId, add: Counts) -> bool
    requires { CountsTell topo.now prov }
    ensures { result ≡ is_some (against topo.now prov add) }
{
    let have = have_of(topo, prov);
    add.w != 0 && have.e != 0 || add.e != 0 && have.w != 0
}

// Whether a writer would stand beside another's exclusive count at a provider below.
fn is_against_below<C>(topo: &Topo<C>, prov: ProvId, order: Order) -> bool
    requires { MayJudge topo.now prov order }
    ensures { result ≡ is_some (first_given (fault_in topo.now Exclusion) (order_of topo.now order)) }
{
    match first_sign(topo, order) {
        Some(Sign::Clash) => true,
        Some(Sign::Unclear) => first_fault(topo, order, Asked::Exclusion).is_some(),
        None => false,
    }
}

// What counts tell of the consumers of the order's geoms.
fn first_sign<C>(topo: &Topo<C>, order: Order) -> Option<Sign>
    requires { All (λ x. IsSome (geom_at topo.now.topology x)) (order_of topo.now order) }
    ensures { result ≡ first_given (sign_in topo.now) (order_of topo.now order) }
{
    let mut rest = order;
    while let Some(geom) = take(topo, &mut rest) {
        let sign = sign_in(topo, geom);
        if sign.is_some() {
            return sign;
        }
    }
    None
}

// What counts tell of the geom's consumers.
fn sign_in<C>(topo: &Topo<C>, geom: GeomId) -> Option<Sign>
    ensures { result ≡ sign_in topo.now geom }
{
    let mut from = 0;
    while let Some((id, cons)) = consumer_of(topo, geom, from) {
        let sign = sign_at(topo, id, &cons);
        if sign.is_some() {
            return sign;
        }
        from = id.number() + 1;
    }
    None
}

// What counts tell of the consumer.
fn sign_at<C>(topo: &Topo<C>, id: ConsId, cons: &ConsRec) -> Option<Sign>
    requires geom { IsSome (geom_at topo.now.topology cons.now.geom) }
    requires place { IfSome cons.now.prov (λ p. IsSome (provider_at topo.now.topology p)) }
    requires want { want_at topo.now id ≡ cons.now.want }
    ensures { result ≡ sign_at topo.now (consumer_seen id cons.now) }
{
    let all = raised_have(topo, cons.prov?);
    sign_of(raised(topo, cons), all)
}

// The counts that the provider would have.
fn raised_have<C>(topo: &Topo<C>, prov: ProvId) -> Counts
    requires { IsSome (provider_at topo.now.topology prov) }
    ensures { result ≡ raised_have topo.now prov }
{
    add(have_of(topo, prov), topo.provider_scratch(prov).trial)
}

// What the counts of a consumer tell beside those of all consumers at its provider.
fn sign_of(mine: Counts, all: Counts) -> Option<Sign>
    ensures { result ≡ sign_of mine all }
{
    if stands_beside(mine, all) {
        return Some(Sign::Clash);
    }
    if is_stopped(mine) {
        return Some(Sign::Unclear);
    }
    None
}

// Whether others have an exclusive count beside this writer, or write beside this exclusive count.
fn stands_beside(mine: Counts, all: Counts) -> bool
    ensures { result ≡ stands_beside mine all }
{
    mine.w != 0 && mine.e < all.e || mine.e != 0 && mine.w < all.w
}

// Whether the write count or the exclusive count stopped at the greatest number.
fn is_stopped(a: Counts) -> bool
    ensures { result ≡ is_stopped a }
{
    a.w == u32::MAX || a.e == u32::MAX
}

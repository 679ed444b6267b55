//! Looks at what a demand that is tried meets: what refuses it, and who stands in its way.
ghost use Rattle.std.specs.Prelude.{◌≡◌, ℕ, All, IsSome, fold, Some, None, filter_map, flat_map, not, ◌&&◌, ◌==◌};
ghost use Rattle.std.specs.Option.{option_map_or};
ghost use Rattle.geo_model.specs.Topology.{geom_at, provider_at, consumer_at, providers_under, providers_of, consumers_of, attached_to};
ghost use Rattle.geo_mesh.specs.Cells.{consumer_seen};
ghost use Rattle.geo_model.specs.Demand.{add_counts};
ghost use Rattle.geo_laws_counts.specs.WalkWords.{cap};
ghost use Rattle.geo_access.specs.Views.{CountsTell, MayJudge, grant_answer, judged, against, beside_exclusive, beside_writer, have_at, want_at, made_at, order_of, lesser, raised, has_side, other, second_pair, pair_with, pair_at, raised_have, fault_at, fault_in, first_given};

use crate::counts::{NO_COUNTS, add, is_over};
use crate::order::{Order, take};
use crate::refusal::GrantRefusal;
use crate::walk::{consumer_at, consumer_of, provider_of};
use geo_base::{ConsId, Counts, GeomId, ProvId};
use geo_mesh::{ConsRec, Topo};

/// What a consumer is asked for: whether it has a write count, or an exclusive count.
#[derive(Clone, Copy, Debug, PartialEq, Eq)]
pub enum Side {
    Writes,
    Excludes,
}

/// What a provider is asked for: whether a writer stands beside another's exclusive count, or whether a count is too
/// great.
#[derive(Clone, Copy, Debug, PartialEq, Eq)]
pub enum Asked {
    Exclusion,
    Limit,
}

/// Why a demand is refused, where the consumer that makes it needn't have a number.
#[derive(Clone, Copy, Debug, PartialEq, Eq)]
pub enum Refused {
    /// Something stands in the way without it.
    Named(GrantRefusal),
    /// It would have an exclusive count beside this writer.
    Writer(ConsId),
    /// It would write beside this consumer's exclusive count.
    Exclusive(ConsId),
}

/// What refuses the demand that is tried, if anything does, with who stands in its way.
pub fn reason<C>(topo: &Topo<C>, prov: ProvId, add: Counts, order: Order) -> Option<Refused>
    requires { MayJudge topo.now prov order }
    ensures { result ≡ judged topo.now prov add (order_of topo.now order) }
{
    if let Some(found) = first_errored(topo, prov, order) {
        return Some(Refused::Named(GrantRefusal::Enxio { prov: found }));
    }
    if let Some(refused) = against(topo, prov, add) {
        return Some(refused);
    }
    if let Some(fault) = first_fault(topo, order, Asked::Exclusion) {
        return Some(Refused::Named(fault));
    }
    let fault = first_fault(topo, order, Asked::Limit)?;
    Some(Refused::Named(fault))
}

// Another consumer at the provider that stands in the way of these counts.
fn against<C>(topo: &Topo<C>, prov: ProvId, add: Counts) -> Option<Refused>
    requires { CountsTell topo.now prov }
    ensures { result ≡ against topo.now prov add }
{
    match beside_exclusive(topo, prov, add) {
        Some(refused) => Some(refused),
        None => beside_writer(topo, prov, add),
    }
}

// Another consumer's exclusive count, where the demand writes. No consumer is looked at where the provider has none.
fn beside_exclusive<C>(topo: &Topo<C>, prov: ProvId, add: Counts) -> Option<Refused>
    requires { CountsTell topo.now prov }
    ensures { result ≡ beside_exclusive topo.now prov add }
{
    if add.w == 0 {
        return None;
    }
    if have_of(topo, prov).e == 0 {
        return None;
    }
    let exclusive = other(topo, prov, 0, Side::Excludes)?;
    Some(Refused::Exclusive(exclusive))
}

// Another writer, where the demand has an exclusive count. No consumer is looked at where the provider has none.
fn beside_writer<C>(topo: &Topo<C>, prov: ProvId, add: Counts) -> Option<Refused>
    requires { CountsTell topo.now prov }
    ensures { result ≡ beside_writer topo.now prov add }
{
    if add.e == 0 {
        return None;
    }
    if have_of(topo, prov).w == 0 {
        return None;
    }
    let writer = other(topo, prov, 0, Side::Writes)?;
    Some(Refused::Writer(writer))
}

/// The counts of the provider.
pub fn have_of<C>(topo: &Topo<C>, prov: ProvId) -> Counts
    ensures { result ≡ have_at topo.now prov }
{
    match topo.provider(prov) {
        Some(found) => found.have,
        None => NO_COUNTS,
    }
}

/// The answer to a consumer at the provider.
pub fn answer(refused: Option<Refused>, cons: ConsId, prov: ProvId) -> Result<(), GrantRefusal>
    ensures { result ≡ grant_answer refused cons prov }
{
    match refused {
        Some(why) => Err(refusal(why, cons, prov)),
        None => Ok(()),
    }
}

/// What a consumer at the provider is told of what refuses.
pub fn refusal(why: Refused, cons: ConsId, prov: ProvId) -> GrantRefusal
    ensures { grant_answer (Some why) cons prov ≡ Err result }
{
    match why {
        Refused::Named(refusal) => refusal,
        Refused::Writer(writer) => GrantRefusal::Eperm {
            prov,
            writer,
            exclusive: cons,
        },
        Refused::Exclusive(exclusive) => GrantRefusal::Eperm {
            prov,
            writer: cons,
            exclusive,
        },
    }
}

/// Of the provider and those to which consumers of the order's geoms are attached, the smallest that carries an error.
pub fn first_errored<C>(topo: &Topo<C>, prov: ProvId, order: Order) -> Option<ProvId>
    requires { All (λ x. IsSome (geom_at topo.now.topology x)) (order_of topo.now order) }
    ensures { result ≡ fold (λ best x. fold (lesser topo.now) best (providers_under topo.now.topology x))
        (lesser topo.now None prov) (order_of topo.now order) }
{
    let mut best = lesser(topo, None, prov);
    let mut rest = order;
    while let Some(geom) = take(topo, &mut rest) {
        best = errored_under(topo, geom, best);
    }
    best
}

// The same over what consumers of one geom are attached to.
fn errored_under<C>(topo: &Topo<C>, geom: GeomId, start: Option<ProvId>) -> Option<ProvId>
    ensures { result ≡ fold (lesser topo.now) start (providers_under topo.now.topology geom) }
{
    let mut best = start;
    let mut from = 0;
    while let Some((id, cons)) = consumer_of(topo, geom, from) {
        best = lesser_at(topo, best, cons.prov);
        from = id.number() + 1;
    }
    best
}

// The same for the provider to which a consumer is attached, if there is one.
fn lesser_at<C>(topo: &Topo<C>, best: Option<ProvId>, prov: Option<ProvId>) -> Option<ProvId>
    ensures { result ≡ option_map_or (lesser topo.now best) prov best }
{
    match prov {
        Some(found) => lesser(topo, best, found),
        None => best,
    }
}

// Of a provider and the best so far, the smaller that carries an error.
fn lesser<C>(topo: &Topo<C>, best: Option<ProvId>, prov: ProvId) -> Option<ProvId>
    ensures { result ≡ lesser topo.now best prov }
{
    let errored = match topo.provider(prov) {
        Some(found) => found.errored,
        None => false,
    };
    if !errored {
        return best;
    }
    match best {
        Some(other) => Some(ProvId::new(other.number().min(prov.number()))),
        None => Some(prov),
    }
}

/// What is wrong at a provider of the order's geoms, if anything is.
pub fn first_fault<C>(topo: &Topo<C>, order: Order, asked: Asked) -> Option<GrantRefusal>
    requires { All (λ x. IsSome (geom_at topo.now.topology x)) (order_of topo.now order) }
    ensures { result ≡ first_given (fault_in topo.now asked) (order_of topo.now order) }
{
    let mut rest = order;
    while let Some(geom) = take(topo, &mut rest) {
        let fault = fault_in(topo, geom, asked);
        if fault.is_some() {
            return fault;
        }
    }
    None
}

// What is wrong at a provider of the geom, if anything is.
fn fault_in<C>(topo: &Topo<C>, geom: GeomId, asked: Asked) -> Option<GrantRefusal>
    ensures { result ≡ fault_in topo.now asked geom }
{
    let mut from = 0;
    while let Some((id, prov)) = provider_of(topo, geom, from) {
        let fault = fault_at(topo, id, prov.have, asked);
        if fault.is_some() {
            return fault;
        }
        from = id.number() + 1;
    }
    None
}

// What is wrong at the provider, if anything is.
fn fault_at<C>(topo: &Topo<C>, prov: ProvId, have: Counts, asked: Asked) -> Option<GrantRefusal>
    requires lives { IsSome (provider_at topo.now.topology prov) }
    requires have { have ≡ have_at topo.now prov }
    ensures { result ≡ fault_at topo.now asked prov }
{
    let total = add(have, topo.provider_scratch(prov).trial);
    match asked {
        Asked::Exclusion => {
            if total.w == 0 || total.e == 0 {
                return None;
            }
            let (writer, exclusive) = pair_at(topo, prov)?;
            Some(GrantRefusal::Eperm {
                prov,
                writer,
                exclusive,
            })
        }
        Asked::Limit => {
            if is_over(total) {
                Some(GrantRefusal::Eoverflow { prov })
            } else {
                None
            }
        }
    }
}

// A writer, and another consumer with an exclusive count, at the provider.
fn pair_at<C>(topo: &Topo<C>, prov: ProvId) -> Option<(ConsId, ConsId)>
    ensures { result ≡ pair_at topo.now prov }
{
    let writer = other(topo, prov, 0, Side::Writes)?;
    match other(topo, prov, writer.number(), Side::Excludes) {
        Some(exclusive) => Some((writer, exclusive)),
        None => second_pair(topo, prov, writer),
    }
}

// Such a pair where the first writer isn't of it.
fn second_pair<C>(topo: &Topo<C>, prov: ProvId, first: ConsId) -> Option<(ConsId, ConsId)>
    ensures { result ≡ second_pair topo.now prov first }
{
    let writer = other(topo, prov, first.number(), Side::Writes)?;
    let exclusive = other(topo, prov, writer.number(), Side::Excludes)?;
    Some((writer, exclusive))
}

// The first consumer at the provider, other than one, that writes or excludes once it has what it gains.
fn other<C>(topo: &Topo<C>, prov: ProvId, but: u64, side: Side) -> Option<ConsId>
    ensures { result ≡ other topo.now prov but side }
{
    let mut from = 0;
    while let Some((id, cons)) = consumer_at(topo, prov, from) {
        if fits(topo, id, &cons, but, side) {
            return Some(id);
        }
        from = id.number() + 1;
    }
    None
}

// Whether the consumer is another one than this, and writes or excludes once it has what it gains.
fn fits<C>(topo: &Topo<C>, id: ConsId, cons: &ConsRec, but: u64, side: Side) -> bool
    requires geom { IsSome (geom_at topo.now.topology cons.now.geom) }
    requires want { want_at topo.now id ≡ cons.now.want }
    ensures { result ≡ (not (id == but) && has_side side (raised topo.now (consumer_seen id cons.now))) }
{
    id.number() != but && has_side(side, raised(topo, cons))
}

/// What the consumer wants once it has what it gains.
pub fn raised<C>(topo: &Topo<C>, cons: &ConsRec) -> Counts
    requires { IsSome (geom_at topo.now.topology cons.now.geom) }
    ensures { result ≡ cap (add_counts cons.now.want (made_at topo.now cons.now.geom)) }
{
    add(cons.want, topo.geom_scratch(cons.geom).trial)
}

// Whether the count isn't zero.
fn has_side(side: Side, counts: Counts) -> bool
    ensures { result ≡ has_side side counts }
{
    match side {
        Side::Writes => counts.w != 0,
        Side::Excludes => counts.e != 0,
    }
}

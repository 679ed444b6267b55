//! A member of an assembly, as a record names it (geom(4)).
ghost use Rattle.std.specs.Prelude.{◌≡◌, ◌≤◌, IfOk, IsTrue};
ghost use Rattle.geo_model.specs.Acceptance.{concat_member, stripe_member};
ghost use Rattle.geo_model.specs.Sound.{fits_kind};
ghost use Rattle.geo_taste.specs.Members.{member_of};

use geo_base::{Kind, MAX_COMPONENTS, Name, NoMemory};
use geo_class::Config;
use geo_model::{ConcatRecord, StripeRecord};
use std::alloc::Global;

/// What a record says: class and name of the geom, its configuration while empty, and the place.
#[derive(Debug, Drop)]
pub struct Member {
    pub kind: Kind,
    pub geom_name: Name,
    pub empty: Config,
    pub place: u32,
}

/// The member that a record of a concat names.
pub fn concat_member(alloc: Global, found: &ConcatRecord) -> Result<Member, NoMemory>
    requires some { 1 ≤ found.now.count }
    requires few { found.now.count ≤ MAX_COMPONENTS }
    ensures member { IfOk result (λ x. member_of x ≡ concat_member found.now) }
    ensures class { IfOk result (λ x. IsTrue (fits_kind x.kind x.empty)) }
{
    Ok(Member {
        kind: Kind::Concat,
        geom_name: found.name,
        empty: Config::empty_concat(alloc, found)?,
        place: u32::from(found.place),
    })
}

/// The member that a record of a stripe names.
pub fn stripe_member(alloc: Global, found: &StripeRecord) -> Result<Member, NoMemory>
    requires some { 1 ≤ found.now.count }
    requires few { found.now.count ≤ MAX_COMPONENTS }
    ensures member { IfOk result (λ x. member_of x ≡ stripe_member found.now) }
    ensures class { IfOk result (λ x. IsTrue (fits_kind x.kind x.empty)) }
{
    Ok(Member {
        kind: Kind::Stripe,
        geom_name: found.name,
        empty: Config::empty_stripe(alloc, found)?,
        place: u32::from(found.place),
    })
}

//! Where a provider lies whose strips go to its components in turn.
ghost use Rattle.std.specs.Prelude.{◌≡◌, ◌+◌, ◌-◌, ◌*◌, ◌/◌, ◌^◌, ◌<◌, ◌≤◌, ◌++◌, map};
ghost use Rattle.std.specs.List.{range_with_len};
ghost use Rattle.geo_model.specs.Place.{cut, strip};

use crate::address_map::AddressMap;
use crate::piece_list::PieceList;
use geo_base::{MAX_MEDIA_BYTES, NoMemory};
use geo_model::{Span, Stretch};
use std::alloc::Global;
use std::marker::Model;

/// The map of a STRIPE geom: its strips of `stripe` bytes go to its `count` components in turn, as far as the smallest
/// component goes. Contracts see these numbers.
#[derive(Clone, Copy, Debug, PartialEq, Eq)]
pub struct StripeMap {
    count: u32,
    stripe: u32,
    smallest: u64,
    sector: u32,
}

impl Model for StripeMap {
    ghost use Rattle.std.specs.Prelude.{◌*◌, ◌/◌, ◌<◌, ◌≤◌};
    ghost use Rattle.geo_class.specs.stripe.StripeMap.{StripeView, striped_size};
    ghost use Rattle.geo_model.specs.TheConstants.{MAX_MEDIA_BYTES};

    ghost Value = { StripeView };

    ghost view = { λ m. record { count = m.count; stripe = m.stripe; smallest = m.smallest; sector = m.sector } };

    ghost invariant = { λ m. (0 < m.stripe) × (striped_size m.count m.stripe m.smallest ≤ MAX_MEDIA_BYTES) };

    ghost inverse = { λ m. record { count = m.count; stripe = m.stripe; smallest = m.smallest; sector = m.sector } };
}

/// Adds the parts of a range that lie in the strips from `first` up to `end`, in the room that was reserved.
fn push_strips(list: &mut PieceList, span: Span, count: u64, stripe: u64, first: u64, end: u64)
    requires some_component { 0 < count }
    requires rising { first ≤ end }
    requires few { count < 2 ^ 32 }
    requires room { end ≤ list.old.spare + first }
    requires range_fits { span.offset + span.len < 2 ^ 64 }
    requires strips_fit { end * stripe < 2 ^ 64 }
    ensures { list.new.items ≡ list.old.items
        ++ cut span.offset span.len (map (strip count stripe) (range_with_len first (end - first))) }
{
    for number in first..end {
        list.push_part(
            span,
            Stretch {
                start: number * stripe,
                len: stripe,
                component: (number % count) as u32,
                offset: number / count * stripe,
            },
        );
    }
}

impl StripeMap {
    ghost use Rattle.geo_class.specs.stripe.StripeMap.{striped_size};

    /// Strips of `stripe` bytes over `count` components, of which the smallest has `smallest` bytes, in sectors of
    /// `sector` bytes.
    pub fn new(count: u32, stripe: u32, smallest: u64, sector: u32) -> StripeMap
        requires some_byte { 0 < stripe }
        requires fits { striped_size count stripe smallest ≤ MAX_MEDIA_BYTES }
        ensures { result ≡ record { count = count; stripe = stripe; smallest = smallest; sector = sector } }
    {
        StripeMap {
            count,
            stripe,
            smallest,
            sector,
        }
    }
}

impl AddressMap for StripeMap {
    ghost use Rattle.std.specs.Prelude.{Some};
    ghost use Rattle.geo_model.specs.Place.{stripe_spot, strips};
    ghost use Rattle.geo_class.specs.stripe.StripeMap.{striped_size};
    ghost use Rattle.geo_class.specs.stripe.StripeLaws.{stripe-follow, stripe-placed};

    ghost media = { λ m. striped_size m.count m.stripe m.smallest };

    ghost sector_size = { λ m. m.sector };

    ghost spot = { λ m o. Some (stripe_spot m.count m.stripe o) };

    ghost stretches = { λ m. strips m.count m.stripe };

    fn size(&self) -> u64 {
        let stripe = u64::from(self.stripe);
        u64::from(self.count) * (self.smallest / stripe * stripe)
    }

    fn sector(&self) -> u32 {
        self.sector
    }

    fn place(&self, offset: u64) -> (u32, u64) {
        let (count, stripe) = (u64::from(self.count), u64::from(self.stripe));
        let number = offset / stripe;
        (
            (number % count) as u32,
            number / count * stripe + offset % stripe,
        )
    }

    #[tactic(auto, using(crate::proofs::StripeLemmas::strips_rise, crate::proofs::StripeLemmas::strips_end, crate::proofs::StripeLemmas::some_component))]
    fn split(&self, alloc: Global, span: Span) -> Result<PieceList, NoMemory> {
        let (count, stripe) = (u64::from(self.count), u64::from(self.stripe));
        let first = span.offset / stripe;
        let end = (span.offset + span.len - 1) / stripe + 1;
        let mut list = PieceList::new(alloc);
        list.reserve(end - first)?;
        push_strips(&mut list, span, count, stripe, first, end);
        Ok(list)
    }

    ghost pieces_follow = { stripe-follow };

    ghost pieces_are_placed = { stripe-placed };
}

//! The records that commands write.
ghost use Rattle.std.specs.Prelude.{◌≡◌};
ghost use Rattle.geo_model.specs.Plans.{IsMark, IsStripe};

use geo_base::Name;
use geo_model::{ConcatRecord, StripeRecord};

/// The record of a place in a concat.
pub fn concat_record(name: &Name, id: u64, place: u64, count: u64) -> ConcatRecord
    requires { IsMark id place count }
    ensures { result ≡ record { name = name.now; id = id; place = place; count = count } }
{
    ConcatRecord {
        name: *name,
        id: id as u32,
        place: place as u16,
        count: count as u16,
    }
}

/// The record of a place in a stripe, with strips of so many bytes.
pub fn stripe_record(name: &Name, id: u64, place: u64, count: u64, stripe: u64) -> StripeRecord
    requires mark { IsMark id place count }
    requires strips { IsStripe stripe }
    ensures { result
        ≡ record { name = name.now; id = id; place = place; count = count; stripe = stripe } }
{
    StripeRecord {
        name: *name,
        id: id as u32,
        place: place as u16,
        count: count as u16,
        stripe: stripe as u32,
    }
}

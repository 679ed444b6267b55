//! The class STRIPE: providers in turn, strip by strip, as far as the smallest goes (gstripe(8)).
//!
//! A [`StripeMap`] is seen as four numbers: how many components there are, the strip, the smallest component and the
//! sector size. It cuts at every strip's end. [`decode`] answers exactly the model's record or the first cause to
//! decline it (`stripe_record`). [`encode`] leaves the record and zeros behind it. [`what_is_encoded_is_decoded`],
//! where place and stripe size fit. Read `stripe_map.rt` first.
mod record;
mod stripe_map;

pub use geo_model::StripeRecord;
pub use record::{decode, encode, what_is_encoded_is_decoded};
pub use stripe_map::StripeMap;

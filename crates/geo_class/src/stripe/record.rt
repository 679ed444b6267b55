//! The record of a place in a stripe, in the last sector of a component.
ghost use Rattle.std.specs.Prelude.{◌≡◌, ◌<◌, ◌≤◌, length, IsTrue};
ghost use Rattle.geo_model.specs.Name.{is_short_name};
ghost use Rattle.geo_model.specs.Records.{is_stripe_size, stripe_record, stripe_sector};
ghost use Rattle.geo_class.specs.Head.{decoder_answer};
ghost use Rattle.geo_class.specs.stripe.Record.{EncodedIsDecoded};

use crate::component::{is_place, put_component};
use crate::field::{put_u32, u16_at, u32_at};
use crate::head::{decode_head, encode_head};
use geo_base::{DeclineCause, Declined, MAX_STRIPE_BYTES};
use geo_model::StripeRecord;

/// What the record begins with.
const MAGIC: [u8; 16] = *b"RGEOM::STRIPE\0\0\0";

/// The only version.
const VERSION: u32 = 1;

/// Whether strips may have so many bytes over sectors of so many: not 0, at most 32,768, and whole sectors.
fn is_stripe_size(stripe: u32, sector: u64) -> bool
    requires { 0 < sector }
    ensures { result ≡ is_stripe_size stripe sector }
{
    1 <= stripe && u64::from(stripe) <= MAX_STRIPE_BYTES && u64::from(stripe) % sector == 0
}

/// The record in a sector. It is declined with the first cause: `Magic`, `Version`, `BadName`, `Place` where the count
/// isn't 1 to 16 or the place isn't below it, or `Size` where the stripe size is 0, above 32,768 or no multiple of the
/// sector size.
pub fn decode(sector: &[u8]) -> Result<StripeRecord, Declined>
    requires { 48 ≤ length sector.now }
    ensures { decoder_answer result ≡ stripe_record sector.now }
{
    let name = decode_head(sector, &MAGIC, VERSION)?;
    let place = u16_at(sector, 40);
    let count = u16_at(sector, 42);
    if !is_place(place, count) {
        return Err(Declined {
            cause: DeclineCause::Place,
        });
    }
    let stripe = u32_at(sector, 44);
    if !is_stripe_size(stripe, sector.len() as u64) {
        return Err(Declined {
            cause: DeclineCause::Size,
        });
    }
    Ok(StripeRecord {
        name,
        id: u32_at(sector, 36),
        place,
        count,
        stripe,
    })
}

/// Fills a sector with the record, and zeros behind it. The name is short: 1 to 16 letters, digits, `_` and `-`.
pub fn encode(part: &StripeRecord, out: &mut [u8])
    requires room { 48 ≤ length out.old }
    requires short { IsTrue (is_short_name part.now.name) }
    ensures { out.new ≡ stripe_sector (length out.old) part.now }
{
    encode_head(out, &MAGIC, VERSION, &part.name);
    put_component(out, part.id, part.place, part.count);
    put_u32(out, 44, part.stripe);
}

/// What is written of a record is decoded to that record where its place is one of 1 to 16 places and its stripe size
/// fits the sector, and else declined with the first of these causes.
pub fn what_is_encoded_is_decoded()
    ensures { EncodedIsDecoded }
{}

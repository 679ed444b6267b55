//! The record of a place in a concat, in the last sector of a component.
ghost use Rattle.std.specs.Prelude.{◌≡◌, ◌≤◌, length, IsTrue};
ghost use Rattle.geo_model.specs.Name.{is_short_name};
ghost use Rattle.geo_model.specs.Records.{concat_record, concat_sector};
ghost use Rattle.geo_class.specs.Head.{decoder_answer};
ghost use Rattle.geo_class.specs.concat.Record.{EncodedIsDecoded};

use crate::component::{is_place, put_component};
use crate::field::{u16_at, u32_at};
use crate::head::{decode_head, encode_head};
use geo_base::{DeclineCause, Declined};
use geo_model::ConcatRecord;

/// What the record begins with.
const MAGIC: [u8; 16] = *b"RGEOM::CONCAT\0\0\0";

/// The only version.
const VERSION: u32 = 1;

/// The record in a sector. It is declined with the first cause: `Magic`, `Version`, `BadName`, or `Place` where the
/// count isn't 1 to 16 or the place isn't below it.
pub fn decode(sector: &[u8]) -> Result<ConcatRecord, Declined>
    requires { 44 ≤ length sector.now }
    ensures { decoder_answer result ≡ concat_record sector.now }
{
    let name = decode_head(sector, &MAGIC, VERSION)?;
    let place = u16_at(sector, 40);
    let count = u16_at(sector, 42);
    if !is_place(place, count) {
        return Err(Declined {
            cause: DeclineCause::Place,
        });
    }
    Ok(ConcatRecord {
        name,
        id: u32_at(sector, 36),
        place,
        count,
    })
}

/// Fills a sector with the record, and zeros behind it. The name is short: 1 to 16 letters, digits, `_` and `-`.
pub fn encode(part: &ConcatRecord, out: &mut [u8])
    requires room { 44 ≤ length out.old }
    requires short { IsTrue (is_short_name part.now.name) }
    ensures { out.new ≡ concat_sector (length out.old) part.now }
{
    encode_head(out, &MAGIC, VERSION, &part.name);
    put_component(out, part.id, part.place, part.count);
}

/// What is written of a record is decoded to that record where its place is one of 1 to 16 places, and else declined
/// for its place.
pub fn what_is_encoded_is_decoded()
    ensures { EncodedIsDecoded }
{}

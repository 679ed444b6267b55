//! The record of a label, in the last sector of the provider below.
ghost use Rattle.std.specs.Prelude.{◌≡◌, ◌≤◌, length, IsTrue};
ghost use Rattle.geo_model.specs.Name.{is_short_name};
ghost use Rattle.geo_model.specs.Records.{label_record, label_sector, label_size};
ghost use Rattle.geo_class.specs.Head.{decoder_answer};
ghost use Rattle.geo_class.specs.label.Record.{EncodedIsDecoded};

use crate::field::{put_u64, u32_at, u64_at};
use crate::head::{decode_head, encode_head};
use geo_base::Declined;
use geo_model::LabelRecord;

/// What the record begins with.
const MAGIC: [u8; 16] = *b"RGEOM::LABEL\0\0\0\0";

/// The version of a record that has a name alone.
const NAMED: u32 = 1;

/// The version of a record that has the media size as well, which is the newest.
const SIZED: u32 = 2;

/// Where the media size begins.
const MEDIA_SIZE: usize = 36;

/// The media size in a record, which has one where its version is 2.
fn media_size(sector: &[u8]) -> Option<u64>
    requires { 44 ≤ length sector.now }
    ensures { result ≡ label_size sector.now }
{
    if u32_at(sector, 16) == SIZED {
        Some(u64_at(sector, MEDIA_SIZE))
    } else {
        None
    }
}

/// The record in a sector, of version 1 or 2. It is declined with the first cause: `Magic`, `Version` or `BadName`.
pub fn decode(sector: &[u8]) -> Result<LabelRecord, Declined>
    requires { 44 ≤ length sector.now }
    ensures { decoder_answer result ≡ label_record sector.now }
{
    let name = decode_head(sector, &MAGIC, SIZED)?;
    Ok(LabelRecord {
        name,
        size: media_size(sector),
    })
}

/// Fills a sector with the record, and zeros behind it: version 2 where it has a media size, else version 1. The name
/// is short: 1 to 16 letters, digits, `_` and `-`.
pub fn encode(part: &LabelRecord, out: &mut [u8])
    requires room { 44 ≤ length out.old }
    requires short { IsTrue (is_short_name part.now.name) }
    ensures { out.new ≡ label_sector (length out.old) part.now }
{
    match part.size {
        None => encode_head(out, &MAGIC, NAMED, &part.name),
        Some(size) => {
            encode_head(out, &MAGIC, SIZED, &part.name);
            put_u64(out, MEDIA_SIZE, size);
        }
    }
}

/// What is written of a record of either version is decoded to that record.
pub fn what_is_encoded_is_decoded()
    ensures { EncodedIsDecoded }
{}

//! The head of a record: its magic, its version from 1 on, and its name with zeros behind it.
ghost use Rattle.std.specs.Prelude.{◌≡◌, ◌≤◌, ◌==◌, not, length, IsTrue};
ghost use Rattle.std.specs.List.{list_all, prefix_len};
ghost use Rattle.geo_model.specs.Name.{is_short_name};
ghost use Rattle.geo_model.specs.Records.{padded, record_head};
ghost use Rattle.geo_class.specs.Head.{decoder_answer, head_name, padded_name};

use crate::field::{put_bytes, put_u32, u32_at};
use geo_base::{DeclineCause, Declined, Name};

/// How many bytes stand before the first zero.
fn len_before_zero(field: &[u8]) -> usize
    ensures len { result ≡ prefix_len (λ b. not (b == 0)) field.now }
    ensures within { result ≤ length field.now }
{
    field.iter().take_while(|b| **b != 0).count()
}

/// Whether all bytes are zero.
fn are_zero(bytes: &[u8]) -> bool
    ensures { result ≡ list_all (λ b. b == 0) bytes.now }
{
    bytes.iter().all(|b| *b == 0)
}

/// The short name in a field of 16 bytes, with zeros alone behind it.
fn padded_name(field: &[u8]) -> Option<Name>
    requires { length field.now ≡ 16 }
    ensures { result ≡ padded_name field.now }
{
    let len = len_before_zero(field);
    if !are_zero(&field[len..]) {
        return None;
    }
    match Name::new(&field[..len]) {
        Ok(name) => { if name.is_short() { Some(name) } else { None } }
        Err(_) => None,
    }
}

/// The name in a record of this magic and a version from 1 to `newest`. It is declined with the first cause: `Magic`,
/// `Version`, or `BadName` where the name isn't 1 to 16 letters, digits, `_` and `-` with zeros alone behind them.
pub fn decode_head(sector: &[u8], magic: &[u8; 16], newest: u32) -> Result<Name, Declined>
    requires { 36 ≤ length sector.now }
    ensures { decoder_answer result ≡ head_name magic.now newest sector.now }
{
    if sector[..16] != magic[..] {
        return Err(Declined {
            cause: DeclineCause::Magic,
        });
    }
    let version = u32_at(sector, 16);
    if version < 1 || newest < version {
        return Err(Declined {
            cause: DeclineCause::Version,
        });
    }
    match padded_name(&sector[20..36]) {
        Some(name) => Ok(name),
        None => Err(Declined {
            cause: DeclineCause::BadName,
        }),
    }
}

/// Fills a sector with the head of a record of this magic and version, and zeros behind it.
pub fn encode_head(sector: &mut [u8], magic: &[u8; 16], version: u32, name: &Name)
    requires room { 36 ≤ length sector.old }
    requires short { IsTrue (is_short_name name.now) }
    ensures { sector.new ≡ padded (length sector.old) (record_head magic.now version name.now) }
{
    sector.fill(0);
    put_bytes(sector, 0, magic);
    put_u32(sector, 16, version);
    put_bytes(sector, 20, name.bytes());
}

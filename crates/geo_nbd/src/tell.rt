//! Replies to options, written one behind the other.
ghost use Rattle.std.specs.Prelude.{◌≡◌, ◌<◌, ◌^◌, ◌++◌, length, flat_map, OnOk};
ghost use Rattle.geo_nbd.specs.Handshake.{described, reply, server_reply, zeroes};

use crate::export::{Export, block_info, export_info};
use crate::numbers::{OPTION_LIST, REPLY_ACK, REPLY_INFO, REPLY_SERVER};
use crate::option_reply::OptionReply;
use crate::phase::Agreed;
use geo_base::NoMemory;
use geo_text::Text;

/// A reply of this kind to an option, with its data.
pub fn add_reply(sent: &mut Text, option: u32, kind: u32, bytes: &[u8]) -> Result<(), NoMemory>
    requires { length bytes.now < 2 ^ 32 }
    ensures { OnOk result (sent.new ≡ sent.old ++ reply option kind bytes.now) }
{
    let head = OptionReply {
        option,
        kind,
        len: bytes.len() as u32,
    };
    sent.add(&head.bytes())?;
    sent.add(bytes)
}

/// An export by its name.
fn add_export(sent: &mut Text, export: &Export) -> Result<(), NoMemory>
    ensures { OnOk result (sent.new ≡ sent.old ++ server_reply export.now) }
{
    let name = export.name.bytes();
    let head = OptionReply {
        option: OPTION_LIST,
        kind: REPLY_SERVER,
        len: 4 + name.len() as u32,
    };
    sent.add(&head.bytes())?;
    sent.add(&(name.len() as u32).to_be_bytes())?;
    sent.add(name)
}

/// Each export by its name.
pub fn add_exports(sent: &mut Text, exports: &[Export]) -> Result<(), NoMemory>
    ensures { OnOk result (sent.new ≡ sent.old ++ flat_map server_reply exports.now) }
{
    for export in exports {
        add_export(sent, export)?;
    }
    Ok(())
}

/// What an option is told of an export, and that this is all.
pub fn add_described(sent: &mut Text, option: u32, export: &Export) -> Result<(), NoMemory>
    ensures { OnOk result (sent.new ≡ sent.old ++ described option export.now) }
{
    add_reply(sent, option, REPLY_INFO, &export_info(export))?;
    add_reply(sent, option, REPLY_INFO, &block_info(export))?;
    add_reply(sent, option, REPLY_ACK, &[])
}

/// The 124 zeros that end EXPORT_NAME, unless they were done without.
pub fn add_zeroes(sent: &mut Text, agreed: Agreed) -> Result<(), NoMemory>
    ensures { OnOk result (sent.new ≡ sent.old ++ zeroes agreed) }
{
    if agreed.no_zeroes {
        return Ok(());
    }
    sent.add(&[0; 124])
}

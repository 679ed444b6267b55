//! Exports.
ghost use Rattle.std.specs.Prelude.{◌≡◌, ◌+◌, ◌≤◌, length, IfSome};
ghost use Rattle.geo_nbd.specs.Handshake.{block_info, export_asked, export_info, export_of, is_meant, name_len};

use crate::field::{put_u16, put_u32, put_u64, u16_at, u32_at};
use crate::numbers::{
    INFO_BLOCK_SIZE, INFO_EXPORT, MAX_BLOCK, PREFERRED_BLOCK, REPLY_ERROR_INVALID,
    REPLY_ERROR_UNKNOWN,
};
use geo_base::Name;

/// A provider that is offered by its name: its bytes, its sector size in bytes, which is the least block, and its
/// flags.
#[derive(Clone, Copy, Debug, PartialEq, Eq)]
pub struct Export {
    pub name: Name,
    pub size: u64,
    pub sector: u32,
    pub flags: u16,
}

/// Whether an export is meant by this name, of which the empty one is each one's.
fn is_meant(export: &Export, name: &[u8]) -> bool
    ensures { result ≡ is_meant name.now export.now }
{
    name.len() == 0 || export.name.bytes() == name
}

/// The first export that is meant by this name.
pub fn export_of(exports: &[Export], name: &[u8]) -> Option<Export>
    ensures { result ≡ export_of exports.now name.now }
{
    for export in exports {
        if is_meant(export, name) {
            return Some(*export);
        }
    }
    None
}

/// How long the name is in the data of INFO and GO; None exactly where they have another form.
fn name_len(bytes: &[u8]) -> Option<usize>
    ensures len { result ≡ name_len bytes.now }
    ensures within { IfSome result (λ n. n + 6 ≤ length bytes.now) }
{
    if bytes.len() < 6 {
        return None;
    }
    let len = u32_at(bytes, 0) as usize;
    if bytes.len() < len + 6 {
        return None;
    }
    let asked = u16_at(bytes, len + 4) as usize;
    if bytes.len() == len + 6 + 2 * asked {
        Some(len)
    } else {
        None
    }
}

/// The export that the data of INFO and GO names, or the error.
pub fn export_asked(exports: &[Export], bytes: &[u8]) -> Result<Export, u32>
    ensures { result ≡ export_asked exports.now bytes.now }
{
    let Some(len) = name_len(bytes) else {
        return Err(REPLY_ERROR_INVALID);
    };
    match export_of(exports, &bytes[4..4 + len]) {
        Some(export) => Ok(export),
        None => Err(REPLY_ERROR_UNKNOWN),
    }
}

/// Its size and its flags, as an INFO reply tells them.
pub fn export_info(export: &Export) -> [u8; 12]
    ensures { result ≡ export_info export.now }
{
    let mut bytes = [0; 12];
    put_u16(&mut bytes, 0, INFO_EXPORT);
    put_u64(&mut bytes, 2, export.size);
    put_u16(&mut bytes, 10, export.flags);
    bytes
}

/// Its block sizes: the least, the preferred and the greatest.
pub fn block_info(export: &Export) -> [u8; 14]
    ensures { result ≡ block_info export.now }
{
    let mut bytes = [0; 14];
    put_u16(&mut bytes, 0, INFO_BLOCK_SIZE);
    put_u32(&mut bytes, 2, export.sector);
    put_u32(&mut bytes, 6, PREFERRED_BLOCK);
    put_u32(&mut bytes, 10, MAX_BLOCK);
    bytes
}

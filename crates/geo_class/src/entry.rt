//! Entries of a partition table, and the signature behind them.
ghost use Rattle.std.specs.Prelude.{◌≡◌, ◌+◌, ◌<◌, ◌≤◌, length};
ghost use Rattle.geo_model.specs.Records.{entry_start, entry_type, has_signature, u32_at};

use crate::field::u32_at;

/// Where the first entry begins.
const ENTRIES: usize = 446;

/// How many bytes an entry has.
const ENTRY: usize = 16;

/// The type of an entry, counted from 0; 0 for none.
pub fn entry_type(sector: &[u8], entry: usize) -> u8
    requires few { entry < 4 }
    requires room { 512 ≤ length sector.now }
    ensures { result ≡ entry_type sector.now entry }
{
    sector[ENTRIES + ENTRY * entry + 4]
}

/// The first sector of an entry, counted from 0.
pub fn entry_first(sector: &[u8], entry: usize) -> u32
    requires few { entry < 4 }
    requires room { 512 ≤ length sector.now }
    ensures { result ≡ u32_at sector.now (entry_start entry + 8) }
{
    u32_at(sector, ENTRIES + ENTRY * entry + 8)
}

/// The number of sectors of an entry, counted from 0.
pub fn entry_count(sector: &[u8], entry: usize) -> u32
    requires few { entry < 4 }
    requires room { 512 ≤ length sector.now }
    ensures { result ≡ u32_at sector.now (entry_start entry + 12) }
{
    u32_at(sector, ENTRIES + ENTRY * entry + 12)
}

/// Whether the sector ends with 0x55, 0xAA.
pub fn has_signature(sector: &[u8]) -> bool
    requires { 512 ≤ length sector.now }
    ensures { result ≡ has_signature sector.now }
{
    sector[510] == 0x55 && sector[511] == 0xAA
}

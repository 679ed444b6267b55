//! Fields of a sector.
ghost use Rattle.std.specs.Prelude.{◌≡◌, ◌+◌, ◌-◌, ◌≤◌, ◌++◌, length, take, drop, replicate};
ghost use Rattle.std.specs.Int.{to_le_bytes, w16, w32, w64};
ghost use Rattle.geo_model.specs.Records.{padded, u16_at, u32_at, u64_at};

use byteorder::{ByteOrder, LittleEndian};

/// The number in the 2 bytes at `offset`.
pub fn u16_at(sector: &[u8], offset: usize) -> u16
    requires { offset + 2 ≤ length sector.now }
    ensures { result ≡ u16_at sector.now offset }
{
    LittleEndian::read_u16(&sector[offset..])
}

/// The number in the 4 bytes at `offset`.
pub fn u32_at(sector: &[u8], offset: usize) -> u32
    requires { offset + 4 ≤ length sector.now }
    ensures { result ≡ u32_at sector.now offset }
{
    LittleEndian::read_u32(&sector[offset..])
}

/// The number in the 8 bytes at `offset`.
pub fn u64_at(sector: &[u8], offset: usize) -> u64
    requires { offset + 8 ≤ length sector.now }
    ensures { result ≡ u64_at sector.now offset }
{
    LittleEndian::read_u64(&sector[offset..])
}

/// Writes bytes behind the first `offset`, where the sector is zero.
pub fn put_bytes(sector: &mut [u8], offset: usize, bytes: &[u8])
    requires room { offset + length bytes.now ≤ length sector.old }
    requires free { drop offset sector.old ≡ replicate (length sector.old - offset) 0 }
    ensures { sector.new ≡ padded (length sector.old) (take offset sector.old ++ bytes.now) }
{
    sector[offset..offset + bytes.len()].copy_from_slice(bytes);
}

/// Writes a number of 2 bytes behind the first `offset`, where the sector is zero.
pub fn put_u16(sector: &mut [u8], offset: usize, number: u16)
    requires room { offset + 2 ≤ length sector.old }
    requires free { drop offset sector.old ≡ replicate (length sector.old - offset) 0 }
    ensures { sector.new ≡ padded (length sector.old) (take offset sector.old ++ to_le_bytes w16 number) }
{
    LittleEndian::write_u16(&mut sector[offset..], number);
}

/// Writes a number of 4 bytes behind the first `offset`, where the sector is zero.
pub fn put_u32(sector: &mut [u8], offset: usize, number: u32)
    requires room { offset + 4 ≤ length sector.old }
    requires free { drop offset sector.old ≡ replicate (length sector.old - offset) 0 }
    ensures { sector.new ≡ padded (length sector.old) (take offset sector.old ++ to_le_bytes w32 number) }
{
    LittleEndian::write_u32(&mut sector[offset..], number);
}

/// Writes a number of 8 bytes behind the first `offset`, where the sector is zero.
pub fn put_u64(sector: &mut [u8], offset: usize, number: u64)
    requires room { offset + 8 ≤ length sector.old }
    requires free { drop offset sector.old ≡ replicate (length sector.old - offset) 0 }
    ensures { sector.new ≡ padded (length sector.old) (take offset sector.old ++ to_le_bytes w64 number) }
{
    LittleEndian::write_u64(&mut sector[offset..], number);
}

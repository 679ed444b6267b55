//! Numbers in bytes, the highest byte first.
ghost use Rattle.std.specs.Prelude.{◌≡◌, ◌+◌, ◌≤◌, length};
ghost use Rattle.byteorder.specs.Endian.{big_bytes};
ghost use Rattle.geo_nbd.specs.Fields.{number_at, put};

use byteorder::{BigEndian, ByteOrder};

/// The number in the 2 bytes from place `at` on.
pub fn u16_at(bytes: &[u8], at: usize) -> u16
    requires { at + 2 ≤ length bytes.now }
    ensures { result ≡ number_at 2 at bytes.now }
{
    BigEndian::read_u16(&bytes[at..])
}

/// The number in the 4 bytes from place `at` on.
pub fn u32_at(bytes: &[u8], at: usize) -> u32
    requires { at + 4 ≤ length bytes.now }
    ensures { result ≡ number_at 4 at bytes.now }
{
    BigEndian::read_u32(&bytes[at..])
}

/// The number in the 8 bytes from place `at` on.
pub fn u64_at(bytes: &[u8], at: usize) -> u64
    requires { at + 8 ≤ length bytes.now }
    ensures { result ≡ number_at 8 at bytes.now }
{
    BigEndian::read_u64(&bytes[at..])
}

/// Writes a number over the 2 bytes from place `at` on.
pub fn put_u16(bytes: &mut [u8], at: usize, number: u16)
    requires { at + 2 ≤ length bytes.old }
    ensures { bytes.new ≡ put at 2 (big_bytes 2 number) bytes.old }
{
    BigEndian::write_u16(&mut bytes[at..], number);
}

/// Writes a number over the 4 bytes from place `at` on.
pub fn put_u32(bytes: &mut [u8], at: usize, number: u32)
    requires { at + 4 ≤ length bytes.old }
    ensures { bytes.new ≡ put at 4 (big_bytes 4 number) bytes.old }
{
    BigEndian::write_u32(&mut bytes[at..], number);
}

/// Writes a number over the 8 bytes from place `at` on.
pub fn put_u64(bytes: &mut [u8], at: usize, number: u64)
    requires { at + 8 ≤ length bytes.old }
    ensures { bytes.new ≡ put at 8 (big_bytes 8 number) bytes.old }
{
    BigEndian::write_u64(&mut bytes[at..], number);
}

//! What the record of a component says behind its head: the id of its geom, its place, and the count of places.
ghost use Rattle.std.specs.Prelude.{◌≡◌, ◌-◌, ◌≤◌, ◌++◌, length, take, drop, replicate};
ghost use Rattle.std.specs.Int.{to_le_bytes, w16, w32};
ghost use Rattle.geo_model.specs.Records.{padded};
ghost use Rattle.geo_class.specs.Head.{is_place};

use crate::field::{put_u16, put_u32};
use geo_base::MAX_COMPONENTS;

/// Whether a place is one of the places of a geom, of which there are 1 to 16.
pub fn is_place(place: u16, count: u16) -> bool
    ensures { result ≡ is_place place count }
{
    1 <= count && usize::from(count) <= MAX_COMPONENTS && place < count
}

/// Writes id, place and count behind a head, where the sector is zero.
pub fn put_component(sector: &mut [u8], id: u32, place: u16, count: u16)
    requires room { 44 ≤ length sector.old }
    requires free { drop 36 sector.old ≡ replicate (length sector.old - 36) 0 }
    ensures { sector.new
        ≡ padded (length sector.old) (take 36 sector.old
        ++ (to_le_bytes w32 id ++ (to_le_bytes w16 place ++ to_le_bytes w16 count))) }
{
    put_u32(sector, 36, id);
    put_u16(sector, 40, place);
    put_u16(sector, 42, count);
}

//! What stands in the sectors of a provider: tables, and chains of links.

/// What a provider holds.
#[derive(Clone, Copy)]
pub enum Medium {
    /// Zero bytes.
    Blank,
    /// A table in sector 0, with an entry of this type, first sector and number of sectors at each of two places.
    Table([(u8, u32, u32); 2]),
    /// So many links, one in each second sector, with a partition of one sector each; what leads on is of this type,
    /// and the last link leads to another sector, or to none where that is 0.
    Chain { links: u32, kind: u8, last: u32 },
}

/// A table with these two entries.
pub fn table_of(entries: [(u8, u32, u32); 2]) -> [u8; 512] {
    let mut sector = [0u8; 512];
    let (kind, first, count) = entries[0];
    sector[450] = kind;
    sector[454..458].copy_from_slice(&first.to_le_bytes());
    sector[458..462].copy_from_slice(&count.to_le_bytes());
    let (kind, first, count) = entries[1];
    sector[466] = kind;
    sector[470..474].copy_from_slice(&first.to_le_bytes());
    sector[474..478].copy_from_slice(&count.to_le_bytes());
    sector[510] = 0x55;
    sector[511] = 0xAA;
    sector
}

/// The link at a sector of a chain, zero bytes where none is.
fn link_at(sector: u32, links: u32, kind: u8, last: u32) -> [u8; 512] {
    let number = sector / 2;
    if sector % 2 != 0 || number >= links {
        return [0; 512];
    }
    let on = if links - number > 1 {
        sector.saturating_add(2)
    } else {
        last
    };
    table_of([(0x83, 1, 1), (if on == 0 { 0 } else { kind }, on, 1)])
}

/// The bytes of a sector.
pub fn sector_of(medium: Medium, sector: u64) -> [u8; 512] {
    match medium {
        Medium::Blank => [0; 512],
        Medium::Table(entries) => {
            if sector == 0 {
                table_of(entries)
            } else {
                [0; 512]
            }
        }
        Medium::Chain { links, kind, last } => {
            if sector < 1_048_576 {
                link_at(sector as u32, links, kind, last)
            } else {
                [0; 512]
            }
        }
    }
}

//! Where a bio goes that waits for its disk, and how many bytes it gives.
ghost use Rattle.std.specs.Prelude.{◌≡◌, ◌<◌, ◌^◌, IsTrue};
ghost use Rattle.geo_model.specs.Words.{is_read};
ghost use Rattle.geo_bio.specs.Rows.{as_bio as bio_seen};
ghost use Rattle.geo_moves.specs.Spots.{bytes_read, spot_in};

use crate::disk::{disk_at, sector_at};
use geo_base::BioCmd;
use geo_bio::Bio;
use geo_class::Config;
use geo_mesh::Topo;
use geo_model::Phase;

/// What a bio that waits for its disk will have the disk asked for: its command, and the sector at which it begins.
#[derive(Clone, Copy, Debug, PartialEq, Eq)]
pub struct Spot {
    /// The disk, as the header numbers them from 0.
    pub disk: u32,
    /// The command.
    pub cmd: BioCmd,
    /// The first sector.
    pub first: u64,
}

/// Where a bio goes that waits for its disk: Some exactly where it is Sent.
pub fn spot_in(topo: &Topo<Config>, bio: &Bio) -> Option<Spot>
    ensures { result ≡ spot_in topo.now.topology (bio_seen 0 bio.now) }
{
    if !matches!(bio.phase, Phase::Sent) {
        return None;
    }
    match disk_at(topo, bio.to) {
        Some(disk) => Some(Spot {
            disk,
            cmd: bio.cmd,
            first: bio.span.offset / u64::from(sector_at(topo, bio.to)),
        }),
        None => None,
    }
}

/// How many bytes a bio gives if it is a READ, else 0.
pub fn bytes_read(bio: &Bio) -> u32
    requires { IsTrue (is_read bio.now.cmd) → bio.now.span.len < 2 ^ 32 }
    ensures { result ≡ bytes_read bio.now.cmd bio.now.span.len }
{
    match bio.cmd {
        BioCmd::Read => bio.span.len as u32,
        _ => 0,
    }
}

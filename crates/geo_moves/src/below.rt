//! The providers that a command names.
ghost use Rattle.std.specs.Prelude.{◌≡◌, ◌≤◌, ◌++◌, map, IfOk, OnOk};
ghost use Rattle.std.specs.Option.{option_map, option_to_list};
ghost use Rattle.geo_model.specs.GeomCommands.{found_providers};
ghost use Rattle.geo_moves.specs.Below.{any_errored, below_seen, have_sector, provider_named, rank_below, sector_below};

use geo_base::{Name, NoMemory, ProvId};
use geo_class::Config;
use geo_mesh::Topo;
use std::alloc::Global;

/// The sector size where there is no provider.
const SECTOR: u32 = 512;

/// A provider that a command names: its number, its media size and sector size in bytes, whether it carries an error,
/// and the rank of its geom.
#[derive(Clone, Copy, Debug)]
pub struct Below {
    pub prov: ProvId,
    pub size: u64,
    pub sector: u32,
    pub errored: bool,
    pub rank: u32,
}

/// The provider of a name: the one without an error, else the one with the greatest number.
pub fn below_named(topo: &Topo<Config>, name: &Name) -> Option<Below>
    ensures { result ≡ option_map (below_seen topo.now.topology) (provider_named topo.now.topology name.now) }
{
    let prov = topo.find(name)?;
    let found = topo.provider(prov)?;
    let Some(rank) = topo.rank(found.geom) else {
        unreachable!()
    };
    Some(Below {
        prov,
        size: found.size,
        sector: found.sector,
        errored: found.errored,
        rank,
    })
}

// Adds the provider, if there is one.
fn push_some(list: &mut Vec<Below>, found: Option<Below>) -> Result<(), NoMemory>
    ensures { OnOk result (list.new.items ≡ list.old.items ++ option_to_list found) }
{
    if let Some(below) = found {
        list.push(below)?;
    }
    Ok(())
}

/// The providers of the names, in order, as far as they are found.
pub fn all_named(alloc: Global, topo: &Topo<Config>, names: &[Name]) -> Result<Vec<Below>, NoMemory>
    ensures { IfOk result (λ list.
        list.items ≡ map (below_seen topo.now.topology) (found_providers topo.now.topology names.now)) }
{
    let mut list = Vec::new(alloc);
    for name in names {
        push_some(&mut list, below_named(topo, name))?;
    }
    Ok(list)
}

/// The sector size of the first of them.
pub fn sector_below(below: &[Below]) -> u32
    ensures { result ≡ sector_below below.now }
{
    match below {
        [] => SECTOR,
        [first, ..] => first.sector,
    }
}

/// Whether one of them carries an error.
pub fn any_errored(below: &[Below]) -> bool
    ensures { result ≡ any_errored below.now }
{
    below.iter().any(|x| x.errored)
}

/// Whether all have this sector size.
pub fn have_sector(sector: u32, below: &[Below]) -> bool
    ensures { result ≡ have_sector sector below.now }
{
    below.iter().all(|x| x.sector == sector)
}

/// The greatest rank of their geoms, 0 where there is none.
pub fn rank_below(below: &[Below]) -> u32
    ensures { result ≡ rank_below below.now }
{
    match below {
        [] => 0,
        [first, rest @ ..] => first.rank.max(rank_below(rest)),
    }
}

//! The pieces of a request, and where they go.
ghost use Rattle.std.specs.Prelude.{◌≡◌, true, false, IfOk, map, unwrap_or};
ghost use Rattle.geo_model.specs.Topology.{provider_of_consumer};
ghost use Rattle.geo_model.specs.Bios.{piece_targets};
ghost use Rattle.geo_model.specs.Words.{is_flush};
ghost use Rattle.geo_bio.specs.Rows.{as_bio};
ghost use Rattle.geo_mesh.specs.Cells.{provider_seen};
ghost use Rattle.geo_moves.specs.Ways.{CanBeCut, IsCut, through};

use geo_base::{BioCmd, ConsId, NoMemory, ProvId};
use geo_bio::{Bio, Targets};
use geo_class::{Config, Media, PieceList};
use geo_mesh::{ProvRec, Topo};
use std::alloc::Global;

/// The pieces of a request, and for each the consumer through which it goes down and the provider to which it goes.
#[derive(Debug, Drop)]
pub struct Cut {
    pub pieces: PieceList,
    pub targets: Targets,
}

/// The pieces of a request to a geom's provider: a FLUSH goes once through each component, another request is cut by
/// the geom's address map.
pub fn cut_bio(
    alloc: Global,
    topo: &Topo<Config>,
    config: &Config,
    prov: &ProvRec,
    bio: &Bio,
) -> Result<Cut, NoMemory>
    requires { CanBeCut config.now (provider_seen bio.now.to prov.now) (as_bio 0 bio.now) }
    ensures { IfOk result (λ cut. IsCut topo.now.topology cut
        (piece_targets config.now (provider_seen bio.now.to prov.now) (as_bio 0 bio.now))) }
{
    match bio.cmd {
        BioCmd::Flush => cut_flush(alloc, topo, config, prov, bio),
        _ => cut_range(alloc, topo, config, prov, bio),
    }
}

// The pieces of a FLUSH.
fn cut_flush(
    alloc: Global,
    topo: &Topo<Config>,
    config: &Config,
    prov: &ProvRec,
    bio: &Bio,
) -> Result<Cut, NoMemory>
    requires { is_flush bio.now.cmd ≡ true }
    ensures { IfOk result (λ cut. IsCut topo.now.topology cut
        (piece_targets config.now (provider_seen bio.now.to prov.now) (as_bio 0 bio.now))) }
{
    let pieces = config.flush(alloc)?;
    let consumers = config.components(alloc)?;
    let targets = targets_of(alloc, topo, &consumers)?;
    Ok(Cut { pieces, targets })
}

// The pieces of another request.
fn cut_range(
    alloc: Global,
    topo: &Topo<Config>,
    config: &Config,
    prov: &ProvRec,
    bio: &Bio,
) -> Result<Cut, NoMemory>
    requires moves { is_flush bio.now.cmd ≡ false }
    requires cut { CanBeCut config.now (provider_seen bio.now.to prov.now) (as_bio 0 bio.now) }
    ensures { IfOk result (λ cut. IsCut topo.now.topology cut
        (piece_targets config.now (provider_seen bio.now.to prov.now) (as_bio 0 bio.now))) }
{
    let media = Media {
        name: prov.name,
        size: prov.size,
        sector: prov.sector,
    };
    let pieces = config.split(alloc, &media, bio.span)?;
    let consumers = config.consumers(alloc, pieces.items())?;
    let targets = targets_of(alloc, topo, consumers.as_slice())?;
    Ok(Cut { pieces, targets })
}

// Consumers with the providers to which they are attached.
fn targets_of(alloc: Global, topo: &Topo<Config>, consumers: &[ConsId]) -> Result<Targets, NoMemory>
    ensures { IfOk result (λ list. list.items ≡ map (through topo.now.topology) consumers.now) }
{
    let mut targets = Targets::new(alloc);
    targets.reserve(consumers.len() as u64)?;
    for cons in consumers {
        targets.push((*cons, below(topo, *cons)));
    }
    Ok(targets)
}

// The provider to which a consumer is attached; nobody's number for one that isn't.
fn below(topo: &Topo<Config>, cons: ConsId) -> ProvId
    ensures { result ≡ unwrap_or (provider_of_consumer topo.now.topology cons) 0 }
{
    match topo.consumer(cons) {
        Some(consumer) => consumer.prov.unwrap_or(ProvId::new(0)),
        None => ProvId::new(0),
    }
}

//! Providers and consumers of a geom as they are printed.
ghost use Rattle.std.specs.Prelude.{◌≡◌, [], IfOk, IsSome, option_and_then};
ghost use Rattle.std.specs.Option.{option_map_or};
ghost use Rattle.geo_model.specs.Steady.{AreAttached};
ghost use Rattle.geo_model.specs.Topology.{provider_at};
ghost use Rattle.geo_access.specs.Access.{IsCounted, granted_by};
ghost use Rattle.geo_moves.specs.Lines.{cons_lines, prov_lines, stored_line};

use geo_access::{consumer_of, provider_of};
use geo_base::{GeomId, Name, NoMemory};
use geo_class::Config;
use geo_mesh::{ConsRec, ProvRec, Topo};
use geo_model::{ConsLine, ConsLines, ProvLine, ProvLines};
use std::alloc::Global;

/// The providers of a geom as they are printed, in order of numbers.
pub fn prov_lines(alloc: Global, topo: &Topo<Config>, geom: GeomId) -> Result<ProvLines, NoMemory>
    requires { IsCounted topo.now }
    ensures { IfOk result (λ lines. lines ≡ prov_lines (granted_by topo.now) topo.now.topology geom) }
{
    let mut lines = ProvLines::new(alloc);
    let mut from = 0;
    while let Some((id, prov)) = provider_of(topo, geom, from) {
        lines.push(prov_line(&prov))?;
        from = id.number() + 1;
    }
    Ok(lines)
}

// A provider as it is printed.
fn prov_line(prov: &ProvRec) -> ProvLine
    ensures { result ≡ stored_line prov.now }
{
    ProvLine {
        name: prov.name,
        size: prov.size,
        sector: prov.sector,
        counts: prov.have,
        errored: prov.errored,
    }
}

/// The consumers of a geom as they are printed, in order of numbers. Each is attached.
pub fn cons_lines(alloc: Global, topo: &Topo<Config>, geom: GeomId) -> Result<ConsLines, NoMemory>
    requires counted { IsCounted topo.now }
    requires attached { AreAttached topo.now.topology }
    ensures { IfOk result (λ lines. lines ≡ cons_lines (granted_by topo.now) topo.now.topology geom) }
{
    let mut lines = ConsLines::new(alloc);
    let mut from = 0;
    while let Some((id, cons)) = consumer_of(topo, geom, from) {
        let prov = name_below(topo, &cons);
        lines.push(ConsLine {
            prov,
            counts: cons.want,
        })?;
        from = id.number() + 1;
    }
    Ok(lines)
}

// The name of the provider to which a consumer is attached.
fn name_below(topo: &Topo<Config>, cons: &ConsRec) -> Name
    requires { IsSome (option_and_then (provider_at topo.now.topology) cons.now.prov) }
    ensures { result
        ≡ option_map_or (λ p. p.name) (option_and_then (provider_at topo.now.topology) cons.now.prov) [] }
{
    let Some(prov) = cons.prov else {
        unreachable!()
    };
    let Some(found) = topo.provider(prov) else {
        unreachable!()
    };
    found.name
}

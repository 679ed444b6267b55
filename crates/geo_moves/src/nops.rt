//! Nops: a window of a provider, some of whose requests fail (gnop(8)).
ghost use Rattle.std.specs.Prelude.{◌≡◌, List, IfOk, OnErr};
ghost use Rattle.geo_model.specs.declared.step.Entry.{Entry};
ghost use Rattle.geo_model.specs.Names.{nop_name};
ghost use Rattle.geo_model.specs.GeomCommands.{do_nop, found_provider};
ghost use Rattle.geo_state.specs.Holds.{Holds};
ghost use Rattle.geo_state.specs.Steps.{Does, SameWorld, Stands};
ghost use Rattle.geo_state.specs.World.{HasBytes};
ghost use Rattle.geo_laws_texts.specs.Naming.{HaveNames};

use crate::below::below_named;
use crate::makes::make;
use crate::refusals::nop_refusal;
use crate::reply::{done, refused};
use geo_base::{Errno, Kind, Name, NoMemory};
use geo_class::Config;
use geo_model::Outcome;
use geo_state::State;
use geo_taste::{NewGeom, Offer};

/// A nop over the provider of a name, whose window of `size` bytes begins at `offset`, both in bytes; `fail` says which
/// of its requests fail. ENOENT where there is no provider of the name, else what `nop_refusal` says. After `NoMemory`
/// all is as before.
pub fn nop(
    state: &mut State,
    line: u32,
    prov: &Name,
    offset: u64,
    size: u64,
    fail: u64,
) -> Result<Outcome, NoMemory>
    requires stands { Stands state.old }
    requires named { HaveNames state.old.topo.topology }
    ensures does { (log : List Entry) → IfOk result (λ o.
        Does (λ w. do_nop w line (nop_name prov.now) offset size fail (found_provider w prov.now)) log
        state.old state.new o) }
    ensures same { OnErr result (SameWorld state.old state.new) }
    ensures kept { Holds state.new }
    ensures logged { (log : List Entry) → HasBytes log state.old → HasBytes log state.new }
{
    let Some(below) = below_named(&state.topo, prov) else {
        return Ok(refused(line, Errno::ENOENT));
    };
    let name = prov.with_tail(b".nop").ok();
    if let Some(errno) = nop_refusal(&state.topo, &below, &name, offset, size) {
        return Ok(refused(line, errno));
    }
    let Some(name) = name else { unreachable!() };
    let consumer = state.topo.coming_consumer();
    let config = Config::nop(Some(consumer), offset, fail);
    let geom = NewGeom {
        kind: Kind::Nop,
        name,
        config,
    };
    let offer = Offer {
        name,
        size,
        sector: below.sector,
    };
    make(state, geom, &[below.prov], &offer)?;
    Ok(done(line))
}

//! The read of a taste, which is a bio from then on (geom(4), g_bio(9)).
ghost use Rattle.std.specs.Prelude.{◌≡◌, ◌*◌, ◌/◌, ◌<◌, ◌≤◌, List, Some, IsSomeAnd};
ghost use Rattle.std.specs.Option.{option_map_or};
ghost use Rattle.geo_model.specs.declared.step.Entry.{Entry};
ghost use Rattle.geo_model.specs.declared.step.Outcome.TheVariants as outcomes;
ghost use Rattle.geo_model.specs.Topology.{provider_at};
ghost use Rattle.geo_slots.specs.Slots.{value_at};
ghost use Rattle.geo_state.specs.Bios.{IsNoHandles};
ghost use Rattle.geo_state.specs.Holds.{Holds};
ghost use Rattle.geo_state.specs.World.{HasBytes};
ghost use Rattle.geo_moves.specs.Judging.{HasSector, HasSubmitted, with_taste};

use geo_base::{BioCmd, ProvId, SharedBytes};
use geo_class::{Config, Taste};
use geo_mesh::Topo;
use geo_model::{Outcome, Span};
use geo_state::{NewBio, State, submit_read};
use std::alloc::Global;

/// The read of a sector, which was granted to the taste, is submitted, in room that was kept. The state has the taste
/// from then on.
pub fn read_next(alloc: Global, state: &mut State, taste: Taste, sector: u64) -> Outcome
    requires kept { Holds (with_taste state.old taste) }
    requires none_out { state.old.read ≡ None }
    requires through { IsNoHandles state.old taste.consumer }
    requires idle { value_at state.old.topo.active taste.consumer ≡ Some 0 }
    requires bio { 1 ≤ state.old.traffic.spare }
    requires inside { HasSector state.old taste sector }
    ensures outcome { result ≡ outcomes.Reading state.old.traffic.next }
    ensures submitted { HasSubmitted state.old state.new taste sector }
    ensures kept { Holds state.new }
    ensures logged { (log : List Entry) → HasBytes log state.old → HasBytes log state.new }
{
    let from = taste.consumer();
    let to = taste.provider();
    let span = sector_span(&state.topo, to, sector);
    state.taste = Some(taste);
    let bio = NewBio {
        cmd: BioCmd::Read,
        span,
        bytes: SharedBytes::none(alloc),
        from,
        to,
    };
    let Ok(bio) = submit_read(state, bio) else {
        unreachable!();
    };
    Outcome::Reading { bio }
}

// The bytes of a sector of a provider.
fn sector_span(topo: &Topo<Config>, prov: ProvId, sector: u64) -> Span
    requires { IsSomeAnd (provider_at topo.now.topology prov) (λ p. sector < p.size / p.sector) }
    ensures { let size = option_map_or (λ p. p.sector) (provider_at topo.now.topology prov) 512 in
        result ≡ record { offset = sector * size; len = size } }
{
    let Some(found) = topo.provider(prov) else {
        unreachable!();
    };
    let size = u64::from(found.sector);
    Span {
        offset: sector * size,
        len: size,
    }
}

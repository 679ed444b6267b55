//! Changes of one bio among the rows of a table.
ghost use Rattle.std.specs.Prelude.{◌≡◌, MatchOption, Some};
ghost use Rattle.geo_slots.specs.Slots.{value_at, with_value};
ghost use Rattle.geo_bio.specs.Rows.{at_phase, up_holding};

use crate::bio::{Bio, Held};
use geo_model::Phase;
use geo_slots::Slots;

// The bio of a number, if there is one, comes to a phase.
pub fn set_phase(bios: &mut Slots<Bio>, number: u64, phase: Phase)
    ensures { MatchOption (value_at bios.old.rows number) (bios.new ≡ bios.old) (λ x.
        bios.new ≡ record bios.old { rows = with_value bios.old.rows number (at_phase phase x) }) }
{
    if let Some(bio) = bios.get_mut(number) {
        bio.phase = phase;
    }
}

// The bio of a number, if there is one, goes up with what it holds.
pub fn end_with(bios: &mut Slots<Bio>, number: u64, held: Held)
    ensures { MatchOption (value_at bios.old.rows number) (bios.new ≡ bios.old) (λ x.
        bios.new ≡ record bios.old { rows = with_value bios.old.rows number (up_holding held x) }) }
{
    if let Some(bio) = bios.get_mut(number) {
        bio.phase = Phase::Up;
        bio.held = Some(held);
    }
}

//! The requests of each actor's own lines.
ghost use Rattle.std.specs.Prelude.{◌≡◌, ◌<◌, ◌≤◌, ◌^◌, IfSome, slice_get};
ghost use Rattle.geo_state.specs.Own.{entered, left_by};

use crate::state::OwnBios;

/// One more request of the actor is out.
pub fn enter(own: &mut Vec<OwnBios>, actor: u32, number: u64)
    requires few { IfSome (slice_get own.old.items actor) (λ x. x.count < 2 ^ 63) }
    ensures { own.new.items ≡ entered own.old.items actor number }
{
    if let Some(bios) = own.get_mut(actor as usize) {
        bios.low = if bios.count == 0 {
            number
        } else {
            bios.low.min(number)
        };
        bios.count += 1;
    }
}

/// One request of the actor is out no more.
pub fn leave(own: &mut Vec<OwnBios>, actor: u32)
    requires some { IfSome (slice_get own.old.items actor) (λ x. 1 ≤ x.count) }
    ensures { own.new.items ≡ left_by own.old.items actor }
{
    if let Some(bios) = own.get_mut(actor as usize) {
        bios.count -= 1;
    }
}

//! Tickets that are put.
ghost use Rattle.std.specs.Prelude.{◌≡◌, ◌<◌, ◌-◌, ◌^◌, MatchBool, length};
ghost use Rattle.geo_jobs.specs.Putting.{PutIt, PutsOne, WasFull};

use geo_lane::{Lane, LanePass, Ticket, TicketStep};
use std::sync::Wait;
use std::thread;

// How often a ticket is tried once more, with the processor yielded before each try.
const TRIES: u32 = 256;

// After so many refusals in a row nobody seems to take tickets, and none is tried once more.
const PATIENCE: u32 = 4 * TRIES;

/// Puts the next ticket of a pass into its lane. It may wait for another ticket that is being put or taken. Where the
/// lane stays full for some tries the ticket is dropped.
pub fn put<R: Wait>(rt: &R, lane: &Lane, pass: &mut LanePass, step: TicketStep)
    requires own { pass.old.lane ≡ lane.now }
    requires room { length pass.old.put < 2 ^ 64 - 1 }
    ensures put { PutsOne pass.old step pass.new }
{
    if try_put(rt, lane, pass, &step) {
        return;
    }
    for _ in 0..more_tries(pass) {
        thread::yield_now();
        if try_put(rt, lane, pass, &step) {
            return;
        }
    }
}

// Puts the next ticket of a pass into its lane, or says that it didn't.
fn try_put<R: Wait>(rt: &R, lane: &Lane, pass: &mut LanePass, step: &TicketStep) -> bool
    requires own { pass.old.lane ≡ lane.now }
    requires room { length pass.old.put < 2 ^ 64 - 1 }
    ensures { MatchBool result (PutIt pass.old step.now pass.new) (WasFull pass.old pass.new) }
{
    let ticket = Ticket {
        sender: pass.sender(),
        number: pass.put_so_far(),
        step: *step,
    };
    lane.put(rt, pass, ticket).is_ok()
}

// How often a pass tries to put a ticket once more. The pass 0 alone takes, so to wait for room in its own lane is in
// vain.
fn more_tries(pass: &LanePass) -> u32 {
    if pass.sender() == 0 || pass.refusals() >= PATIENCE {
        0
    } else {
        TRIES
    }
}

//! A lane that is full of tickets for bios that don't come.
ghost use Rattle.std.specs.Prelude.{◌≡◌, ◌<◌, ◌^◌, []};
ghost use Rattle.geo_lane.specs.LanePass.{IsSamePass};
ghost use Rattle.geo_tests_jobs.specs.Benches.{IsTaker};

use crate::bench::putter;
use geo_base::BioId;
use geo_lane::{Lane, LanePass, Ticket, TicketStep};
use std::sync::Wait;

/// Above the number of each bio of the script.
const NO_BIO: u64 = 1_000_000;

// Puts tickets to start so many bios. Those for which the lane has no place are dropped.
fn put_all<R: Wait>(rt: &R, lane: &Lane, pass: &mut LanePass, count: u64)
    requires own { pass.old.lane ≡ lane.now }
    requires fresh { pass.old.put ≡ [] }
    requires few { count < 2 ^ 32 }
    ensures { IsSamePass pass.old pass.new }
{
    for bio in 0..count {
        let ticket = Ticket {
            sender: pass.sender(),
            number: pass.put_so_far(),
            step: TicketStep::Start(BioId::new(NO_BIO + bio)),
        };
        let _ = lane.put(rt, pass, ticket);
    }
}

/// Fills a lane by one more pass, and tells how many tickets it had room for.
pub fn fill<R: Wait + AllocGlobal>(rt: &R, lane: &Lane, taker: &mut LanePass) -> u64
    requires { IsTaker lane.now 0 taker.old }
    ensures { IsTaker lane.now 1 taker.new }
{
    let mut pass = putter(rt, lane, taker);
    put_all(rt, lane, &mut pass, 1025);
    pass.put_so_far()
}

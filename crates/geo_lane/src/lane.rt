//! A bounded queue of tickets.
ghost use Rattle.std.specs.Prelude.{◌≡◌, ◌≢◌, ◌+◌, ◌-◌, ◌<◌, ◌^◌, [], ◌∷◌, ◌++◌, length, IsOk, IfOk, IfErr, OnErr, IfSome, IfNone, MatchOption};
ghost use mathlib.Core.List.{IsPrefix};
ghost use Rattle.crossbeam_queue.specs.Fifo.{Held};
ghost use Rattle.geo_lane.specs.Ticket.{sent_by};
ghost use Rattle.geo_lane.specs.Delivery.{Tells, HasTakenAll, IsInOrder};
ghost use Rattle.geo_lane.specs.LanePass.{first_pass, next_pass, view_of, sent_of};

use crate::delivery::{Another, Delivery, Ended, PutOne, TakeOne};
use crate::lane_pass::LanePass;
use crate::ticket::Ticket;
use crate::view::View;
use crossbeam_queue::RuledArrayQueue;
use geo_base::{LANE_TICKETS, NoMemory};
use std::marker::Model;
use std::sync::Wait;
use thiserror::Error;

/// A queue with room for 1,024 tickets, from many senders to one taker. Contracts see which lane it is.
#[derive(Drop)]
pub struct Lane {
    tickets: RuledArrayQueue<Ticket, View, Delivery>,
}

impl Model for Lane {
    ghost use Rattle.std.specs.Prelude.{◌≡◌};
    ghost use Rattle.atomic_table.specs.Seated.{TableId};
    ghost use Rattle.crossbeam_queue.specs.Passes.{ruled_capacity};
    ghost use Rattle.geo_base.specs.declared.limits.TheConstants.{LANE_TICKETS};

    ghost Value = { TableId };

    ghost view = { λ l. l.tickets.table.shared.table_id };

    ghost invariant = { λ l. ruled_capacity l.tickets ≡ LANE_TICKETS };
}

/// The lane held 1,024 tickets at one moment of the call. The ticket comes back.
#[derive(Debug, Drop, Error)]
#[error("the lane is full")]
pub struct Full {
    pub ticket: Ticket,
}

impl Lane {
    /// An empty lane, and its pass 0.
    pub fn create<R: AllocGlobal>(rt: &R) -> Result<(Lane, LanePass), NoMemory>
        ensures { IfOk result (λ r. r.1 ≡ first_pass r.0) }
    {
        let (tickets, pass) = RuledArrayQueue::ruled(rt.alloc(), LANE_TICKETS)?;
        let pass = LanePass {
            sender: 0,
            split: 0,
            put_so_far: 0,
            refusals: 0,
            pass,
        };
        Ok((Lane { tickets }, pass))
    }

    /// Makes one more pass of the pass 0, with the next number, which has put nothing. It takes no memory, so it is
    /// never refused.
    pub fn split_pass<R: AllocGlobal>(
        &self,
        rt: &R,
        pass: &mut LanePass,
    ) -> Result<LanePass, NoMemory>
        requires own { pass.old.lane ≡ self.now }
        requires first { pass.old.sender ≡ 0 }
        requires room { pass.old.split < 2 ^ 32 - 1 }
        ensures new { IfOk result (λ p. p ≡ next_pass pass.old) }
        ensures same { IfOk result (λ _. pass.new ≡ record pass.old { split = pass.old.split + 1 }) }
        ensures err { OnErr result (pass.new ≡ pass.old) }
        ensures sure { IsOk result }
    {
        // A split is one load, so nothing can be refused here.
        let other = self.tickets.another::<Another>(&mut pass.pass);
        pass.split += 1;
        Ok(LanePass {
            sender: pass.split,
            split: 0,
            put_so_far: 0,
            refusals: 0,
            pass: other,
        })
    }

    /// Puts the pass's next ticket at the back. The pass 0 of a lane of which no other pass was made is refused only
    /// where 1,024 of its tickets aren't taken yet. Of another pass `Full` tells no more than that tickets of others
    /// may have filled the lane.
    pub fn put<R: Wait>(&self, rt: &R, pass: &mut LanePass, ticket: Ticket) -> Result<(), Full>
        requires own { pass.old.lane ≡ self.now }
        requires sender { ticket.sender ≡ pass.old.sender }
        requires number { ticket.number ≡ length pass.old.put }
        requires room { length pass.old.put < 2 ^ 64 - 1 }
        ensures put { IfOk result (λ _. pass.new ≡ record pass.old { put = pass.old.put ++ ticket ∷ [] }) }
        ensures order { IsInOrder (view_of pass.new) }
        ensures back { IfErr result (λ full. (full.ticket ≡ ticket) × (pass.new ≡ pass.old)) }
        ensures full { OnErr result (Held LANE_TICKETS (Tells (view_of pass.old))) }
        ensures alone { OnErr result (pass.old.sender ≡ 0 → pass.old.split ≡ 0
            → length pass.old.put ≡ length pass.old.taken + LANE_TICKETS) }
    {
        match self
            .tickets
            .push_as::<PutOne, R>(rt, &mut pass.pass, ticket)
        {
            Ok(()) => {
                pass.put_so_far += 1;
                pass.refusals = 0;
                Ok(())
            }
            Err(ticket) => {
                pass.refusals = pass.refusals.saturating_add(1);
                Err(Full { ticket })
            }
        }
    }

    /// Takes the ticket at the front, by the pass 0. At None it has taken all that it put itself, and all that the
    /// passes which it took in had put; of a pass that it hasn't taken in None tells nothing.
    pub fn take<R: Wait>(&self, rt: &R, pass: &mut LanePass) -> Option<Ticket>
        requires own { pass.old.lane ≡ self.now }
        requires first { pass.old.sender ≡ 0 }
        ensures taken { IfSome result (λ t. pass.new ≡ record pass.old { taken = pass.old.taken ++ t ∷ [] }) }
        ensures number { IfSome result (λ t. t.number ≡ length (sent_by t.sender pass.old.taken)) }
        ensures order { IsInOrder (view_of pass.new) }
        ensures same { IfNone result (pass.new ≡ pass.old) }
        ensures empty { IfNone result (Held 0 (Tells (view_of pass.old))) }
        ensures none_left { IfNone result (HasTakenAll (view_of pass.old)) }
    {
        self.tickets.pop_as::<TakeOne, R>(rt, &mut pass.pass)
    }

    /// Takes in a pass that puts no more. From then on what the pass 0 takes of that sender begins what it put.
    pub fn take_in(&self, pass: &mut LanePass, ended: LanePass)
        requires own { (pass.old.lane ≡ self.now) × (ended.lane ≡ self.now) }
        requires first { pass.old.sender ≡ 0 }
        requires other { ended.sender ≢ 0 }
        ensures known { pass.new ≡ record pass.old { ended = pass.old.ended ++ sent_of ended ∷ [] } }
        ensures begins { IsPrefix (sent_by ended.sender pass.old.taken) ended.put }
        ensures order { IsInOrder (view_of pass.new) }
    {
        let LanePass { pass: other, .. } = ended;
        self.tickets.absorb::<Ended>(&mut pass.pass, other);
        self.tickets.learn_as::<TakeOne>(&mut pass.pass);
    }
}

//! A token to put and take with.
ghost use Rattle.std.specs.Prelude.{◌≡◌, length};
ghost use Rattle.geo_lane.specs.Delivery.{IsInOrder};
ghost use Rattle.geo_lane.specs.LanePass.{view_of};

use crate::ticket::Ticket;
use crate::view::View;
use crossbeam_queue::Pass;
use std::marker::Model;

/// What one caller of a lane has put into it and taken from it.
///
/// Contracts see the lane, the pass's number, how many passes were made of it, the tickets that it has
/// put, those that it has taken, and what each pass that it took in had put.
#[derive(Drop)]
pub struct LanePass {
    pub(crate) sender: u32,
    pub(crate) split: u32,
    pub(crate) put_so_far: u64,
    // How often in a row its next ticket found no room, or 2^32 - 1. No clause speaks of it.
    pub(crate) refusals: u32,
    pub(crate) pass: Pass<Ticket, View>,
}

impl Model for LanePass {
    ghost use Rattle.std.specs.Prelude.{◌≡◌, []};
    ghost use Rattle.geo_lane.specs.LanePass.{LanePassView, queue_view, IsSound};

    ghost Value = { LanePassView };

    ghost view = { λ p. record {
      lane = p.pass.table_id;
      sender = p.sender;
      split = p.split;
      put =
          (queue_view p.pass).put;
      taken = (queue_view p.pass).taken;
      ended = (queue_view p.pass).ended;
    } };

    ghost invariant = { λ p. (p.pass.me.1 ≡ []) × IsSound p.sender p.split p.put_so_far (queue_view p.pass) };
}

impl LanePass {
    /// The number of the pass. Its tickets, and what it has taken, are in order.
    pub fn sender(&self) -> u32
        ensures sender { result ≡ self.now.sender }
        ensures order { IsInOrder (view_of self.now) }
    {
        self.sender
    }

    /// How many tickets the pass has put.
    pub fn put_so_far(&self) -> u64
        ensures { result ≡ length self.now.put }
    {
        self.put_so_far
    }

    /// How often in a row, up to 2^32 - 1, [`Lane::put`](crate::Lane::put) was refused. No clause tells anything of
    /// the answer.
    pub fn refusals(&self) -> u32 {
        self.refusals
    }
}

//! The rule of a lane, and the kinds of step that keep it.
use crate::ticket::Ticket;
use crate::view::View;
use crossbeam_queue::protocol::{Join, Lesson, Outcome, Protocol, Split};

/// The rule: every ticket in the lane, and every ticket taken, is one that its sender put, at its number.
pub struct Delivery;

impl Protocol<Ticket, View> for Delivery {
    ghost use Rattle.geo_lane.specs.View.{opening_view};
    ghost use Rattle.geo_lane.specs.Delivery.{IsDelivered};

    ghost holds = { IsDelivered };

    ghost first = { opening_view };
}

/// A new pass is split from the pass 0.
pub struct Another;

impl Split<View> for Another {
    ghost use Rattle.geo_lane.specs.View.{one_more, newcomer};

    ghost left = { one_more };

    ghost right = { newcomer };
}

/// A pass that puts no more is taken in by the pass 0, which keeps what it had put.
pub struct Ended;

impl Join<View> for Ended {
    ghost use Rattle.geo_lane.specs.View.{with_ended, nobody};

    ghost both = { with_ended };

    ghost spent = { nobody };
}

/// A pass puts a ticket.
pub struct PutOne;

impl Outcome<Ticket, View> for PutOne {
    ghost use Rattle.geo_lane.specs.Delivery.{Puts};

    ghost then = { Puts };
}

impl Lesson<Ticket, View> for PutOne {
    ghost use Rattle.geo_lane.specs.Delivery.{Tells};

    ghost fact = { Tells };
}

/// The pass 0 takes a ticket.
pub struct TakeOne;

impl Outcome<Ticket, View> for TakeOne {
    ghost use Rattle.geo_lane.specs.Delivery.{Takes};

    ghost then = { Takes };
}

impl Lesson<Ticket, View> for TakeOne {
    ghost use Rattle.geo_lane.specs.Delivery.{Tells};

    ghost fact = { Tells };
}

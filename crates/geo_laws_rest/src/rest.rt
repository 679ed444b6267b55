//! Laws of the measure of a mesh: each step lowers it but an early wash, so the fixed order comes to rest (geom(4)).
ghost use Rattle.geo_model.specs.Laws.{PickGoesOn, StepsLower};
ghost use Rattle.geo_laws_rest.specs.RestLaws.{FixedOrderEnds, NoneFallsForEver, OrdersEnd};

/// Each enabled step lowers the measure, a Take together with a Deliver that fits; but for a Wash of a consumer while a
/// taste is under way or to come.
#[tactic(auto, using(crate::proofs::EachStep::steps_lower))]
pub fn steps_lower()
    ensures { StepsLower }
{}

/// Where a legal log leads without a Busy bio, and not to rest, the fixed order gives an enabled step that lowers the
/// measure.
#[tactic(auto, using(crate::proofs::Picking::pick_goes_on))]
pub fn fixed_order_goes_on()
    ensures { PickGoesOn }
{}

/// No run lowers the measure for ever.
#[tactic(auto, using(crate::proofs::Picking::none_falls_for_ever))]
pub fn measures_do_not_fall_for_ever()
    ensures { NoneFallsForEver }
{}

/// From a firm mesh without a Busy bio the fixed order comes to an end, whatever disks answer, where each Take is
/// followed by its Deliver.
#[tactic(auto, using(crate::proofs::Picking::fixed_order_ends))]
pub fn fixed_order_ends()
    ensures { FixedOrderEnds }
{}

/// An order that goes on until rest, by steps that lower the measure, and ends there comes to an end, from each legal
/// log without a Busy bio, whatever disks answer, where each Take is followed by its Deliver.
pub fn orders_end()
    ensures { OrdersEnd }
{}

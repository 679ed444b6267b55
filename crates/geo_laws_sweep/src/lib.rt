//! Laws of the elevator order (geom(4)). There is no code: each function has an empty body, and its contract is the
//! law.
//!
//! It comes to rest as the fixed order does. Where a legal log leads without a Busy bio, and not to rest, it gives an
//! enabled step that lowers the measure ([`sweep_goes_on`]), and at rest none ([`sweep_ends`]). After any first part
//! of a legal log the place at which a disk's requests begin falls at most once while nothing comes to it. No request
//! is taken before a FLUSH of its disk that waits and has a smaller number ([`sweeps_keep_places`] says both). That
//! rests on what is next ([`some_is_next`], [`next_is_among`], [`takes_fall_once`]), and on what waits
//! ([`steps_change_waiting`], [`takes_ask_waiting`]).
//!
//! geo_elev needs them: its `Heads` is an order that goes on. Read `specs/SweepLaws.antt` first; the order itself is
//! `sweep_order` of geo_headline.
#![tactic(auto)]

ghost use Rattle.geo_laws_sweep.specs.Elevator.{NextIsAmong, SomeIsNext, TakesFallOnce};
ghost use Rattle.geo_laws_sweep.specs.SweepLaws.{StepsChangeWaiting, SweepEnds, SweepGoesOn, SweepsKeepPlaces, TakesAskWaiting};

/// Where something waits, something is next.
#[tactic(auto, using(crate::proofs::ElevatorFacts::some_is_next))]
pub fn some_is_next()
    ensures { SomeIsNext }
{}

/// What holds of all that waits holds of what is next.
#[tactic(auto, using(crate::proofs::ElevatorFacts::next_is_among))]
pub fn next_is_among()
    ensures { NextIsAmong }
{}

/// While nothing comes, the place at which a disk takes its requests falls at most once.
#[tactic(auto, using(crate::proofs::ElevatorFacts::takes_fall_once))]
pub fn takes_fall_once()
    ensures { TakesFallOnce }
{}

/// Where a legal log leads without a Busy bio, and not to rest, the elevator order gives an enabled step that lowers
/// the measure.
#[tactic(auto, using(crate::proofs::Sweeping::sweep_goes_on))]
pub fn sweep_goes_on()
    ensures { SweepGoesOn }
{}

/// At rest the elevator order gives no step.
#[tactic(auto, using(crate::proofs::SweepRest::sweep_ends))]
pub fn sweep_ends()
    ensures { SweepEnds }
{}

/// What waits for a disk grows by a Start that queues to it, shrinks by a Take of it, and stays at each other step.
#[tactic(auto, using(crate::proofs::WaitingFacts::steps_change_waiting))]
pub fn steps_change_waiting()
    ensures { StepsChangeWaiting }
{}

/// A Take asks its disk for what the bio waited for.
#[tactic(auto, using(crate::proofs::WaitingFacts::takes_ask_waiting))]
pub fn takes_ask_waiting()
    ensures { TakesAskWaiting }
{}

/// Along a legal log in the elevator order the place at which a disk takes its requests falls at most once between the
/// FLUSHes that it takes and the requests that come to it, and no request is taken before a FLUSH that waits for
/// longer.
#[tactic(auto, using(crate::proofs::Places::sweeps_keep_places))]
pub fn sweeps_keep_places()
    ensures { SweepsKeepPlaces }
{}

//! Lanes: bounded queues of tickets from many senders to one taker.
//!
//! A ticket is a hint that a step may be due. Each comes at most once, and those of one sender come in the order in
//! which it put them, without a gap. Every caller of a [`Lane`] has a [`LanePass`], which remembers what it has put
//! and taken; the pass 0 alone takes.
//!
//! Contracts see a [`Lane`] as which one it is. A [`LanePass`] is seen as its lane, its number, how many passes were
//! made of it, what it has put and taken, and what the passes that it took in had put (`LanePassView`).
//!
//! Tickets of each sender are numbered from 0 without a gap ([`Lane::put`], [`Lane::take`], [`Lane::take_in`]:
//! `order`, `number`, `begins`). [`Lane::split_pass`] is never refused (`sure`). The pass 0, alone in its lane, is
//! refused only if 1,024 of its tickets aren't taken (`alone`). At None the pass 0 has taken all that it put, and all
//! that the passes which it took in had put (`none_left`). To other senders [`Full`] tells nothing. Only tested, in
//! geo_tests_threads: such a sender finds room for 1,024 tickets and is refused only with the next, and a ticket of a
//! pass which wasn't taken in comes.
//!
//! The jobs of geo_jobs put tickets and take them; a run opens its lanes. Read `src/lane.rt` first.
//!
//! Why so: no clause can name what a shared queue holds, so the moment of Full and None is told by what the pass can
//! tell of it. How often a pass has been refused is counted here, and no clause speaks of it.
//!
//! Nothing is promised of progress, fairness or time.
#![tactic(auto)]

mod delivery;
mod lane;
mod lane_pass;
mod sent;
mod ticket;
mod view;

pub use geo_base::{BioId, NoMemory};
pub use lane::{Full, Lane};
pub use lane_pass::LanePass;
pub use ticket::{Ticket, TicketStep};

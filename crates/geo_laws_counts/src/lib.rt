//! Laws of access counts (g_access(9)), for any configuration of a class. There is no code: each function has an
//! empty body, and its contract is the law.
//!
//! - [`counts`]: what a count is: the sum over consumers ([`counts::counts_are_sums`]), which counters that keep the
//!   sums are too ([`counts::counters_are_counts`]).
//! - [`changes`]: which changes of one thing leave all counts ([`changes::seen_is_all`],
//!   [`changes::quiet_consumers_change_nothing`]).
//! - [`demands`]: what an open or a close does to counts ([`demands::demand_comes`], [`demands::demand_goes`]), and
//!   that only what is below changes.
//! - [`limits`]: what the tests of exclusiveness and of the limit mean ([`limits::limits_mean`]), and that less
//!   demand never fails them ([`limits::less_is_allowed`]).
//! - [`allowed`]: where it is enough to look before a demand is allowed ([`allowed::changed_are_enough`]), and which
//!   write counts leave zero or come to it.
//!
//! geo_access proves its walks by them; the laws of steps and geo_state need them too. Read `specs/CountLaws.antt`
//! first.
#![tactic(auto)]

pub mod allowed;
pub mod changes;
pub mod counts;
pub mod demands;
pub mod limits;

//! Laws of requests along legal logs (g_bio(9)): each accepted one is answered once, from the sectors that its map
//! names. There is no code: each contract is a law.
//!
//! [`requests::legal_logs_complete_requests`] holds in every legal log of every plan with which a mesh can begin, by
//! any seats in any order. An accepted request is answered at most once, to the line that made it, by the result that
//! the log's leaves give. If that is a success, its leaves went exactly over the sectors of its address map in the
//! world of its acceptance, with its command and its bytes in order. A flush went once to each disk on each path.
//! Where the log comes to rest, each accepted request was answered exactly once. No bio is taken twice. With
//! soundness, opens, appends and freeing this is all that a history keeps (`LegalLogsKeepAll`).
//!
//! It stands on the ledger, which ties a history to its world bio by bio ([`ledger::steps_keep_ledger`]), on results
//! that stay ([`histories::finished_stay`]), and on [`histories::bios_stay_or_arrive`].
//! [`delivered::none_is_busy_where_all_is_delivered`] is what threads need before seat 0 goes on.
//!
//! geo_core, geo_laws_disks and geo_laws_sweep need them. Read `specs/RequestLaws.antt` and `specs/Ledger.antt`
//! first.
#![tactic(auto)]

pub mod delivered;
pub mod histories;
pub mod ledger;
pub mod requests;

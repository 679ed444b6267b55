//! Laws of handles (g_access(9), g_attach(9), g_detach(9)): their opens, closes and requests leave a firm mesh firm,
//! and are answered rightly. There is no code: each contract is a law.
//!
//! [`opens::opens_stay_firm`], [`closes::closes_stay_firm`], [`closes::reaps_stay_firm`] and
//! [`commands::requests_stay_firm`] say it of each; [`commands::handle_commands_stay_firm`] of every command of a
//! handle. [`commands::goes_stay_firm`] is the Go around any command. [`facts::opens_are_answered_right`] answers
//! whether an open is told what the mesh forbids. [`facts::handles_free_idle`] and [`facts::handles_offer_living`]
//! answer what these steps destroy, and what they offer for taste. [`commands::records_fill_sectors`]: a record that
//! is written fills a sector.
//!
//! geo_laws_steps joins them with the laws of the other steps. Read `specs/CommandLaws.antt` and
//! `specs/FactLaws.antt` first.
#![tactic(auto)]

pub mod closes;
pub mod commands;
pub mod facts;
pub mod opens;

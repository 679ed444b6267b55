//! Laws of disks along legal logs (g_bio(9)): what they are asked, what they hold, and what a drive that serves them
//! did. There is no code: each function has an empty body, and its contract is the law.
//!
//! In every legal log each Take asks a disk of the header for what lies inside it, a WRITE with its bytes and a FLUSH
//! alone for nothing ([`disks::disks_are_asked`]). What a disk holds follows over the parts of a log, and a bio is
//! delivered only after it was taken ([`disks::contents_follow`]). What a Take of a firm mesh asks, a drive of the
//! disk's sizes can serve, and each answer that fits can be delivered ([`serving::takes_are_servable`]). A drive that
//! serves it holds and tells what the log says, entry by entry, and has a fault more only if the log delivers a
//! failure of it ([`serving::drives_follow`]).
//!
//! Of any seats: an answer that fits can be delivered by the seat that took the bio, as long as the Take is its last
//! entry, whatever others did since ([`taken::taken_can_be_answered`], [`disks::taken_can_be_delivered`]). Where each
//! disk has a seat, what a drive did by that seat's entries it did by the whole log
//! ([`by_seats::seats_serve_their_disks`]). A drive that served one part of a log and then the other served both
//! ([`by_seats::parts_are_served_as_one`]).
//!
//! geo_drain, geo_jobs and geo_run need them; geo_drain hands some on to geo_elev. Read `specs/DiskLaws.antt` and
//! `specs/TakenLaws.antt` first.
#![tactic(auto)]

pub mod by_seats;
pub mod disks;
pub mod serving;
pub mod taken;

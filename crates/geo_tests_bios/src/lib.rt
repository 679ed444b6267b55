//! Tests of what goes through the mesh: requests on their way and what is due of them, handles, and the log.
//!
//! They show what no clause says: that there is memory, and the tables of geo_bio, geo_handles, geo_log and geo_state
//! at work. Pieces come back in reverse and are joined in order; the first failed piece gives the error; what is due
//! while two READs go their way is the first of its phase.
#![tactic(auto)]

#[cfg(test)]
mod bio;
#[cfg(test)]
mod handles;
#[cfg(test)]
mod log;
#[cfg(test)]
mod same;
#[cfg(test)]
mod traffic;

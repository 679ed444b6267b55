//! Tests of what the mesh's state keeps: handles, the log, requests on their way, and what is kept beside them.
//!
//! They show what no clause says: that there is memory, handles of two actors, and several Delivers, each with its
//! own bytes. READs pass over each other, and none is skipped. Where more room is refused all stays, and a Deliver
//! still comes into the log.
#![tactic(auto)]

#[cfg(test)]
mod handles;
#[cfg(test)]
mod log;
#[cfg(test)]
mod same;
#[cfg(test)]
mod traffic;

//! Tests of the topology lock, of lanes and of the view, with threads.
//!
//! Two threads add to one sum under the lock, and two drive one mesh, each the commands of its actor: the log's
//! entries of a seat are what its thread made, in order. Two senders put tickets into one lane, and a taker in a
//! thread of its own gets each. Beside them stand lanes that are full and empty, and passes on one thread.
//!
//! One thread publishes 10,000 times, while another looks 20,000 times and never sees less than before (`view.rt`).
#![tactic(auto)]

#[cfg(test)]
mod lane;
#[cfg(test)]
mod lock;
#[cfg(test)]
mod mesh;
#[cfg(test)]
mod same;
#[cfg(test)]
mod view;

//! What a sender has put.
use crate::ticket::Ticket;
use std::collections::LinkedList;

/// All that a pass put into its lane, once it was taken in. No value of it is made.
pub struct Sent {
    pub sender: u32,
    pub put: LinkedList<Ticket>,
}

//! What a pass knows of its lane.
use crate::sent::Sent;
use crate::ticket::Ticket;
use std::collections::LinkedList;

/// What a pass knows. No value of it is made: it costs no memory and no time.
///
/// `live` is false only of a pass that was taken in. `split` is how many passes were made of the pass
/// 0. `put` is what the pass has put, in order, `taken` what the pass 0 has taken, and `ended` what the
/// passes that it took in had put.
pub struct View {
    pub live: bool,
    pub number: u32,
    pub split: u64,
    pub put: LinkedList<Ticket>,
    pub taken: LinkedList<Ticket>,
    pub ended: LinkedList<Sent>,
}

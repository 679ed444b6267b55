//! What a view vouches for.
use std::collections::LinkedList;

/// A seat's number, its entries in the log, and how much of the log it has seen. No value of it is made.
pub struct Claim<E> {
    pub number: u32,
    pub own: LinkedList<E>,
    pub seen: LinkedList<E>,
}

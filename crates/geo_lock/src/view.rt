//! What a pass knows of the lock.
use crate::claim::Claim;
use std::collections::LinkedList;

/// What a pass knows. No value of it is made: it costs no memory and no time.
///
/// `start` is the start of the state that the lock was made with, and none only of a pass that was
/// joined to another. `seen` is the beginning of the log that the pass has seen. The first claim is the
/// pass's own, and the others came from passes that were joined to it. `made` is how many passes were
/// made so far, where the pass has the number 0. `turn` says whether the pass has the turn.
pub struct View<B, E> {
    pub start: Option<B>,
    pub seen: LinkedList<E>,
    pub claims: LinkedList<Claim<E>>,
    pub made: u64,
    pub turn: bool,
}

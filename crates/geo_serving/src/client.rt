//! A client whose requests are served, and what comes next of it.

use geo_connection::{Service, Turn};
use geo_nbd::Request;

/// A client whose requests are served: the size of its export in bytes, and those of its requests that are out.
#[derive(Drop)]
pub struct Client {
    pub size: u64,
    pub service: Service,
}

/// What comes next.
#[derive(Drop)]
pub enum Doing {
    /// The head of a request is read.
    Awaits,
    /// What comes behind the head of this request is read.
    Follows(Request),
    /// This is done.
    Does(Turn),
    /// Nothing: the session is over.
    Over,
}

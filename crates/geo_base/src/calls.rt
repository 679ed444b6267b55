//! The calls of a device in memory that are to fail.
ghost use Rattle.std.specs.Prelude.{◌≡◌, ◌↔◌, [], Contains, IfOk, IsTrue};

use crate::block::NoMemory;
use std::alloc::Global;
use std::marker::Model;

/// Numbers of calls, counted from 1, that are to fail. Contracts see their list.
#[derive(Debug, Drop)]
pub struct Calls {
    numbers: Vec<u64>,
}

impl Model for Calls {
    ghost use Rattle.std.specs.Prelude.{ℕ, List};

    ghost Value = { List ℕ };

    ghost view = { λ calls. calls.numbers.items };
}

impl Calls {
    /// No call. It takes no memory.
    pub fn none(alloc: Global) -> Calls
        ensures { result ≡ [] }
    {
        Calls {
            numbers: Vec::new(alloc),
        }
    }

    /// The calls of these numbers.
    pub fn of(alloc: Global, numbers: &[u64]) -> Result<Calls, NoMemory>
        ensures { IfOk result (λ calls. calls ≡ numbers.now) }
    {
        Ok(Calls {
            numbers: numbers.to_vec(alloc)?,
        })
    }

    /// Whether the call of this number is to fail.
    pub fn has(&self, number: u64) -> bool
        ensures { IsTrue result ↔ Contains self.now number }
    {
        self.numbers.contains(&number)
    }
}

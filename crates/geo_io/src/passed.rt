//! The bytes that passed so far, which only clauses read.
ghost use Rattle.std.specs.Prelude.{◌≡◌, ℕ, List, [], ◌++◌};
ghost use Rattle.std.specs.Borrow.{ftrue};

use std::marker::{Model, PhantomData};

/// The bytes that passed so far, in order. It takes no memory, and its calls do nothing at run time.
#[derive(Drop)]
pub struct Passed {
    marker: PhantomData<u8>,
    pub ghost bytes: { List ℕ },
}

impl Model for Passed {
    ghost also_owns = { λ _. ftrue };
}

impl Passed {
    /// Nothing passed yet.
    pub(crate) fn none() -> Passed
        ensures { result.bytes ≡ [] }
    {
        Passed {
            marker: PhantomData,
        }
    }

    /// These bytes passed.
    pub(crate) fn add(&mut self, _bytes: &[u8])
        ensures { self.new.bytes ≡ self.old.bytes ++ _bytes.now }
    {}
}

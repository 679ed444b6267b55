//! Lists that only clauses read.
ghost use Rattle.std.specs.Prelude.{◌≡◌, List, [], ◌∷◌, ◌++◌};
ghost use Rattle.std.specs.Borrow.{ftrue};

use std::marker::{Model, PhantomData};

/// Items in order, which only clauses read. They take no memory, and the calls do nothing at run time.
#[derive(Drop)]
pub struct Notes<A> {
    marker: PhantomData<A>,
    pub ghost items: { List A },
}

impl<A> Model for Notes<A> {
    ghost also_owns = { λ _. ftrue };
}

// They own nothing.
unsafe impl<A: Send> Send for Notes<A> {}

/// The items that the caller picks, from what it passes.
pub(crate) fn picked<A, X, Y>(_from: &X, _and: &Y) -> Notes<A>
    ghost items: { List A }
    ensures { result.items ≡ items }
{
    Notes {
        marker: PhantomData,
    }
}

impl<A> Notes<A> {
    /// No items.
    pub fn none() -> Notes<A>
        ensures { result.items ≡ [] }
    {
        picked(&(), &())
    }

    /// The items of a slice, of which none is copied.
    pub fn of(items: &[A]) -> Notes<A>
        ensures { result.items ≡ items.now }
    {
        picked(&items, &())
    }

    /// The same items.
    pub fn same(&self) -> Notes<A>
        ensures { result.items ≡ self.now.items }
    {
        picked(self, &())
    }

    /// The items, and one more behind them.
    pub fn and(&self, item: &A) -> Notes<A>
        ensures { result.items ≡ self.now.items ++ item.now ∷ [] }
    {
        picked(self, item)
    }
}

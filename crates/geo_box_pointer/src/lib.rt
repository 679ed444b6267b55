//! A box as its pointer: what a handle owns that leaves the language.
//!
//! Contracts see a [`BoxPointer`] as its pointer, its allocator and the value behind the pointer, which it owns with
//! the right to free it. [`BoxPointer::of`] takes a box apart and [`BoxPointer::into_box`] makes it again, with the
//! same value. Both are proved by hand (`proofs/BoxPointer/`), since no borrow follows a raw pointer.
//!
//! geo_exports uses it.
#![tactic(auto)]

ghost use Rattle.std.specs.Prelude.{◌≡◌};
ghost use Rattle.std_alloc.specs.Box.Ownership.{box_owns};

use std::alloc::Allocator;
use std::marker::Model;

/// A box as its pointer.
pub struct BoxPointer<T, A: Allocator> {
    pub at: *mut T,
    pub alloc: A,
    pub ghost value: { T },
}

impl<T, A: Allocator> Model for BoxPointer<T, A> {
    ghost also_owns = { λ l. box_owns (A.dealloc_token l.alloc) T.row l.at l.value };
}

impl<T: Drop, A: Allocator> BoxPointer<T, A> {
    /// The box, taken apart.
    pub fn of(value: Box<T, A>) -> BoxPointer<T, A>
        ensures { result.value ≡ value.value }
    {
        let (at, alloc) = Box::into_raw_with_allocator(value);
        BoxPointer { at, alloc }
    }

    /// The box again.
    pub fn into_box(self) -> Box<T, A>
        ensures { result.value ≡ self.value }
    {
        let BoxPointer { at, alloc } = self;
        unsafe { Box::from_raw(alloc, at) }
    }
}

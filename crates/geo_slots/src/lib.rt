//! Tables whose values stand under numbers that count from 1 and are never given out again, over the kept library
//! `slab`. The numbers of geoms, providers, consumers, handles and bios are such.
//!
//! Contracts see a [`Slots`] as its rows, each a number with its value, in rising order of numbers, beside the next
//! number and the spare room (`SlotsView`). At run time an index leads from numbers to the keys of the slab, by pages of
//! 64 numbers with a bit for each: a look-up goes to its page at once, and a search goes over a page's bits in one step.
//! A page without a value is dropped, so memory and time go by the values that are there, and not by the numbers that
//! were given out.
//!
//! [`Slots::insert`] into spare room takes no memory and gives the next number (`number`, `inserted`), so no number
//! comes twice. [`Slots::get`], [`Slots::get_mut`], [`Slots::remove`] and [`Slots::first_from`] find exactly what is
//! there (`value`, `first`). [`Slots::reserve`] makes room; where memory is wanting the values stay.
//!
//! Why so: the index is a row of pages, since a tree from numbers to keys costs more than all else that a mesh does.
//! `reserve` makes the pages of the numbers to come, so an insert takes no memory; where no number is left it answers
//! want of memory.
//!
//! Only tested, in geo_tests_low: that there is memory, and the table at concrete types. geo_family, geo_names,
//! geo_mesh, geo_bio and geo_handles keep their rows in it. Read `src/slots.rt` and `specs/Slots.antt`, then
//! `src/index.rt` and `specs/Pages.antt`.
#![tactic(auto)]

mod index;
mod page;
mod slots;

pub use slots::{NoMemory, Slots};

//! A live mesh that C holds across calls.
ghost use Rattle.std.specs.Prelude.{◌≡◌, Some, None, Option, IsSome, is_some};
ghost use Rattle.std.specs.Box.Ownership.{box_owns};
ghost use Rattle.geo_tags.specs.Tags.{TaggedView};
ghost use Rattle.geo_tags.specs.contracts.tagged.TaggedSession.{the_row as session_row};
ghost use Rattle.geo_exports.specs.Owns.{token, where_some};

use geo_box_pointer::BoxPointer;
use geo_tags::TaggedSession;
use std::alloc::Global;
use std::marker::Model;

/// A box as its pointer, or nothing.
#[repr(C)]
#[derive(Drop)]
pub struct Held {
    at: *mut u8,
    ghost value: { Option TaggedView },
}

impl Model for Held {
    ghost also_owns = { λ h. where_some h.value (λ x. box_owns token session_row h.at x) };
}

impl Held {
    pub(crate) fn of(value: BoxPointer<TaggedSession, Global>) -> Held
        ensures { result.value ≡ Some value.value }
    {
        let BoxPointer { at, alloc: _ } = value;
        Held { at: at as *mut u8 }
    }

    pub(crate) fn into_pointer(self, alloc: Global) -> BoxPointer<TaggedSession, Global>
        requires { IsSome self.value }
        ensures { self.value ≡ Some result.value }
    {
        let Held { at } = self;
        BoxPointer {
            at: at as *mut TaggedSession,
            alloc,
        }
    }

    pub(crate) fn none() -> Held
        ensures { result.value ≡ None }
    {
        Held {
            at: std::ptr::null_mut(),
        }
    }
}

/// A handle: a flag, and what is held. C makes one of zeros, and hands its address to each call. Contracts speak of the
/// live mesh that it holds, if it is open (`mesh_in`).
#[repr(C)]
#[derive(Drop)]
pub struct TzbCore {
    pub(crate) is_open: bool,
    pub(crate) held: Held,
    ghost tied: { is_open ≡ is_some held.value },
}

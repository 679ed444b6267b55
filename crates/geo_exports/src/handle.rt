//! What a handle holds is taken out of it for a call, and put back.
ghost use Rattle.std.specs.Prelude.{◌≡◌, Some, None, is_none};
ghost use Rattle.std.specs.Option.{option_map};
ghost use Rattle.geo_exports.specs.Held.{mesh_in};

use crate::held::{Held, TzbCore};
use geo_box_pointer::BoxPointer;
use geo_tags::TaggedSession;
use std::alloc::Global;
use std::mem;

impl TzbCore {
    /// Whether it holds nothing.
    pub fn is_closed(&self) -> bool
        ensures { result ≡ is_none (mesh_in self.now) }
    {
        !self.is_open
    }

    /// What it held; it is closed then.
    pub fn take(&mut self, alloc: Global) -> Option<Box<TaggedSession>>
        ensures closed { mesh_in self.new ≡ None }
        ensures taken { option_map (λ b. b.value) result ≡ mesh_in self.old }
    {
        let none = TzbCore {
            is_open: false,
            held: Held::none(),
        };
        let TzbCore { is_open, held } = mem::replace(self, none);
        if is_open {
            return Some(held.into_pointer(alloc).into_box());
        }
        drop(held);
        None
    }

    /// Holds this; what it held is let go.
    pub fn put(&mut self, alloc: Global, value: Box<TaggedSession>)
        ensures { mesh_in self.new ≡ Some value.value }
    {
        drop(self.take(alloc));
        let open = TzbCore {
            is_open: true,
            held: Held::of(BoxPointer::of(value)),
        };
        drop(mem::replace(self, open));
    }
}

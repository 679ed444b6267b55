//! An actor and a name as a key of a map.
ghost use Rattle.geo_handles.specs.Keys.{same_key};

use geo_base::Name;
use std::hash::{Hash, Hasher};

/// What finds a handle: handle names belong to their actor.
#[derive(Clone, Copy)]
pub struct Key {
    pub actor: u32,
    pub name: Name,
}

impl PartialEq for Key {
    ghost use Rattle.std.proofs.Common.{rules};
    ghost use Rattle.std.specs.Cmp.Rules.{comparing};

    ghost eq = { same_key };

    ghost laws = { Prim.search (comparing, rules) };

    fn eq(&self, other: &Key) -> bool {
        self.actor == other.actor && self.name.bytes() == other.name.bytes()
    }
}

impl Eq for Key {
    ghost use Rattle.std.proofs.Common.{rules};
    ghost use Rattle.std.specs.Cmp.Rules.{comparing};

    ghost laws = { Prim.search (comparing, rules) };
}

impl Hash for Key {
    ghost use Rattle.std.proofs.Common.{rules};
    ghost use Rattle.std.specs.Prelude.{◌++◌};
    ghost use Rattle.std.specs.Hash as fed;
    ghost use Rattle.std.specs.Cmp.Rules.{hashing};

    ghost hash_input = { λ a. fed.u32 a.actor ++ fed.slice fed.u8 a.name };

    ghost respects_eq = { Prim.search (hashing, rules) };

    fn hash<H: Hasher>(&self, state: &mut H) {
        self.actor.hash(state);
        self.name.bytes().hash(state);
    }
}

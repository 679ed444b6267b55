//! Bytes that are gathered.
ghost use Rattle.std.specs.Prelude.{◌≡◌, ◌++◌, [], OnOk};

use geo_base::NoMemory;
use std::alloc::Global;
use std::marker::Model;

/// Bytes that are gathered one part behind the other, which contracts see as their list.
#[derive(Drop)]
pub struct Gathered {
    bytes: Vec<u8>,
}

impl Model for Gathered {
    ghost use Rattle.std.specs.Prelude.{List, ℕ};

    ghost Value = { List ℕ };

    ghost view = { λ gathered. gathered.bytes.items };
}

impl Gathered {
    /// No bytes. It takes no memory yet.
    pub fn none(alloc: Global) -> Gathered
        ensures { result ≡ [] }
    {
        Gathered {
            bytes: Vec::new(alloc),
        }
    }

    /// These bytes behind the others.
    pub fn add(&mut self, part: &[u8]) -> Result<(), NoMemory>
        ensures { OnOk result (self.new ≡ self.old ++ part.now) }
    {
        self.bytes.extend_from_slice(part)?;
        Ok(())
    }

    /// The bytes.
    pub fn bytes(&self) -> &[u8]
        ensures { result.now ≡ self.now }
    {
        self.bytes.as_slice()
    }
}

//! Bytes that came before.
ghost use Rattle.std.specs.Prelude.{◌≡◌, IfSome};

use geo_base::SharedBytes;
use std::alloc::Global;
use std::collections::BTreeMap;

/// Bytes that came before: under each first byte only the last ones that had to be kept. Bytes with which these begin
/// are given as a part of them, and share their memory. All others have memory of their own, even if equal bytes came
/// before the last ones.
#[derive(Drop)]
pub struct Pool {
    alloc: Global,
    known: BTreeMap<u8, SharedBytes>,
}

impl Pool {
    /// No bytes are known. It takes no memory yet.
    pub fn new(alloc: Global) -> Pool {
        Pool {
            alloc,
            known: BTreeMap::new(alloc),
        }
    }

    /// The same bytes: a part of the known ones with this first byte if those begin with them, else themselves. Then
    /// they are known from now on, in the place of those, if there is memory for it.
    pub fn once(&mut self, bytes: SharedBytes) -> SharedBytes
        ensures { result ≡ bytes }
    {
        if let Some(same) = self.same(&bytes) {
            return same;
        }
        if let Some(first) = bytes.bytes().first() {
            if let Ok(copy) = bytes.copy(self.alloc) {
                let _ = self.known.insert(*first, copy);
            }
        }
        bytes
    }

    // The same bytes, as a part of the known ones with this first byte, if those begin with them.
    fn same(&self, bytes: &SharedBytes) -> Option<SharedBytes>
        ensures { IfSome result (λ same. same ≡ bytes.now) }
    {
        let first = bytes.bytes().first()?;
        let known = self.known.get(first)?;
        if known.bytes().starts_with(bytes.bytes()) {
            known.part(self.alloc, 0, bytes.len() as u64).ok()
        } else {
            None
        }
    }
}

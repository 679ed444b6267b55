//! A file of which each write is told: the trusted write of images.
ghost use Rattle.std.specs.Prelude.{◌≡◌, ◌+◌, ◌^◌, ◌≤◌, ◌<◌, ◌∷◌, [], ◌++◌, length, take};

use geo_disk::Notes;
use std::fs::File;
use std::io;
use std::marker::Model;
use std::os::unix::fs::FileExt;

/// What one write of the system put into a file, and from which byte on. Its bytes are noted alone.
#[derive(Drop)]
pub struct Piece {
    at: u64,
    bytes: Notes<u8>,
}

impl Model for Piece {
    ghost use Rattle.geo_file.specs.Pieces.{Put};

    ghost Value = { Put };

    ghost view = { λ p. record { at = p.at; bytes = p.bytes.items } };
}

/// An open file, and for clauses alone what was written to it. Only this module has the file itself.
#[derive(Drop)]
pub struct ToldFile {
    file: File,
    wrote: Notes<Piece>,
}

impl Model for ToldFile {
    ghost use Rattle.std.specs.Prelude.{List};
    ghost use Rattle.geo_file.specs.Pieces.{Put};

    ghost Value = { List Put };

    ghost view = { λ f. f.wrote.items };
}

impl ToldFile {
    /// A file to which nothing was written yet.
    pub fn new(file: File) -> ToldFile
        ensures { result ≡ [] }
    {
        ToldFile {
            file,
            wrote: Notes::none(),
        }
    }

    /// Writes bytes from an offset on, and says how many of them were written: none where the write failed. It is
    /// trusted: the kit says of its write only how many bytes were written at most, and here alone stands which.
    pub fn write_at(&mut self, at: u64, bytes: &[u8]) -> usize
        requires { at + length bytes.now < 2 ^ 63 }
        ensures few { result ≤ length bytes.now }
        ensures told { self.new ≡ self.old ++ (record { at = at; bytes = take result bytes.now }) ∷ [] }
    {
        let count = self.file.write_at(bytes, at).unwrap_or(0);
        let bytes = Notes::of(&bytes[..count]);
        self.wrote = self.wrote.and(&Piece { at, bytes });
        count
    }

    /// Fills `out` with the bytes from an offset on.
    pub fn read_at(&self, at: u64, out: &mut [u8]) -> io::Result<()>
        requires { at + length out.old < 2 ^ 63 }
    {
        self.file.read_exact_at(out, at)
    }

    /// Has the system keep the bytes that were written.
    pub fn sync_data(&self) -> io::Result<()> {
        self.file.sync_data()
    }

    /// Has the system keep the bytes that were written, and the size and times of the file.
    pub fn sync_all(&self) -> io::Result<()> {
        self.file.sync_all()
    }
}

//! The disks and the commands of a plan.
ghost use Rattle.std.specs.Prelude.{◌≡◌, IfOk};

use geo_base::{Counts, Kind, Name, NoMemory, SharedBytes};
use std::alloc::Global;
use std::marker::Model;

/// A disk in memory, or one of the shelf.
#[derive(Clone, Copy, Debug, PartialEq, Eq)]
pub enum DiskKind {
    Ram,
    Shelf,
}

/// A disk of the header: its sector size in bytes, its sectors (0 for a disk of the shelf), and whether it stands
/// only once it is inserted.
#[derive(Clone, Copy, Debug)]
pub struct DiskDecl {
    pub kind: DiskKind,
    pub name: Name,
    pub sector: u32,
    pub sectors: u64,
    pub later: bool,
}

/// A list of names, which contracts see as the list of their bytes.
#[derive(Debug, Drop)]
pub struct NameList {
    names: Vec<Name>,
}

impl Model for NameList {
    ghost use Rattle.std.specs.Prelude.{List, ℕ};

    ghost Value = { List (List ℕ) };

    ghost view = { λ n. n.names.items };
}

impl NameList {
    /// The names of a vector; it takes no memory.
    pub fn from_vec(names: Vec<Name>) -> NameList
        ensures { result ≡ names.items }
    {
        NameList { names }
    }

    /// The vector of the names; it takes no memory.
    pub fn into_vec(self) -> Vec<Name>
        ensures { result.items ≡ self }
    {
        self.names
    }

    /// The names, in order.
    pub fn items(&self) -> &[Name]
        ensures { result.now ≡ self.now }
    {
        self.names.as_slice()
    }

    /// The same names.
    pub fn copy(&self, alloc: Global) -> Result<NameList, NoMemory>
        ensures { IfOk result (λ names. names ≡ self.now) }
    {
        Ok(NameList {
            names: self.items().to_vec(alloc)?,
        })
    }
}

/// A command of an actor, with its words that aren't fixed, in their order. Offsets, lengths and sizes are in bytes.
/// A `handle` is a name that the actor gave one of its own handles by an open.
#[derive(Debug, Drop)]
pub enum Command {
    /// Opens a provider with these counts, as a handle of this name (g_access(9)).
    Open {
        handle: Name,
        provider: Name,
        grant: Counts,
    },
    /// Closes the handle, if none of its requests is out (g_access(9)).
    Close(Name),
    /// Reads `len` bytes through the handle, from `offset` of its provider on (g_bio(9)).
    Read {
        handle: Name,
        offset: u64,
        len: u64,
    },
    /// Writes the bytes through the handle, from `offset` of its provider on (g_bio(9)).
    Write {
        handle: Name,
        offset: u64,
        bytes: SharedBytes,
    },
    /// Deletes `len` bytes through the handle, from `offset` of its provider on (g_bio(9)): they read as zeros then.
    Delete {
        handle: Name,
        offset: u64,
        len: u64,
    },
    /// Has the handle's provider keep what was written (g_bio(9)).
    Flush(Name),
    /// Waits until none of the actor's own requests is out.
    Sync,
    /// Waits until no event, no taste, no request, no reap and no wash is due.
    Settle,
    /// Lets a disk of the header stand (disk(9)).
    Insert(Name),
    /// Takes a disk that stands away (disk(9)): its geom withers (g_wither_geom(9)).
    Pull(Name),
    /// Makes a window of the provider, `size` bytes from `offset` on (gnop(8)). Every `fail`th request through it
    /// fails, and none if `fail` is 0.
    Nop {
        provider: Name,
        offset: u64,
        size: u64,
        fail: u64,
    },
    /// Makes a concat of this name: the providers one behind the other (gconcat(8)).
    Concat {
        name: Name,
        providers: NameList,
    },
    /// Makes a stripe of this name: the providers in turn, strip by strip of `stripe` bytes (gstripe(8)).
    Stripe {
        name: Name,
        stripe: u64,
        providers: NameList,
    },
    /// Lets the concat of this name grow by the provider, behind its others (gconcat(8), g_resize_provider(9)).
    Append {
        name: Name,
        provider: Name,
    },
    /// Lets the geom of this class and name wither, if none of its providers is open (g_wither_geom(9)).
    Destroy {
        kind: Kind,
        name: Name,
    },
    /// Writes a label of this name, of the first version, into the last sector of the handle's provider (glabel(8)).
    Label {
        handle: Name,
        name: Name,
    },
    /// Writes a label of this name, of the second version, which says the provider's size in bytes too (glabel(8)).
    Relabel {
        handle: Name,
        name: Name,
    },
    /// Writes the record of a component of a concat into the last sector of the handle's provider (gconcat(8)): the
    /// concat's name and number, the component's place in it, counted from 0, and how many components it has.
    MarkConcat {
        handle: Name,
        name: Name,
        id: u64,
        place: u64,
        count: u64,
    },
    /// Writes the record of a component of a stripe, as of a concat, and the length of a strip in bytes (gstripe(8)).
    MarkStripe {
        handle: Name,
        name: Name,
        id: u64,
        place: u64,
        count: u64,
        stripe: u64,
    },
    /// Lists the mesh as it is at this moment.
    Mesh,
}

/// A command with its script line, counted from 1, and its actor, counted from 0.
#[derive(Debug, Drop)]
pub struct LineCommand {
    pub line: u32,
    pub actor: u32,
    pub command: Command,
}

/// Why a text isn't a script.
#[derive(Clone, Copy, Debug, PartialEq, Eq)]
pub enum Cause {
    Lines,
    Long,
    Byte,
    Space,
    Header,
    Actor,
    Words,
    Name,
    Number,
    Range,
    Counts,
    Runs,
    Word,
    Twice,
    Many,
}

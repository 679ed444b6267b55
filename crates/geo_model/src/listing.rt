//! The mesh as it is printed.
ghost use Rattle.std.specs.Prelude.{◌≡◌, [], ◌∷◌, ◌++◌, IfOk, OnErr, OnOk};

use geo_base::{Counts, Kind, Name, NoMemory};
use std::alloc::Global;
use std::marker::Model;

/// A provider as it is printed; `size` and `sector` are in bytes.
#[derive(Clone, Copy, Debug)]
pub struct ProvLine {
    pub name: Name,
    pub size: u64,
    pub sector: u32,
    pub counts: Counts,
    pub errored: bool,
}

/// A consumer as it is printed, with the name of its provider.
#[derive(Clone, Copy, Debug)]
pub struct ConsLine {
    pub prov: Name,
    pub counts: Counts,
}

/// A list of providers as they are printed, which contracts see as that list.
#[derive(Debug, Drop)]
pub struct ProvLines {
    lines: Vec<ProvLine>,
}

impl Model for ProvLines {
    ghost use Rattle.std.specs.Prelude.{List};
    ghost use Rattle.geo_model.specs.declared.listing.ProvLine.{ProvLine};

    ghost Value = { List ProvLine };

    ghost view = { λ l. l.lines.items };
}

impl ProvLines {
    /// No line.
    pub fn new(alloc: Global) -> ProvLines
        ensures { result ≡ [] }
    {
        ProvLines {
            lines: Vec::new(alloc),
        }
    }

    /// A line more at the end; after `NoMemory` the list is as before.
    pub fn push(&mut self, line: ProvLine) -> Result<(), NoMemory>
        ensures pushed { OnOk result (self.new ≡ self.old ++ line ∷ []) }
        ensures kept { OnErr result (self.new ≡ self.old) }
    {
        self.lines.push(line)?;
        Ok(())
    }

    /// The lines, in order.
    pub fn items(&self) -> &[ProvLine]
        ensures { result.now ≡ self.now }
    {
        self.lines.as_slice()
    }

    /// The same lines.
    pub fn copy(&self, alloc: Global) -> Result<ProvLines, NoMemory>
        ensures { IfOk result (λ lines. lines ≡ self.now) }
    {
        Ok(ProvLines {
            lines: self.lines.as_slice().to_vec(alloc)?,
        })
    }
}

/// A list of consumers as they are printed, which contracts see as that list.
#[derive(Debug, Drop)]
pub struct ConsLines {
    lines: Vec<ConsLine>,
}

impl Model for ConsLines {
    ghost use Rattle.std.specs.Prelude.{List};
    ghost use Rattle.geo_model.specs.declared.listing.ConsLine.{ConsLine};

    ghost Value = { List ConsLine };

    ghost view = { λ l. l.lines.items };
}

impl ConsLines {
    /// No line.
    pub fn new(alloc: Global) -> ConsLines
        ensures { result ≡ [] }
    {
        ConsLines {
            lines: Vec::new(alloc),
        }
    }

    /// A line more at the end; after `NoMemory` the list is as before.
    pub fn push(&mut self, line: ConsLine) -> Result<(), NoMemory>
        ensures pushed { OnOk result (self.new ≡ self.old ++ line ∷ []) }
        ensures kept { OnErr result (self.new ≡ self.old) }
    {
        self.lines.push(line)?;
        Ok(())
    }

    /// The lines, in order.
    pub fn items(&self) -> &[ConsLine]
        ensures { result.now ≡ self.now }
    {
        self.lines.as_slice()
    }

    /// The same lines.
    pub fn copy(&self, alloc: Global) -> Result<ConsLines, NoMemory>
        ensures { IfOk result (λ lines. lines ≡ self.now) }
    {
        Ok(ConsLines {
            lines: self.lines.as_slice().to_vec(alloc)?,
        })
    }
}

/// A geom as it is printed, with its providers and its consumers.
#[derive(Debug, Drop)]
pub struct GeomLine {
    pub kind: Kind,
    pub name: Name,
    pub rank: u32,
    pub withering: bool,
    pub providers: ProvLines,
    pub consumers: ConsLines,
}

impl GeomLine {
    /// The same line.
    pub fn copy(&self, alloc: Global) -> Result<GeomLine, NoMemory>
        ensures { IfOk result (λ line. line ≡ self.now) }
    {
        Ok(GeomLine {
            kind: self.kind,
            name: self.name,
            rank: self.rank,
            withering: self.withering,
            providers: self.providers.copy(alloc)?,
            consumers: self.consumers.copy(alloc)?,
        })
    }
}

/// The mesh as it is printed, geom by geom, which contracts see as the list of geoms.
#[derive(Debug, Drop)]
pub struct MeshList {
    lines: Vec<GeomLine>,
}

impl Model for MeshList {
    ghost use Rattle.std.specs.Prelude.{List};
    ghost use Rattle.geo_model.specs.declared.listing.GeomLine.{GeomLine};

    ghost Value = { List GeomLine };

    ghost view = { λ l. l.lines.items };
}

impl MeshList {
    /// No line.
    pub fn new(alloc: Global) -> MeshList
        ensures { result ≡ [] }
    {
        MeshList {
            lines: Vec::new(alloc),
        }
    }

    /// A line more at the end; after `NoMemory` the list is as before.
    pub fn push(&mut self, line: GeomLine) -> Result<(), NoMemory>
        ensures pushed { OnOk result (self.new ≡ self.old ++ line ∷ []) }
        ensures kept { OnErr result (self.new ≡ self.old) }
    {
        self.lines.push(line)?;
        Ok(())
    }

    /// The lines, in order.
    pub fn items(&self) -> &[GeomLine]
        ensures { result.now ≡ self.now }
    {
        self.lines.as_slice()
    }

    /// The same lines.
    pub fn copy(&self, alloc: Global) -> Result<MeshList, NoMemory>
        ensures { IfOk result (λ list. list ≡ self.now) }
    {
        let mut lines = Vec::new(alloc);
        for line in self.items() {
            lines.push(line.copy(alloc)?)?;
        }
        Ok(MeshList { lines })
    }
}

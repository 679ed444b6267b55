//! The classes of geoms.
ghost use Rattle.std.specs.Prelude.{◌≡◌};
ghost use Rattle.geo_base.specs.Kind.{adds_exclusive, kind_text};

/// A class, by which geoms of one kind transform requests (geom(4)).
#[derive(Clone, Copy, Debug, PartialEq, Eq)]
pub enum Kind {
    /// A disk, at the foot of the mesh.
    Disk,
    /// The handles that are open.
    Dev,
    /// The taste that is under way.
    Taste,
    /// Slices of a partition table.
    Mbr,
    /// Logical partitions of a chain of links.
    Ebr,
    /// A provider under another name.
    Label,
    /// Providers one behind the other.
    Concat,
    /// Providers in turn, strip by strip.
    Stripe,
    /// A window of a provider.
    Nop,
}

impl Kind {
    /// The class's name in capitals, which a report prints.
    pub fn text(&self) -> &[u8]
        ensures { result.now ≡ kind_text self.now }
    {
        match *self {
            Kind::Disk => b"DISK",
            Kind::Dev => b"DEV",
            Kind::Taste => b"TASTE",
            Kind::Mbr => b"MBR",
            Kind::Ebr => b"EBR",
            Kind::Label => b"LABEL",
            Kind::Concat => b"CONCAT",
            Kind::Stripe => b"STRIPE",
            Kind::Nop => b"NOP",
        }
    }

    /// Whether the class's consumers want one exclusive count more than its providers have, where one of these has a
    /// count (g_access(9)).
    pub fn adds_exclusive(&self) -> bool
        ensures { result ≡ adds_exclusive self.now }
    {
        match *self {
            Kind::Mbr | Kind::Ebr | Kind::Label | Kind::Concat | Kind::Stripe => true,
            Kind::Disk | Kind::Dev | Kind::Taste | Kind::Nop => false,
        }
    }
}

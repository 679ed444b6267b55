//! The errors of commands and requests.
ghost use Rattle.std.specs.Prelude.{◌≡◌};
ghost use Rattle.geo_base.specs.Errno.{errno_text};

/// Why a command or a request is refused, named as in errno(2).
#[derive(Clone, Copy, Debug, PartialEq, Eq)]
pub enum Errno {
    /// There is none of this name.
    ENOENT,
    /// The name is in use.
    EEXIST,
    /// There is no such handle.
    EBADF,
    /// The provider carries an error, its handle is dead, or the disk of a pull doesn't stand.
    ENXIO,
    /// The access counts forbid it, or the handle wasn't opened for it.
    EPERM,
    /// A count would pass its limit.
    EOVERFLOW,
    /// It is in use.
    EBUSY,
    /// An offset, a length or a size doesn't fit.
    EINVAL,
    /// A range past the end, or a device that failed.
    EIO,
    /// A geom would reach itself.
    ELOOP,
    /// A geom would have too great a rank.
    EDEEP,
}

impl Errno {
    /// The name that a report prints.
    pub fn text(&self) -> &[u8]
        ensures { result.now ≡ errno_text self.now }
    {
        match *self {
            Errno::ENOENT => b"ENOENT",
            Errno::EEXIST => b"EEXIST",
            Errno::EBADF => b"EBADF",
            Errno::ENXIO => b"ENXIO",
            Errno::EPERM => b"EPERM",
            Errno::EOVERFLOW => b"EOVERFLOW",
            Errno::EBUSY => b"EBUSY",
            Errno::EINVAL => b"EINVAL",
            Errno::EIO => b"EIO",
            Errno::ELOOP => b"ELOOP",
            Errno::EDEEP => b"EDEEP",
        }
    }
}

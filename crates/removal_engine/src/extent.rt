// How much of a package a removal takes away.
ghost use Rattle.std.specs.Prelude.{◌≡◌};
ghost use Rattle.removal_engine.specs.Extents.{is_purge};

/// What a removal begins with, and how far it goes.
#[derive(Clone, Copy)]
pub enum Extent {
    /// The files go; the conffiles and the postrm are left.
    Remove,
    /// Nothing is left.
    Purge,
    /// As `Remove`, in favour of a package that conflicts with it and is unpacked: that unpack has called the prerm before.
    InFavour,
}

impl Extent {
    pub(crate) fn is_purge(self) -> bool
        ensures { result ≡ is_purge self }
    {
        match self {
            Extent::Purge => true,
            Extent::Remove | Extent::InFavour => false,
        }
    }
}

// Names beside a shipped path.
ghost use Rattle.std.specs.Prelude.{◌≡◌};
ghost use Rattle.host_core.specs.Suffixes.{suffix_text};

/// An ending that the installer alone gives to names, beside the path of a shipped file.
#[derive(Clone, Copy)]
pub enum Suffix {
    /// The package's own conffile, until it is settled.
    New,
    /// A conffile that the package's own took the place of.
    Old,
    /// The package's own conffile, where the administrator's stayed.
    Dist,
    /// What stood at a path while a package is unpacked.
    Tmp,
    /// A file that is being written.
    Inst,
}

impl Suffix {
    pub fn text(self) -> &'static str
        ensures { result.now ≡ suffix_text self }
    {
        match self {
            Suffix::New => ".dpkg-new",
            Suffix::Old => ".dpkg-old",
            Suffix::Dist => ".dpkg-dist",
            Suffix::Tmp => ".dpkg-tmp",
            Suffix::Inst => ".dpkg-inst",
        }
    }
}

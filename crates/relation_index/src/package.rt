// Packages, as relations see them.
ghost use Rattle.std.specs.Prelude.{◌≡◌};
ghost use Rattle.relation_fields.specs.Admission.{admits};
ghost use Rattle.relation_index.specs.Packages.{meets, is_installed, is_present, is_unpacked};

use name_tables::Named;
use relation_fields::{Alternative, Clause, Offer, Provides, Relations};
use texts::Text;
use version_order::Version;

/// How far a package is installed (Policy 6.5 and dpkg's states); `HalfInstalled` and all after it are at least
/// half-installed.
#[derive(Clone, Copy, Debug)]
pub enum PackageState {
    NotInstalled,
    ConfigFiles,
    HalfInstalled,
    Unpacked,
    HalfConfigured,
    Installed,
}

/// A package with the relations that it states, as its record or its tree tells them. Of one that comes from a tree
/// the state is `NotInstalled`.
#[derive(Drop)]
pub struct Package {
    pub name: Text,
    /// As which it counts: its own, or where it fits each that of the root, if there is one.
    pub architecture: Option<Text>,
    pub version: Version,
    pub state: PackageState,
    /// Whether triggers are awaited: what others need before their unpack it meets only then when they were processed.
    pub awaits: bool,
    pub reinstreq: bool,
    pub essential: bool,
    /// The version that was configured last, if one was, and whether the package was removed since then.
    pub configured: Option<Version>,
    pub removed_since: bool,
    pub provides: Provides,
    pub pre_depends: Relations,
    pub depends: Relations,
    pub breaks: Relations,
    pub conflicts: Relations,
    pub replaces: Relations,
}

impl Named for Package {
    ghost called = { λ p. p.name };

    fn name(&self) -> &Text {
        &self.name
    }
}

impl Package {
    fn offer(&self) -> Offer<'_>
        ensures name { result.name.now ≡ self.now.name }
        ensures architecture { result.architecture.now ≡ self.now.architecture }
        ensures version { result.version.now ≡ self.now.version }
        ensures provides { result.provides.now ≡ self.now.provides }
    {
        Offer {
            name: self.name.as_str(),
            architecture: &self.architecture,
            version: &self.version,
            provides: &self.provides,
        }
    }

    pub(crate) fn is_admitted(&self, alternative: &Alternative) -> bool
        ensures { result ≡ admits alternative.now self.now.name self.now.architecture
            self.now.version self.now.provides }
    {
        alternative.admits(&self.offer())
    }

    /// Whether the package meets a clause, by its name, architecture and version or by what it provides.
    pub fn meets(&self, clause: &Clause) -> bool
        ensures { result ≡ meets clause.now self.now }
    {
        clause.admits(&self.offer())
    }

    pub fn is_installed(&self) -> bool
        ensures { result ≡ is_installed self.now }
    {
        matches!(self.state, PackageState::Installed)
    }

    /// Whether the package is at least half-installed.
    pub fn is_present(&self) -> bool
        ensures { result ≡ is_present self.now }
    {
        match self.state {
            PackageState::NotInstalled | PackageState::ConfigFiles => false,
            PackageState::HalfInstalled
            | PackageState::Unpacked
            | PackageState::HalfConfigured
            | PackageState::Installed => true,
        }
    }

    /// Whether the package is unpacked or half-configured.
    pub fn is_unpacked(&self) -> bool
        ensures { result ≡ is_unpacked self.now }
    {
        matches!(
            self.state,
            PackageState::Unpacked | PackageState::HalfConfigured
        )
    }
}

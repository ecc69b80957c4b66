// An entry of the table.
ghost use Rattle.std.specs.Prelude.{◌≡◌, ◌↔◌, IfOk, IsTrue};
ghost use Rattle.diversions.specs.Places.{holds_for};
ghost use Rattle.diversions.specs.Targets.{owner_name};

use host_core::ShipPath;
use std::alloc::AllocError;
use texts::Text;

/// Whose diversion it is: the administrator's, or a package's, by its name.
#[derive(Drop)]
pub enum Owner {
    Local,
    Package(Text),
}

impl Owner {
    pub fn is(&self, other: &Owner) -> bool
        ensures { IsTrue result ↔ (self.now ≡ other.now) }
    {
        match (self, other) {
            (Owner::Local, Owner::Local) => true,
            (Owner::Package(name), Owner::Package(other)) => name.is(other),
            (Owner::Local, Owner::Package(_)) => false,
            (Owner::Package(_), Owner::Local) => false,
        }
    }

    /// Whether its diversions hold for the files of a package: a package's don't hold for its own.
    pub fn holds_for(&self, user: &Text) -> bool
        ensures { result ≡ holds_for self.now user.now }
    {
        match self {
            Owner::Local => true,
            Owner::Package(name) => !name.is(user),
        }
    }

    /// The package by its name, or none for the administrator.
    pub fn name(&self) -> Result<Option<Text>, AllocError>
        ensures { IfOk result (λ name. name ≡ owner_name self.now) }
    {
        match self {
            Owner::Local => Ok(None),
            Owner::Package(name) => Ok(Some(name.copy()?)),
        }
    }

    pub fn copy(&self) -> Result<Owner, AllocError>
        ensures { IfOk result (λ o. o ≡ self.now) }
    {
        match self {
            Owner::Local => Ok(Owner::Local),
            Owner::Package(name) => Ok(Owner::Package(name.copy()?)),
        }
    }
}

/// Where all packages but the owner have the file of a path.
#[derive(Drop)]
pub struct Diversion {
    pub path: ShipPath,
    pub target: ShipPath,
    pub owner: Owner,
}

impl Diversion {
    pub fn is(&self, other: &Diversion) -> bool
        ensures { IsTrue result ↔ (self.now ≡ other.now) }
    {
        self.path.as_str() == other.path.as_str()
            && self.target.as_str() == other.target.as_str()
            && self.owner.is(&other.owner)
    }

    pub fn copy(&self) -> Result<Diversion, AllocError>
        ensures { IfOk result (λ d. d ≡ self.now) }
    {
        Ok(Diversion {
            path: self.path.copy()?,
            target: self.target.copy()?,
            owner: self.owner.copy()?,
        })
    }
}

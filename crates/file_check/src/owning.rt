// Who has which places.
ghost use Rattle.std.specs.Prelude.{◌≡◌, IfOk, option_copied};
ghost use Rattle.std.specs.List.{list_any};
ghost use Rattle.std.specs.Str.{bytes_eq};
ghost use Rattle.file_check.specs.Clashes.{first_rival, is_rival, rival};
ghost use Rattle.file_check.specs.InWay.{is_diverted};
ghost use Rattle.file_check.specs.Targets.{diversion_to};

use diversions::{Diversion, Diversions};
use file_lists::{FileLists, Listed};
use host_core::RootPath;
use package_files::Work;
use std::alloc::{AllocError, Global};
use std::marker::Model;
use texts::Text;

/// The lists and diversions, the packages with which no path clashes, and the incoming package.
#[derive(Drop)]
pub(crate) struct Owning<'a> {
    pub lists: &'a FileLists,
    pub diversions: &'a Diversions,
    pub yields: &'a [Text],
    pub incoming: &'a Text,
}

impl<'a> Model for Owning<'a> {
    ghost use Rattle.file_check.specs.Clashes.{Owning, owning};

    ghost Value = { Owning };

    ghost view = { λ o.
        owning o.diversions.now.ways o.lists.now.lists o.yields.now o.incoming.now };
}

fn is_one_of(names: &[Text], name: &Text) -> bool
    ensures { result ≡ list_any (bytes_eq name.now) names.now }
{
    names.iter().any(|one| name.as_str() == one.as_str())
}

fn is_same(name: &Text, other: &Text) -> bool
    ensures { result ≡ bytes_eq name.now other.now }
{
    name.as_str() == other.as_str()
}

impl<'a> Owning<'a> {
    // Whether a path may clash with a package.
    fn is_rival(&self, name: &Text) -> bool
        ensures { result ≡ is_rival self.now name.now }
    {
        let own = is_same(name, self.incoming);
        let yields = is_one_of(self.yields, name);
        !own && !yields
    }

    fn first_rival(&self, owners: &[Listed]) -> Result<Option<Text>, AllocError>
        ensures { IfOk result (λ found. found ≡ first_rival self.now owners.now) }
    {
        for owner in owners {
            if self.is_rival(&owner.name) {
                return Ok(Some(owner.name.copy()?));
            }
        }
        Ok(None)
    }

    /// The first package, in the order of names, that lists a path of a place and doesn't yield it.
    pub(crate) fn rival(&self, alloc: Global, place: &RootPath) -> Result<Option<Text>, AllocError>
        ensures { IfOk result (λ found. found ≡ rival self.now place.now) }
    {
        let owners = self.lists.owners(alloc, self.diversions, place)?;
        self.first_rival(owners.items.as_slice())
    }

    /// Whether a shipped path has another place than that of its name.
    pub(crate) fn is_diverted(&self, shipped: &Work) -> Result<bool, AllocError>
        ensures { IfOk result (λ diverted. diverted ≡ is_diverted self.now shipped.now) }
    {
        self.diversions.is_diverted(&shipped.path, &shipped.place)
    }

    /// The diversion of another path to the place of a shipped one, by its name.
    pub(crate) fn diversion_to(&self, shipped: &Work) -> Result<Option<&Diversion>, AllocError>
        ensures { IfOk result (λ found. option_copied found ≡ diversion_to self.now shipped.now) }
    {
        self.diversions.entry_to(&shipped.path)
    }
}

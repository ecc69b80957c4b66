// The places of files and links that were written.
ghost use Rattle.std.specs.Prelude.{◌≡◌, IfOk};
ghost use Rattle.std.specs.BTreeSet.{contains_text};
ghost use Rattle.std.specs.List.{list_any};
ghost use Rattle.std.specs.Str.{bytes_eq};
ghost use Rattle.host_core.specs.Paths.{Path};
ghost use Rattle.unpack_commit.specs.Takeover.{is_at, is_taken, taken_places};

use diversions::Diversions;
use host_core::{Kind, Node, RootPath, ShipPath};
use package_files::Work;
use std::alloc::{AllocError, Global};
use std::collections::BTreeSet;
use std::marker::Model;
use texts::Text;

/// Places in the order in which they came, and their texts to be looked up.
#[derive(Drop)]
pub(crate) struct Taken {
    items: Vec<RootPath>,
    texts: BTreeSet<String>,
}

impl Model for Taken {
    ghost use Rattle.std.specs.Prelude.{◌≡◌, List};
    ghost use Rattle.std.specs.List.{list_any};
    ghost use Rattle.std.specs.Str.{bytes_eq};
    ghost use Rattle.std.specs.BTreeSet.{contains_text};
    ghost use Rattle.host_core.specs.Paths.{Path};

    ghost Value = { List Path };

    ghost view = { λ t. t.items.items };

    ghost invariant = { λ t. (q : Path) → contains_text t.texts q ≡ list_any (bytes_eq q) t.items.items };
}

fn is_taken(node: &Node, had: Option<Kind>) -> bool
    ensures { result ≡ is_taken node.now had }
{
    match node {
        Node::File { .. } => true,
        Node::Dir { .. } => false,
        Node::Link { .. } => match had {
            None => true,
            Some(Kind::File) => true,
            Some(Kind::Directory) => false,
            Some(Kind::SymbolicLink) => true,
        },
    }
}

// The places of the files and links that were written.
fn places_of(alloc: Global, works: &[Work]) -> Result<Vec<RootPath>, AllocError>
    ensures { IfOk result (λ places. places.items ≡ taken_places works.now) }
{
    let mut places = Vec::new(alloc);
    for work in works {
        if is_taken(&work.node, work.had) {
            places.push(work.place.copy()?)?;
        }
    }
    Ok(places)
}

fn texts_of(alloc: Global, places: &[RootPath]) -> Result<BTreeSet<String>, AllocError>
    ensures { IfOk result (λ texts. (q : Path) → contains_text texts q ≡ list_any (bytes_eq q)
        places.now) }
{
    let mut texts = BTreeSet::new(alloc);
    for place in places {
        texts.insert(String::from_str(alloc, place.as_str())?)?;
    }
    Ok(texts)
}

impl Taken {
    /// Whether a place is among them.
    fn has(&self, place: &str) -> bool
        ensures { result ≡ list_any (bytes_eq place.now) self.now }
    {
        self.texts.contains(place)
    }

    /// Those of the files and links that were written.
    pub(crate) fn of(alloc: Global, works: &[Work]) -> Result<Taken, AllocError>
        ensures { IfOk result (λ taken. taken ≡ taken_places works.now) }
    {
        let items = places_of(alloc, works)?;
        let texts = texts_of(alloc, items.as_slice())?;
        Ok(Taken { items, texts })
    }

    pub(crate) fn into_places(self) -> Vec<RootPath>
        ensures { result.items ≡ self }
    {
        self.items
    }

    /// Whether a package's path has one of these places.
    pub(crate) fn has_path(
        &self,
        diversions: &Diversions,
        name: &Text,
        path: &RootPath,
    ) -> Result<bool, AllocError>
        ensures { IfOk result (λ is. is ≡ is_at diversions.now.ways self.now name.now path.now) }
    {
        let place = diversions.place(name, path)?;
        Ok(self.has(place.as_str()))
    }

    /// The same of a path that can be shipped.
    pub(crate) fn has_ship_path(
        &self,
        diversions: &Diversions,
        name: &Text,
        path: &ShipPath,
    ) -> Result<bool, AllocError>
        ensures { IfOk result (λ is. is ≡ is_at diversions.now.ways self.now name.now path.now) }
    {
        let place = diversions.ship_place(name, path)?;
        Ok(self.has(place.as_str()))
    }
}

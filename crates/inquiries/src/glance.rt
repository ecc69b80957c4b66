// What a command may change under a question.
ghost use Rattle.std.specs.Prelude.{◌≡◌, ◌↔◌, ◌&&◌, Bool, IfOk, IsTrue, [], false, true};
ghost use Rattle.std.specs.BTreeSet.{contains_text};
ghost use Rattle.std.specs.List.{list_all, list_any};
ghost use Rattle.std.specs.Str.{bytes_eq};
ghost use Rattle.host_core.specs.Looks.{Looks};
ghost use Rattle.host_core.specs.Paths.{Path, is_path};
ghost use Rattle.host_core.specs.Tree.{IsListing};
ghost use Rattle.host_core.specs.World.{World};
ghost use Rattle.administration.specs.Places.{info_path, status_path, updates_path};
ghost use Rattle.inquiries.specs.Glances.{AreNames, HaveSame, IsGlance, IsInside, IsSame};
ghost use Rattle.inquiries.specs.Glances as spec;

use administration::{INFO, STATUS, UPDATES};
use host_core::{Host, HostFault, Listing, Node, RootPath};
use std::alloc::{AllocError, Global};
use std::collections::BTreeSet;
use texts::{Text, Texts};

/// What a look at a root shows of what a command changes: what stands at the status file's path,
/// and the names of the notes; where all is read, the names in `info/` too.
#[derive(Drop)]
pub struct Glance {
    pub status: Option<Node>,
    pub updates: Listing,
    /// No names where it wasn't looked for them.
    pub info: Listing,
}

fn same_standing(one: &Option<Node>, other: &Option<Node>) -> Result<bool, AllocError>
    ensures { IfOk result (λ same. same ≡ spec.same_standing one.now other.now) }
{
    match (one, other) {
        (None, None) => Ok(true),
        (None, Some(_)) => Ok(false),
        (Some(_), None) => Ok(false),
        (Some(node), Some(there)) => node.is_same(there),
    }
}

fn texts_of(alloc: Global, names: &[Text]) -> Result<BTreeSet<String>, AllocError>
    ensures { IfOk result (λ texts. (q : Path) → contains_text texts q ≡ list_any (bytes_eq q)
        names.now) }
{
    let mut texts = BTreeSet::new(alloc);
    for name in names {
        texts.insert(String::from_str(alloc, name.as_str())?)?;
    }
    Ok(texts)
}

fn are_among(names: &[Text], texts: &BTreeSet<String>) -> bool
    ensures { result ≡ list_all (contains_text texts.now) names.now }
{
    names.iter().all(|name| texts.contains(name.as_str()))
}

// Whether each name of one listing is one of another.
fn has_all(alloc: Global, listing: &Listing, other: &Listing) -> Result<bool, AllocError>
    ensures { IfOk result (λ all. all ≡ spec.has_all listing.now.names other.now.names) }
{
    let texts = texts_of(alloc, listing.names.as_slice())?;
    Ok(are_among(other.names.as_slice(), &texts))
}

fn same_names(alloc: Global, one: &Listing, other: &Listing) -> Result<bool, AllocError>
    ensures { IfOk result (λ same. IsTrue same ↔ HaveSame one.now other.now) }
{
    if one.bad != other.bad {
        return Ok(false);
    }
    Ok(has_all(alloc, one, other)? && has_all(alloc, other, one)?)
}

fn node_at<H: Host>(alloc: Global, host: &mut H, path: &str) -> Result<Option<Node>, HostFault>
    requires { is_path path.now ≡ true }
    ensures { Looks result (λ node w. node ≡ w path.now) (H.state host.old) (H.state host.new) }
{
    let path = RootPath::from_str(alloc, path)?;
    host.node(&path)
}

fn names_in<H: Host>(alloc: Global, host: &mut H, path: &str) -> Result<Listing, HostFault>
    requires { is_path path.now ≡ true }
    ensures { Looks result (λ listing w. IsListing w path.now listing.names listing.bad)
        (H.state host.old) (H.state host.new) }
{
    let path = RootPath::from_str(alloc, path)?;
    host.list(&path)
}

// The names in `info/`, where they are asked for.
fn info_names<H: Host>(alloc: Global, host: &mut H, asked: bool) -> Result<Listing, HostFault>
    ensures { Looks result (λ listing w. IsInside asked w info_path listing) (H.state host.old)
        (H.state host.new) }
{
    if asked {
        return names_in(alloc, host, INFO);
    }
    Ok(Listing {
        names: Texts::new(alloc),
        bad: false,
    })
}

// The names of the notes, and those in `info/` where they are asked for.
fn all_names<H: Host>(
    alloc: Global,
    host: &mut H,
    asked: bool,
) -> Result<(Listing, Listing), HostFault>
    ensures { Looks result (λ names w. AreNames asked w names.0 names.1) (H.state host.old)
        (H.state host.new) }
{
    let updates = names_in(alloc, host, UPDATES)?;
    let info = info_names(alloc, host, asked)?;
    Ok((updates, info))
}

impl Glance {
    ghost use Rattle.std.specs.Prelude.{◌≡◌, ◌↔◌, Bool, IfOk, IsTrue, true};
    ghost use Rattle.host_core.specs.Looks.{Looks};
    ghost use Rattle.host_core.specs.World.{World};
    ghost use Rattle.inquiries.specs.Glances.{IsGlance, IsSame};

    /// Looks at what changes; with `info` also at the names in `info/`.
    pub fn take<H: Host>(alloc: Global, host: &mut H, info: bool) -> Result<Glance, HostFault>
        ensures { Looks result (λ glance w. IsGlance info w glance) (H.state host.old)
            (H.state host.new) }
    {
        let (updates, info) = all_names(alloc, host, info)?;
        let status = node_at(alloc, host, STATUS)?;
        Ok(Glance {
            status,
            updates,
            info,
        })
    }

    /// Whether another look showed the same.
    pub fn is_same(&self, alloc: Global, other: &Glance) -> Result<bool, AllocError>
        ensures exact { IfOk result (λ same. IsTrue same ↔ IsSame self.now other.now) }
        ensures same { (info : Bool) (w : World) → IsGlance info w self.now → IsGlance info w
            other.now → IfOk result (λ same. same ≡ true) }
    {
        let same = same_standing(&self.status, &other.status)?;
        if !same {
            return Ok(false);
        }
        Ok(
            same_names(alloc, &self.updates, &other.updates)?
                && same_names(alloc, &self.info, &other.info)?,
        )
    }
}

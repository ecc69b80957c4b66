// The files of `DEBIAN` that are stored as they are.
ghost use Rattle.std.specs.Prelude.{◌≡◌, ◌&&◌, ◌||◌, ◌++◌, ◌∷◌, [], true, ℕ, List, Option, IfOk, OnOk, IsSome, codes};
ghost use Rattle.std.specs.List.{list_any};
ghost use Rattle.std.specs.Str.{bytes_eq};
ghost use Rattle.std.specs.BTreeSet.{contains_text};
ghost use Rattle.host_core.specs.Host.{Counts, Leaves, Reads, Silent};
ghost use Rattle.host_core.specs.Looks.{Looks};
ghost use Rattle.host_core.specs.declared.node.Node.{Node as ANode};
ghost use Rattle.package_tree.specs.OtherNames.{is_other_name};
ghost use Rattle.package_tree.specs.OtherFiles.{names_of, control_member, AreOthers, AreOthersOf, HasTakenOther};
ghost use Rattle.package_tree.specs.Shipped.{AreInOrder};

use crate::other_file::{OtherFile, is_other_name};
use host_core::{Access, Host, HostFault, Node, RootPath};
use std::alloc::{AllocError, Global};
use std::collections::BTreeSet;
use texts::Text;

// Adds a name, if it is that of such a file.
fn add_name(alloc: Global, name: &Text, set: &mut BTreeSet<String>) -> Result<(), AllocError>
    ensures { OnOk result
        ((q : List ℕ)
        → contains_text set.new q
        ≡ ((is_other_name q && bytes_eq q name.now) || contains_text set.old q)) }
{
    if is_other_name(name.as_str()) {
        set.insert(String::from_str(alloc, name.as_str())?)?;
        return Ok(());
    }
    Ok(())
}

// The names of such files among others, in their order.
fn other_names(alloc: Global, names: &[Text]) -> Result<BTreeSet<String>, AllocError>
    ensures { IfOk result
        (λ set. (q : List ℕ)
        → contains_text set q ≡ list_any (λ name. is_other_name q && bytes_eq q name) names.now) }
{
    let mut set = BTreeSet::new(alloc);
    for name in names {
        add_name(alloc, name, &mut set)?;
    }
    Ok(set)
}

// Adds what stands in `DEBIAN` by a name, if it is a file; it is root's from here on.
fn push(name: Text, node: Option<Node>, others: &mut Vec<OtherFile>) -> Result<(), AllocError>
    requires { is_other_name name ≡ true }
    ensures { OnOk result (HasTakenOther name node others.old.items others.new.items) }
{
    match node {
        Some(Node::File { bytes, access }) => {
            let own = Access::own(access.mode);
            let node = Node::File { bytes, access: own };
            others.push(OtherFile { name, node })?;
            Ok(())
        }
        Some(Node::Dir { .. }) => Ok(()),
        Some(Node::Link { .. }) => Ok(()),
        None => Ok(()),
    }
}

// Looks at what stands in `DEBIAN` by a name.
fn add<H: Host>(
    host: &mut H,
    directory: &RootPath,
    name: Text,
    others: &mut Vec<OtherFile>,
) -> Result<(), HostFault>
    requires named { is_other_name name ≡ true }
    requires directory { directory.now ≡ codes "/DEBIAN" }
    ensures taken { Leaves result
        (λ w now. HasTakenOther name (w (control_member name)) others.old.items others.new.items)
        (H.state host.old) (H.state host.new) }
    ensures some { OnOk result
        ((node : Option ANode) × HasTakenOther name node others.old.items others.new.items) }
    ensures reads { Reads (H.state host.old) (H.state host.new) }
    ensures silent { Silent (H.state host.old) (H.state host.new) }
    ensures counts { Counts (H.state host.old) (H.state host.new) result }
{
    let Some(path) = directory.child(&name)? else {
        return Err(HostFault::NoMemory);
    };
    let node = host.node(&path)?;
    push(name, node, others)?;
    Ok(())
}

// Looks at all of these.
#[tactic(auto, using(host_core::proofs::Moments::reads_then))]
fn add_all<H: Host>(
    host: &mut H,
    directory: &RootPath,
    names: BTreeSet<String>,
    others: &mut Vec<OtherFile>,
) -> Result<(), HostFault>
    requires empty { others.old.items ≡ [] }
    requires named { (q : List ℕ) → contains_text names q ≡ true → is_other_name q ≡ true }
    requires directory { directory.now ≡ codes "/DEBIAN" }
    ensures found { Leaves result (λ w now. AreOthersOf w (contains_text names) others.new.items)
        (H.state host.old) (H.state host.new) }
    ensures order { OnOk result (AreInOrder (names_of others.new.items)) }
    ensures reads { Reads (H.state host.old) (H.state host.new) }
    ensures silent { Silent (H.state host.old) (H.state host.new) }
    ensures counts { Counts (H.state host.old) (H.state host.new) result }
{
    let mut left = names;
    while let Some(text) = left.pop_first() {
        add(host, directory, Text::new(text), others)?;
    }
    Ok(())
}

/// Reads the files of `DEBIAN` that are stored as they are.
#[tactic(auto, using(host_core::proofs::Moments::reads_then))]
pub(crate) fn read_others<H: Host>(
    alloc: Global,
    host: &mut H,
    others: &mut Vec<OtherFile>,
) -> Result<(), HostFault>
    requires { others.old.items ≡ [] }
    ensures found { Leaves result (λ w now. AreOthers w others.new.items) (H.state host.old)
        (H.state host.new) }
    ensures order { OnOk result (AreInOrder (names_of others.new.items)) }
    ensures reads { Reads (H.state host.old) (H.state host.new) }
    ensures silent { Silent (H.state host.old) (H.state host.new) }
    ensures counts { Counts (H.state host.old) (H.state host.new) result }
{
    let directory = RootPath::from_str(alloc, "/DEBIAN")?;
    let names = listed(alloc, host, &directory)?;
    add_all(host, &directory, names, others)
}

// The names of such files in a directory.
fn listed<H: Host>(
    alloc: Global,
    host: &mut H,
    directory: &RootPath,
) -> Result<BTreeSet<String>, HostFault>
    requires { directory.now ≡ codes "/DEBIAN" }
    ensures named { IfOk result
        (λ names. (q : List ℕ) → contains_text names q ≡ true → is_other_name q ≡ true) }
    ensures looks { Looks result
        (λ names w. (q : List ℕ) → is_other_name q ≡ true → IsSome (w (directory.now ++ 47 ∷ q))
        → contains_text names q ≡ true)
        (H.state host.old) (H.state host.new) }
{
    let listing = host.list(directory)?;
    Ok(other_names(alloc, listing.names.as_slice())?)
}

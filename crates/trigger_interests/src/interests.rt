// The triggers of the packages of a root.
ghost use Rattle.std.specs.Prelude.{◌≡◌, ◌++◌, IfOk, OnOk, true};
ghost use Rattle.texts.specs.PackageNames.{is_package_name};
ghost use Rattle.host_core.specs.Host.{Counts, Leaves, Reads, Silent};
ghost use Rattle.host_core.specs.Looks.{Looks};
ghost use Rattle.trigger_interests.specs.Interests.{activations_by, activations_of, declared, declared_at, or_none, interests_by, interests_of, is_interest, is_noawait, triggers_path};
ghost use Rattle.trigger_interests.specs.Lines.{declarations_in};

use crate::lines::{Declaration, read_declarations};
use crate::words::Directive;
use host_core::{Host, HostFault, Node, RootPath};
use std::alloc::{AllocError, Global};
use texts::{Text, package_name};

/// A package is interested in the trigger of this name, and whether nobody waits for it.
#[derive(Drop)]
pub struct Interest {
    pub package: Text,
    pub name: Text,
    pub noawait: bool,
}

impl Interest {
    pub fn copy(&self) -> Result<Interest, AllocError>
        ensures { IfOk result (λ copy. copy ≡ self.now) }
    {
        Ok(Interest {
            package: self.package.copy()?,
            name: self.name.copy()?,
            noawait: self.noawait,
        })
    }
}

fn is_interest(directive: Directive) -> bool
    ensures { result ≡ is_interest directive }
{
    match directive {
        Directive::Interest { .. } => true,
        Directive::Activate => false,
    }
}

fn is_noawait(directive: Directive) -> bool
    ensures { result ≡ is_noawait directive }
{
    match directive {
        Directive::Interest { noawait } => noawait,
        Directive::Activate => false,
    }
}

// What a text declares; nothing where a line is faulty.
fn declared_in(alloc: Global, text: &[u8]) -> Result<Vec<Declaration>, AllocError>
    ensures { IfOk result (λ found. found.items ≡ or_none (declarations_in text.now)) }
{
    match read_declarations(alloc, text)? {
        Ok(declarations) => Ok(declarations),
        Err(_) => Ok(Vec::new(alloc)),
    }
}

// What the node at the file's place declares.
fn declared_at(alloc: Global, node: &Option<Node>) -> Result<Vec<Declaration>, AllocError>
    ensures { IfOk result (λ found. found.items ≡ declared_at node.now) }
{
    match node {
        Some(Node::File { bytes, .. }) => declared_in(alloc, bytes.held()?),
        Some(Node::Dir { .. }) => Ok(Vec::new(alloc)),
        Some(Node::Link { .. }) => Ok(Vec::new(alloc)),
        None => Ok(Vec::new(alloc)),
    }
}

fn triggers_path(alloc: Global, package: &str) -> Result<RootPath, AllocError>
    requires { is_package_name «package».now ≡ true }
    ensures { IfOk result (λ path. path ≡ triggers_path «package».now) }
{
    Ok(RootPath::new(format!(in alloc; "/var/lib/dpkg/info/{package}.triggers")?))
}

// What a package declares.
fn read_declared<H: Host>(
    alloc: Global,
    host: &mut H,
    package: &Text,
) -> Result<Vec<Declaration>, HostFault>
    ensures looks { Looks result (λ found w. found.items ≡ declared w «package».now)
        (H.state host.old) (H.state host.new) }
{
    let Some(package) = package_name(package.as_str().as_bytes()) else {
        return Ok(Vec::new(alloc));
    };
    let path = triggers_path(alloc, package)?;
    let node = host.node(&path)?;
    Ok(declared_at(alloc, &node)?)
}

// Adds the interests among the declarations of a package.
fn add_interests(
    package: &Text,
    declarations: Vec<Declaration>,
    found: &mut Vec<Interest>,
) -> Result<(), AllocError>
    ensures { OnOk result (found.new.items
        ≡ found.old.items ++ interests_by «package».now declarations.items) }
{
    for declaration in &declarations {
        if is_interest(declaration.directive) {
            found.push(Interest {
                package: package.copy()?,
                name: declaration.name.copy()?,
                noawait: is_noawait(declaration.directive),
            })?;
        }
    }
    Ok(())
}

/// Adds those of a package, as those of another name: dpkg names some packages with their architecture. No script is called.
pub fn add_interests_as<H: Host>(
    alloc: Global,
    host: &mut H,
    package: &Text,
    label: &Text,
    found: &mut Vec<Interest>,
) -> Result<(), HostFault>
    ensures added { Leaves result (λ w _. found.new.items
        ≡ found.old.items ++ interests_by label.now (declared w «package».now))
        (H.state host.old) (H.state host.new) }
    ensures reads { Reads (H.state host.old) (H.state host.new) }
    ensures silent { Silent (H.state host.old) (H.state host.new) }
    ensures counts { Counts (H.state host.old) (H.state host.new) result }
{
    let declarations = read_declared(alloc, host, package)?;
    Ok(add_interests(label, declarations, found)?)
}

// Adds those of each package.
fn add_packages<H: Host>(
    alloc: Global,
    host: &mut H,
    packages: &[Text],
    found: &mut Vec<Interest>,
) -> Result<(), HostFault>
    ensures added { Leaves result (λ w _. found.new.items
        ≡ found.old.items ++ interests_of w packages.now) (H.state host.old)
        (H.state host.new) }
    ensures reads { Reads (H.state host.old) (H.state host.new) }
    ensures silent { Silent (H.state host.old) (H.state host.new) }
    ensures counts { Counts (H.state host.old) (H.state host.new) result }
{
    for package in packages {
        add_interests_as(alloc, host, package, package, found)?;
    }
    Ok(())
}

/// The interests of these packages, in their order. No script is called.
pub fn read_interests<H: Host>(
    alloc: Global,
    host: &mut H,
    packages: &[Text],
) -> Result<Vec<Interest>, HostFault>
    ensures looks { Looks result (λ interests w. interests.items ≡ interests_of w packages.now)
        (H.state host.old) (H.state host.new) }
{
    let mut interests = Vec::new(alloc);
    match add_packages(alloc, host, packages, &mut interests) {
        Ok(()) => Ok(interests),
        Err(fault) => Err(fault),
    }
}

fn activations_by(alloc: Global, declarations: Vec<Declaration>) -> Result<Vec<Text>, AllocError>
    ensures { IfOk result (λ names. names.items ≡ activations_by declarations.items) }
{
    let mut names = Vec::new(alloc);
    for declaration in &declarations {
        if !is_interest(declaration.directive) {
            names.push(declaration.name.copy()?)?;
        }
    }
    Ok(names)
}

/// The triggers that a package activates by itself. No script is called.
pub fn read_activations<H: Host>(
    alloc: Global,
    host: &mut H,
    package: &Text,
) -> Result<Vec<Text>, HostFault>
    ensures looks { Looks result (λ names w. names.items ≡ activations_of w «package».now)
        (H.state host.old) (H.state host.new) }
{
    let declarations = read_declared(alloc, host, package)?;
    Ok(activations_by(alloc, declarations)?)
}

// The packages of which an unpack may take files over.
ghost use Rattle.std.specs.Prelude.{◌≡◌, ◌++◌, ◌∷◌, [], cond, filter, map, IfOk, OnOk};
ghost use Rattle.std.specs.List.{list_any};
ghost use Rattle.relation_fields.specs.Admission.{clause_admits};
ghost use Rattle.unpack_relations.specs.Beside.{is_replaced};

use relation_fields::{Clause, Offer, Provides};
use relation_index::Package;
use std::alloc::{AllocError, Global};
use texts::Texts;

// Whether a field admits a package by its own name and version, whatever it provides.
fn admits_by_name(alloc: Global, field: &[Clause], other: &Package) -> bool
    ensures { result ≡ list_any (λ clause. clause_admits clause other.now.name
        other.now.architecture other.now.version []) field.now }
{
    let nothing = Provides::new(alloc);
    let offer = Offer {
        name: other.name.as_str(),
        architecture: &other.architecture,
        version: &other.version,
        provides: &nothing,
    };
    field.iter().any(|clause| clause.admits(&offer))
}

fn is_replaced(alloc: Global, incoming: &Package, other: &Package) -> bool
    ensures { result ≡ is_replaced incoming.now other.now }
{
    !(other.name.as_str() == incoming.name.as_str())
        && (other.is_present() && admits_by_name(alloc, incoming.replaces.clauses(), other))
}

fn push_replaced(
    alloc: Global,
    names: &mut Texts,
    incoming: &Package,
    other: &Package,
) -> Result<(), AllocError>
    ensures { OnOk result (names.new ≡ cond (is_replaced incoming.now other.now)
        (names.old ++ other.now.name ∷ []) names.old) }
{
    if is_replaced(alloc, incoming, other) {
        names.push(other.name.copy()?)?;
    }
    Ok(())
}

/// The names of the replaced packages.
pub(crate) fn replaced_names(
    alloc: Global,
    packages: &[Package],
    incoming: &Package,
) -> Result<Texts, AllocError>
    ensures { IfOk result (λ names. names ≡ map (λ p. p.name) (filter (is_replaced incoming.now)
        packages.now)) }
{
    let mut names = Texts::new(alloc);
    for other in packages {
        push_replaced(alloc, &mut names, incoming, other)?;
    }
    Ok(names)
}

// The order in which dpkg writes the fields of a record.
ghost use Rattle.std.specs.Prelude.{◌≡◌, ◌≤◌, ◌+◌, ◌++◌, [], IfOk, OnOk, length, nat_lt};
ghost use Rattle.std.specs.List.{AllByRecursion, position_or_len, prefix_len};
ghost use Rattle.std.specs.Str.{bytes_eq};
ghost use Rattle.control_fields.specs.Names.{lower};
ghost use Rattle.control_fields.specs.Spelling.{AreFields};
ghost use Rattle.status_records.specs.Order.{rank, merged, in_dpkgs_order};
ghost use Rattle.status_records.specs.Recorded.{is_dpkgs};

use control_fields::{Field, Paragraph};
use std::alloc::{AllocError, Global};

// dpkg's names, in lower case.
const NAMES: [&str; 33] = [
    "package",
    "essential",
    "protected",
    "status",
    "priority",
    "section",
    "installed-size",
    "origin",
    "maintainer",
    "bugs",
    "architecture",
    "multi-arch",
    "source",
    "version",
    "revision",
    "config-version",
    "replaces",
    "provides",
    "depends",
    "pre-depends",
    "recommends",
    "suggests",
    "breaks",
    "conflicts",
    "enhances",
    "conffiles",
    "filename",
    "size",
    "md5sum",
    "msdos-filename",
    "description",
    "triggers-pending",
    "triggers-awaited",
];

// The index of the first of the names that is this one in any case; their number, where none is.
fn place_of(name: &[u8], names: &[&str]) -> usize
    requires { AllByRecursion (λ n. lower n.now ≡ n.now) names.now }
    ensures { result ≡ position_or_len (λ n. bytes_eq (lower name.now) n.now) names.now }
{
    for (i, other) in names.iter().enumerate() {
        if name.eq_ignore_ascii_case(other.as_bytes()) {
            return i;
        }
    }
    names.len()
}

fn rank(field: &Field) -> usize
    ensures { result ≡ rank field.now }
{
    place_of(field.name.as_slice(), &NAMES)
}

/// Whether dpkg names the field.
pub(crate) fn is_dpkgs(field: &Field) -> bool
    ensures { result ≡ is_dpkgs field.now }
{
    rank(field) < NAMES.len()
}

// How many of the fields, from the first on, come before a place in dpkg's order.
fn count_before(fields: &[Field], place: usize) -> usize
    ensures within { result ≤ length fields.now }
    ensures value { result ≡ prefix_len (λ f. nat_lt (rank f) place) fields.now }
{
    for (i, field) in fields.iter().enumerate() {
        if rank(field) >= place {
            return i;
        }
    }
    fields.len()
}

// How many of the fields, from the first on, don't come behind a place in dpkg's order: all, at the place behind its
// names, without a look at any of them.
fn place_among(fields: &[Field], place: usize) -> usize
    ensures within { result ≤ length fields.now }
    ensures value { result ≡ prefix_len (λ f. nat_lt (rank f) (place + 1)) fields.now }
{
    if place >= NAMES.len() {
        return fields.len();
    }
    count_before(fields, place + 1)
}

// Adds fields behind all others.
fn add_all(fields: &[Field], paragraph: &mut Paragraph) -> Result<(), AllocError>
    requires { ∥ AreFields [] (paragraph.old ++ fields.now) ∥₁ }
    ensures { OnOk result (paragraph.new ≡ paragraph.old ++ fields.now) }
{
    for field in fields {
        paragraph.push(field.copy()?)?;
    }
    Ok(())
}

/// A record's own fields among its other ones.
pub(crate) fn merged(
    alloc: Global,
    own: &[Field],
    others: &Paragraph,
) -> Result<Paragraph, AllocError>
    requires { ∥ AreFields [] (merged own.now others.now) ∥₁ }
    ensures { IfOk result (λ p. p ≡ merged own.now others.now) }
{
    let mut paragraph = Paragraph::new(alloc);
    let mut left = own;
    for field in others.fields() {
        let (ahead, behind) = left.split_at(count_before(left, rank(field)));
        add_all(ahead, &mut paragraph)?;
        paragraph.push(field.copy()?)?;
        left = behind;
    }
    add_all(left, &mut paragraph)?;
    Ok(paragraph)
}

/// Fields in dpkg's order.
pub(crate) fn in_dpkgs_order(alloc: Global, fields: &Paragraph) -> Result<Paragraph, AllocError>
    requires { ∥ AreFields [] fields.now ∥₁ }
    ensures { IfOk result (λ p. p ≡ in_dpkgs_order fields.now) }
{
    let mut sorted = Vec::new(alloc);
    for field in fields.fields() {
        let place = place_among(sorted.as_slice(), rank(field));
        sorted.insert(place, field.copy()?)?;
    }
    let mut paragraph = Paragraph::new(alloc);
    add_all(sorted.as_slice(), &mut paragraph)?;
    Ok(paragraph)
}

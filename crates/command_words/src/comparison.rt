// The comparison of two versions by an operator, and its answer.
ghost use Rattle.std.specs.Prelude.{◌≡◌, ◌⊎◌, IfOk, IfErr, OnOk, Some, None, option_map, string_bytes};
ghost use Rattle.command_words.specs.Comparisons.{IsBadText, IsVerdict, bad_version_line, fault_text, holds, is_behind, is_late, late_operator, named_operator, operator_of, order_of, sign_operator, text_fault, version_text};

use shown_lines::line;
use std::alloc::{AllocError, Global};
use std::cmp::Ordering;
use texts::Text;
use version_order::{Version, VersionFault};

/// An operator of `compare-versions`. For those whose names end in `Nl` an empty text stands behind all versions; for the others it
/// is no version.
#[derive(Clone, Copy)]
pub enum Operator {
    Lt,
    Le,
    Eq,
    Ne,
    Ge,
    Gt,
    LtNl,
    LeNl,
    GeNl,
    GtNl,
}

impl Operator {
    /// The operator that dpkg names by this word.
    pub(crate) fn read(word: &str) -> Option<Operator>
        ensures { result ≡ operator_of word.now }
    {
        Operator::named(word)
            .or(Operator::late(word))
            .or(Operator::sign(word))
    }

    fn named(word: &str) -> Option<Operator>
        ensures { result ≡ named_operator word.now }
    {
        match word {
            "lt" => Some(Operator::Lt),
            "le" => Some(Operator::Le),
            "eq" => Some(Operator::Eq),
            "ne" => Some(Operator::Ne),
            "ge" => Some(Operator::Ge),
            "gt" => Some(Operator::Gt),
            _ => None,
        }
    }

    fn late(word: &str) -> Option<Operator>
        ensures { result ≡ late_operator word.now }
    {
        match word {
            "lt-nl" => Some(Operator::LtNl),
            "le-nl" => Some(Operator::LeNl),
            "ge-nl" => Some(Operator::GeNl),
            "gt-nl" => Some(Operator::GtNl),
            _ => None,
        }
    }

    // The signs of control files. `<` and `>` are old names of `<=` and `>=`.
    fn sign(word: &str) -> Option<Operator>
        ensures { result ≡ sign_operator word.now }
    {
        match word {
            "<<" => Some(Operator::Lt),
            "<=" => Some(Operator::Le),
            "<" => Some(Operator::Le),
            "=" => Some(Operator::Eq),
            ">=" => Some(Operator::Ge),
            ">" => Some(Operator::Ge),
            ">>" => Some(Operator::Gt),
            _ => None,
        }
    }

    // Whether it holds of two texts in this order.
    fn holds(self, order: Ordering) -> bool
        ensures { result ≡ holds self order }
    {
        match self {
            Operator::Lt | Operator::LtNl => order.is_lt(),
            Operator::Le | Operator::LeNl => order.is_le(),
            Operator::Eq => order.is_eq(),
            Operator::Ne => order.is_ne(),
            Operator::Ge | Operator::GeNl => order.is_ge(),
            Operator::Gt | Operator::GtNl => order.is_gt(),
        }
    }

    fn is_late(self) -> bool
        ensures { result ≡ is_late self }
    {
        match self {
            Operator::LtNl | Operator::LeNl | Operator::GeNl | Operator::GtNl => true,
            Operator::Lt
            | Operator::Le
            | Operator::Eq
            | Operator::Ne
            | Operator::Ge
            | Operator::Gt => false,
        }
    }

    // Whether a text stands behind all versions.
    fn is_behind(self, text: &str) -> bool
        ensures { result ≡ is_behind self text.now }
    {
        self.is_late() && text == ""
    }
}

// The order of two versions, or of empty texts in their places.
fn order_of(first: &Option<Version>, second: &Option<Version>) -> Ordering
    ensures { result ≡ order_of first.now second.now }
{
    match first {
        Some(first) => match second {
            Some(second) => first.compare(second),
            None => Ordering::Less,
        },
        None => match second {
            Some(_) => Ordering::Greater,
            None => Ordering::Equal,
        },
    }
}

/// Two texts, which may be no versions, and an operator between them.
#[derive(Drop)]
pub struct Comparison {
    pub first: Text,
    pub operator: Operator,
    pub second: Text,
}

/// The answer to a comparison.
#[derive(Clone, Copy)]
pub enum Verdict<'a> {
    Holds,
    Fails,
    /// The first text that is no version, with its fault.
    Bad(&'a str, VersionFault),
    OutOfMemory,
}

// The version of a text, or none of one that stands behind all.
fn version_of(
    alloc: Global,
    operator: Operator,
    text: &str,
) -> Result<Option<Version>, VersionFault>
    ensures version { IfOk result (λ version. version ≡ version_text operator text.now) }
    ensures good { OnOk result (text_fault operator text.now ≡ None) }
    ensures bad { IfErr result
        (λ fault. (fault ≡ VersionFault.NoMemory) ⊎ (text_fault operator text.now ≡ Some fault)) }
{
    if operator.is_behind(text) {
        return Ok(None);
    }
    Ok(Some(Version::parse(alloc, text.as_bytes())?))
}

// What is said against a text.
fn fault_verdict(operator: Operator, text: &str, fault: VersionFault) -> Verdict<'_>
    requires { (fault ≡ VersionFault.NoMemory) ⊎ (text_fault operator text.now ≡ Some fault) }
    ensures { IsBadText operator text.now result }
{
    let _ = operator;
    match fault {
        VersionFault::NoMemory => Verdict::OutOfMemory,
        fault => Verdict::Bad(text, fault),
    }
}

impl Comparison {
    /// The answer, for which the first text is read before the second.
    pub fn verdict(&self, alloc: Global) -> Verdict<'_>
        ensures { IsVerdict self.now.first self.now.operator self.now.second result }
    {
        let operator = self.operator;
        let first = match version_of(alloc, operator, self.first.as_str()) {
            Ok(version) => version,
            Err(fault) => return fault_verdict(operator, self.first.as_str(), fault),
        };
        let second = match version_of(alloc, operator, self.second.as_str()) {
            Ok(version) => version,
            Err(fault) => return fault_verdict(operator, self.second.as_str(), fault),
        };
        if operator.holds(order_of(&first, &second)) {
            Verdict::Holds
        } else {
            Verdict::Fails
        }
    }
}

fn fault_text(alloc: Global, fault: VersionFault) -> Result<String, AllocError>
    ensures { IfOk result (λ text. string_bytes text ≡ fault_text fault) }
{
    match fault {
        VersionFault::Empty => String::from_str(alloc, "Empty"),
        VersionFault::Epoch => String::from_str(alloc, "Epoch"),
        VersionFault::EmptyPart => String::from_str(alloc, "EmptyPart"),
        VersionFault::Char(place) => format!(in alloc; "Char {place}"),
        VersionFault::NoMemory => String::from_str(alloc, "NoMemory"),
    }
}

/// The line that names a text that is no version.
pub fn bad_version_line(
    alloc: Global,
    text: &str,
    fault: VersionFault,
) -> Result<String, AllocError>
    ensures { IfOk result (λ printed. string_bytes printed ≡ bad_version_line (text.now, fault)) }
{
    let fault = fault_text(alloc, fault)?;
    let content = format!(in alloc; "bad version {text}: {fault}")?;
    line(alloc, content.as_str())
}

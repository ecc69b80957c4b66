// Faults and refusals in the program's own words.
ghost use Rattle.std.specs.Prelude.{◌≡◌, ◌++◌, IfOk, codes, string_bytes};
ghost use Rattle.relation_fields.specs.Printing.{print_clause};
ghost use Rattle.report_lines.specs.Faults.{control_text, divert_word, field_word, line_text, path_text, rule_text, step_text, target_text, tree_text};
ghost use Rattle.report_lines.specs.Openings.{damaged_line, expectation, line_expectation, opening_line, whole_expectation};

use administration::AdministrationFault;
use control_fields::ControlFault;
use host_core::RootPath;
use package_tree::{FieldName, LineName, TreeFault};
use relation_fields::Clause;
use shown_lines::line;
use std::alloc::{AllocError, Global};
use texts::Text;
use undo_rows::StepFault;
use unit_reports::Rule;

fn control_text(alloc: Global, fault: ControlFault) -> Result<String, AllocError>
    ensures { IfOk result (λ text. string_bytes text ≡ control_text fault) }
{
    match fault {
        ControlFault::NoColon(line) => format!(in alloc; "NoColon {line}"),
        ControlFault::BadName(line) => format!(in alloc; "BadName {line}"),
        ControlFault::Twice(line) => format!(in alloc; "Twice {line}"),
        ControlFault::OrphanContinuation(line) => format!(in alloc; "OrphanContinuation {line}"),
        ControlFault::NotUtf8(line) => format!(in alloc; "NotUtf8 {line}"),
        ControlFault::NoMemory => String::from_str(alloc, "NoMemory"),
        ControlFault::Second(line) => format!(in alloc; "Second {line}"),
    }
}

fn field_word(name: FieldName) -> &'static str
    ensures { result.now ≡ field_word name }
{
    match name {
        FieldName::Package => "Package",
        FieldName::Version => "Version",
        FieldName::Essential => "Essential",
        FieldName::Relation(relation) => relation.name(),
    }
}

fn path_text(path: &RootPath) -> &str
    ensures { result.now ≡ path_text path.now }
{
    match path.as_str() {
        "" => "/",
        path => path,
    }
}

// A fault of one path, by its name.
fn at_path(alloc: Global, name: &str, path: &RootPath) -> Result<String, AllocError>
    ensures { IfOk result (λ text. string_bytes text ≡ name.now
        ++ (codes " " ++ path_text path.now)) }
{
    let path = path_text(path);
    format!(in alloc; "{name} {path}")
}

// A fault of one path that another package has to do with.
fn at_path_of(
    alloc: Global,
    name: &str,
    path: &RootPath,
    other: &Text,
) -> Result<String, AllocError>
    ensures { IfOk result (λ text. string_bytes text ≡ name.now
        ++ (codes " " ++ (path_text path.now ++ (codes " " ++ other.now)))) }
{
    let path = path_text(path);
    let other = other.as_str();
    format!(in alloc; "{name} {path} {other}")
}

fn line_text(alloc: Global, name: &LineName) -> Result<String, AllocError>
    ensures { IfOk result (λ text. string_bytes text ≡ line_text name.now) }
{
    match name {
        LineName::Text(text) => String::from_str(alloc, text.as_str()),
        LineName::Number(number) => {
            let number = *number;
            format!(in alloc; "{number}")
        }
    }
}

fn tree_text(alloc: Global, fault: &TreeFault) -> Result<String, AllocError>
    ensures { IfOk result (λ text. string_bytes text ≡ tree_text fault.now) }
{
    match fault {
        TreeFault::Twice => String::from_str(alloc, "Twice"),
        TreeFault::NoRoom(path) => at_path(alloc, "Declined", path),
        TreeFault::NoControl => String::from_str(alloc, "NoControl"),
        TreeFault::Control(fault) => {
            let fault = control_text(alloc, *fault)?;
            format!(in alloc; "Control {fault}")
        }
        TreeFault::FieldMissing(name) => {
            let name = field_word(*name);
            format!(in alloc; "FieldMissing {name}")
        }
        TreeFault::FieldBad(name) => {
            let name = field_word(*name);
            format!(in alloc; "FieldBad {name}")
        }
        TreeFault::PathBad(path) => at_path(alloc, "PathBad", path),
        TreeFault::Reserved(path) => at_path(alloc, "Reserved", path),
        TreeFault::ConffileNotShipped(name) => {
            let name = line_text(alloc, name)?;
            format!(in alloc; "ConffileNotShipped {name}")
        }
        TreeFault::ConffileShipped(path) => at_path(alloc, "ConffileShipped", path),
        TreeFault::ConffileFlag(line) => {
            let line = *line;
            format!(in alloc; "ConffileFlag {line}")
        }
        TreeFault::TooLarge(path) => at_path(alloc, "TooLarge", path),
        TreeFault::TooMany => String::from_str(alloc, "TooMany 65536"),
        TreeFault::Device => String::from_str(alloc, "Device"),
        TreeFault::NoMemory => String::from_str(alloc, "NoMemory"),
        TreeFault::Declined => String::from_str(alloc, "Declined"),
    }
}

fn divert_word(refusal: diversions::Refusal) -> &'static str
    ensures { result.now ≡ divert_word refusal }
{
    match refusal {
        diversions::Refusal::SamePath => "SamePath",
        diversions::Refusal::Directory => "Directory",
        diversions::Refusal::AlreadyDiverted => "AlreadyDiverted",
        diversions::Refusal::TargetDiverted => "TargetDiverted",
        diversions::Refusal::Conffile => "Conffile",
        diversions::Refusal::NotDiverted => "NotDiverted",
        diversions::Refusal::OtherOwner => "OtherOwner",
        diversions::Refusal::TargetExists => "TargetExists",
        diversions::Refusal::NoParent => "NoParent",
    }
}

// A rule that names a clause of a package's relations.
fn of_clause(alloc: Global, name: &str, clause: &Clause) -> Result<String, AllocError>
    ensures { IfOk result (λ text. string_bytes text ≡ name.now
        ++ (codes " " ++ print_clause clause.now)) }
{
    let clause = clause.printed()?;
    format!(in alloc; "{name} {clause}")
}

/// A rule that names another package, or the architecture of its own, or a trigger.
pub(crate) fn of_package(alloc: Global, name: &str, other: &Text) -> Result<String, AllocError>
    ensures { IfOk result (λ text. string_bytes text ≡ name.now ++ (codes " " ++ other.now)) }
{
    let other = other.as_str();
    format!(in alloc; "{name} {other}")
}

/// The rule of a refusal with its detail.
pub(crate) fn rule_text(alloc: Global, rule: &Rule) -> Result<String, AllocError>
    ensures { IfOk result (λ text. string_bytes text ≡ rule_text rule.now) }
{
    match rule {
        Rule::Tree(fault) => tree_text(alloc, fault),
        Rule::OverrideLine(line) => {
            let line = *line;
            format!(in alloc; "OverrideLine {line}")
        }
        Rule::OwnerUnknown(shipped) => {
            let shipped = shipped.as_str();
            format!(in alloc; "OwnerUnknown {shipped}")
        }
        Rule::ConffileDiverted(path) => {
            let path = path.as_str();
            format!(in alloc; "ConffileDiverted {path}")
        }
        Rule::Architecture(own) => of_package(alloc, "Architecture", own),
        Rule::PreDepends(clause) => of_clause(alloc, "PreDepends", clause),
        Rule::Conflicts(other) => of_package(alloc, "Conflicts", other),
        Rule::ConflictEssential(other) => of_package(alloc, "ConflictEssential", other),
        Rule::Dependents(other) => of_package(alloc, "Dependents", other),
        Rule::Breaks(other) => of_package(alloc, "Breaks", other),
        Rule::Divert(refusal) => String::from_str(alloc, divert_word(*refusal)),
        Rule::Unknown => String::from_str(alloc, "Unknown"),
        Rule::WrongState => String::from_str(alloc, "WrongState"),
        Rule::Reinstreq => String::from_str(alloc, "Reinstreq"),
        Rule::NothingToRemove => String::from_str(alloc, "NothingToRemove"),
        Rule::Essential => String::from_str(alloc, "Essential"),
        Rule::Depends(clause) => of_clause(alloc, "Depends", clause),
        Rule::BrokenBy(other) => of_package(alloc, "BrokenBy", other),
        Rule::ConffileKind(path) => at_path(alloc, "ConffileKind", path),
        Rule::DependedOn(other) => of_package(alloc, "DependedOn", other),
    }
}

fn target_text(
    alloc: Global,
    path: &RootPath,
    diverter: &Option<Text>,
) -> Result<String, AllocError>
    ensures { IfOk result (λ text. string_bytes text ≡ target_text path.now diverter.now) }
{
    match diverter {
        None => at_path(alloc, "DiversionTarget", path),
        Some(diverter) => at_path_of(alloc, "DiversionTarget", path, diverter),
    }
}

/// The step fault of a package's files.
pub(crate) fn step_text(alloc: Global, fault: &StepFault) -> Result<String, AllocError>
    ensures { IfOk result (λ text. string_bytes text ≡ step_text fault.now) }
{
    match fault {
        StepFault::LinkParent(path) => at_path(alloc, "LinkParent", path),
        StepFault::NoParent(path) => at_path(alloc, "NoParent", path),
        StepFault::DirInWay(path) => at_path(alloc, "DirInWay", path),
        StepFault::Clash(path, owner) => at_path_of(alloc, "Clash", path, owner),
        StepFault::DiversionTarget(path, diverter) => target_text(alloc, path, diverter),
        StepFault::Declined(path) => at_path(alloc, "Declined", path),
    }
}

// What a line of a file of the administration is to have.
fn line_expectation(file: &[u8]) -> &'static str
    ensures { result.now ≡ line_expectation file.now }
{
    if file.starts_with(b"/var/lib/dpkg/info/") {
        return "an absolute path, or /. for the root";
    }
    if file.starts_with(b"/var/lib/dpkg/diversions") {
        return "three lines for each diversion: a path, its target, and a package or :";
    }
    "a field of a package's record, \"Name: value\", once and with a value that can be read; packages of one architecture"
}

// What is to stand there as a whole.
fn whole_expectation(file: &[u8]) -> &'static str
    ensures { result.now ≡ whole_expectation file.now }
{
    if file.starts_with(b"/var/lib/dpkg/info/") {
        return "a file of a package whose name has no architecture";
    }
    "a file or directory as dpkg has it there"
}

fn expectation(file: &[u8], line: u64) -> &'static str
    ensures { result.now ≡ expectation file.now line }
{
    if line == 0 {
        whole_expectation(file)
    } else {
        line_expectation(file)
    }
}

fn damaged_line(alloc: Global, file: &RootPath, at: u64) -> Result<String, AllocError>
    ensures { IfOk result (λ printed. string_bytes printed ≡ damaged_line file.now at) }
{
    let file = path_text(file);
    let content = format!(in alloc; "damaged {file} {at}")?;
    line(alloc, content.as_str())
}

/// The lines of a fault on opening, for standard error: the fault, and of damage what was expected there.
pub fn opening_line(alloc: Global, fault: &AdministrationFault) -> Result<String, AllocError>
    ensures { IfOk result (λ printed. string_bytes printed ≡ opening_line fault.now) }
{
    match fault {
        AdministrationFault::Damaged { file, line } => {
            let expected = expectation(file.as_str().as_bytes(), *line);
            let damage = damaged_line(alloc, file, *line)?;
            format!(in alloc; "{damage}expected: {expected}\n")
        }
        AdministrationFault::Device => String::from_str(alloc, "broken device\n"),
        AdministrationFault::NoMemory => String::from_str(alloc, "broken memory\n"),
        AdministrationFault::Declined => String::from_str(alloc, "broken declined\n"),
    }
}

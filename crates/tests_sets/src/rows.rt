// What the crates answer about packages that are given by their fields, each answer as one text.
use dependency_check::{
    CheckFault, Plan, UnmetClause, UnpackRefusal, breakers_of, broken_by, check_unpack,
    configurable, depended_on_by, first_unmet, next_to_configure, next_to_remove, removable,
};
use relation_fields::{Clause, Form, Provides, Relations};
use relation_index::{Package, PackageState, Packages};
use std::alloc::{AllocError, Global};
use std::process::Abort;
use std::test::Fail;
use texts::Text;
use version_order::Version;

// A package: its name, its version, its state and its fields.
type Row = (
    &'static str,
    &'static str,
    PackageState,
    &'static [(&'static str, &'static str)],
);

fn field(row: &Row, name: &str) -> &'static str {
    for (key, value) in row.3 {
        if *key == name {
            return value;
        }
    }
    ""
}

fn relations(alloc: Global, row: &Row, name: &str, form: Form) -> Result<Relations, Fail> {
    let relations = Relations::read(alloc, field(row, name).as_bytes(), form)?;
    Ok(relations)
}

fn configured(alloc: Global, row: &Row) -> Result<Option<Version>, Fail> {
    let text = field(row, "Config-Version");
    if text.is_empty() {
        return Ok(None);
    }
    let version = Version::parse(alloc, text.as_bytes())?;
    Ok(Some(version))
}

fn architecture(alloc: Global, row: &Row) -> Result<Option<Text>, Fail> {
    let text = field(row, "Architecture");
    if text.is_empty() {
        return Ok(None);
    }
    Ok(Some(Text::from_str(alloc, text)?))
}

fn package(alloc: Global, row: &Row) -> Result<Package, Fail> {
    Ok(Package {
        name: Text::from_str(alloc, row.0)?,
        architecture: architecture(alloc, row)?,
        version: Version::parse(alloc, row.1.as_bytes())?,
        state: row.2,
        awaits: field(row, "Triggers-Awaited") != "",
        reinstreq: false,
        essential: field(row, "Essential") == "yes",
        configured: configured(alloc, row)?,
        removed_since: field(row, "Removed-Since") == "yes",
        provides: Provides::read(alloc, field(row, "Provides").as_bytes())?,
        pre_depends: relations(alloc, row, "Pre-Depends", Form::Alternatives)?,
        depends: relations(alloc, row, "Depends", Form::Alternatives)?,
        breaks: relations(alloc, row, "Breaks", Form::Plain)?,
        conflicts: relations(alloc, row, "Conflicts", Form::Plain)?,
        replaces: relations(alloc, row, "Replaces", Form::Plain)?,
    })
}

fn packages(rt: &(impl Abort + AllocGlobal), rows: &[Row]) -> Result<Packages, Fail> {
    let alloc = rt.alloc();
    let mut list = Vec::new(alloc);
    for row in rows {
        list.push(package(alloc, row)?)?;
    }
    let found = Packages::of(alloc, list)?;
    Ok(found.expect(rt, "rows in name order"))
}

fn name_of(packages: &Packages, number: usize) -> &str {
    match packages.as_slice().get(number) {
        Some(package) => package.name.as_str(),
        None => "?",
    }
}

fn push_clause(text: &mut String, clauses: &[Clause], place: usize) -> Result<(), AllocError> {
    match clauses.get(place) {
        Some(clause) => text.push_str(clause.printed()?.as_str()),
        None => text.push('?'),
    }
}

fn push_names(
    text: &mut String,
    word: &str,
    packages: &Packages,
    numbers: &[usize],
) -> Result<(), AllocError> {
    text.push_str(word)?;
    for number in numbers {
        text.push(' ')?;
        text.push_str(name_of(packages, *number))?;
    }
    text.push(';')
}

fn push_plan(text: &mut String, packages: &Packages, plan: &Plan) -> Result<(), AllocError> {
    push_names(text, "broken", packages, plan.broken.as_slice())?;
    push_names(text, " conflicting", packages, plan.conflicting.as_slice())?;
    text.push_str(" dependent")?;
    for dependent in &plan.dependents {
        text.push(' ')?;
        text.push_str(name_of(packages, dependent.number))?;
        text.push('/')?;
        text.push_str(name_of(packages, dependent.removing))?;
    }
    Ok(())
}

fn push_refusal(
    text: &mut String,
    packages: &Packages,
    incoming: &Package,
    refusal: UnpackRefusal,
) -> Result<(), AllocError> {
    let (word, number) = match refusal {
        UnpackRefusal::PreDepends(place) => {
            text.push_str("PreDepends ")?;
            return push_clause(text, incoming.pre_depends.clauses(), place);
        }
        UnpackRefusal::Conflicts(number) => ("Conflicts ", number),
        UnpackRefusal::ConflictEssential(number) => ("ConflictEssential ", number),
        UnpackRefusal::Dependents(number) => ("Dependents ", number),
        UnpackRefusal::Breaks(number) => ("Breaks ", number),
    };
    text.push_str(word)?;
    text.push_str(name_of(packages, number))
}

// What an unpack of a package does, or why it is refused.
fn checked(
    rt: &(impl Abort + AllocGlobal),
    rows: &[Row],
    incoming: &Row,
    auto_deconfigure: bool,
) -> Result<String, Fail> {
    let alloc = rt.alloc();
    let packages = packages(rt, rows)?;
    let incoming = package(alloc, incoming)?;
    let mut text = String::new(alloc);
    match check_unpack(alloc, &packages, &incoming, auto_deconfigure) {
        Ok(plan) => push_plan(&mut text, &packages, &plan)?,
        Err(CheckFault::Refused(refusal)) => {
            push_refusal(&mut text, &packages, &incoming, refusal)?;
        }
        Err(CheckFault::NoMemory) => text.push_str("NoMemory")?,
    }
    Ok(text)
}

fn set(set: &mut Vec<bool>, number: usize, mark: bool) {
    if number < set.len() {
        set[number] = mark;
    }
}

fn marks(alloc: Global, packages: &Packages, state: bool) -> Result<Vec<bool>, AllocError> {
    let mut marks = Vec::new(alloc);
    for package in packages.as_slice() {
        marks.push(package.is_installed() == state)?;
    }
    Ok(marks)
}

// Configures what waits, one after another, and names each in its turn; then those left with what they lack.
fn configured_in_order(
    rt: &(impl Abort + AllocGlobal),
    rows: &[Row],
    silent: &[bool],
) -> Result<String, Fail> {
    let alloc = rt.alloc();
    let packages = packages(rt, rows)?;
    let mut installed = marks(alloc, &packages, true)?;
    let mut waiting = marks(alloc, &packages, false)?;
    let mut text = String::new(alloc);
    for _turn in rows {
        let members = configurable(alloc, &packages, installed.as_slice(), waiting.as_slice())?;
        let now = installed.as_slice();
        let next = next_to_configure(alloc, &packages, now, members.as_slice(), silent)?;
        let Some(number) = next else {
            break;
        };
        text.push_str(name_of(&packages, number))?;
        text.push(' ')?;
        set(&mut installed, number, true);
        set(&mut waiting, number, false);
    }
    push_left(alloc, &mut text, &packages, installed.as_slice())?;
    Ok(text)
}

fn push_left(
    alloc: Global,
    text: &mut String,
    packages: &Packages,
    installed: &[bool],
) -> Result<(), AllocError> {
    for package in packages.as_slice() {
        match first_unmet(alloc, packages, package, installed)? {
            Some(UnmetClause::PreDepends(place)) => {
                text.push_str(package.name.as_str())?;
                text.push_str(" lacks before ")?;
                push_clause(text, package.pre_depends.clauses(), place)?;
                text.push(' ')?;
            }
            Some(UnmetClause::Depends(place)) => {
                text.push_str(package.name.as_str())?;
                text.push_str(" lacks ")?;
                push_clause(text, package.depends.clauses(), place)?;
                text.push(' ')?;
            }
            None => {}
        }
    }
    Ok(())
}

// Removes what waits, one after another, and names each in its turn; then what depends on the first one left.
fn removed_in_order(
    rt: &(impl Abort + AllocGlobal),
    rows: &[Row],
    wanted: &[bool],
) -> Result<String, Fail> {
    let alloc = rt.alloc();
    let packages = packages(rt, rows)?;
    let mut installed = marks(alloc, &packages, true)?;
    let mut waiting = Vec::from_slice(alloc, wanted)?;
    let mut text = String::new(alloc);
    for _turn in rows {
        let members = removable(alloc, &packages, installed.as_slice(), waiting.as_slice())?;
        let now = installed.as_slice();
        let Some(number) = next_to_remove(alloc, &packages, now, members.as_slice())? else {
            break;
        };
        text.push_str(name_of(&packages, number))?;
        text.push(' ')?;
        set(&mut installed, number, false);
        set(&mut waiting, number, false);
    }
    let Some(left) = dependency_sets::first_of_both(waiting.as_slice(), waiting.as_slice()) else {
        return Ok(text);
    };
    text.push_str(name_of(&packages, left))?;
    let user = depended_on_by(
        alloc,
        &packages,
        installed.as_slice(),
        waiting.as_slice(),
        left,
    )?;
    if let Some(number) = user {
        text.push_str(" needed by ")?;
        text.push_str(name_of(&packages, number))?;
    }
    Ok(text)
}

const NEW: PackageState = PackageState::NotInstalled;

const INSTALLED: PackageState = PackageState::Installed;

const UNPACKED: PackageState = PackageState::Unpacked;

// The packages there, the incoming one, and the answers without and with leave to deconfigure.
const UNPACK_ROWS: &[(&[Row], Row, &str, &str)] = &[
    (
        &[("bravo", "1", INSTALLED, &[])],
        ("alpha", "2.0", NEW, &[("Pre-Depends", "bravo (>= 2)")]),
        "PreDepends bravo (>= 2)",
        "PreDepends bravo (>= 2)",
    ),
    (
        &[("bravo", "3", UNPACKED, &[("Config-Version", "2")])],
        ("alpha", "2.0", NEW, &[("Pre-Depends", "bravo (>= 2)")]),
        "broken; conflicting; dependent",
        "broken; conflicting; dependent",
    ),
    (
        &[("bravo", "3", UNPACKED, &[("Config-Version", "1")])],
        ("alpha", "2.0", NEW, &[("Pre-Depends", "bravo (>= 2)")]),
        "PreDepends bravo (>= 2)",
        "PreDepends bravo (>= 2)",
    ),
    (
        &[(
            "bravo",
            "3",
            UNPACKED,
            &[("Config-Version", "2"), ("Removed-Since", "yes")],
        )],
        ("alpha", "2.0", NEW, &[("Pre-Depends", "bravo (>= 2)")]),
        "PreDepends bravo (>= 2)",
        "PreDepends bravo (>= 2)",
    ),
    (
        &[(
            "bravo",
            "2",
            INSTALLED,
            &[("Config-Version", "2"), ("Triggers-Awaited", "charlie")],
        )],
        ("alpha", "2.0", NEW, &[("Pre-Depends", "bravo (>= 2)")]),
        "PreDepends bravo (>= 2)",
        "PreDepends bravo (>= 2)",
    ),
    (
        &[("bravo", "3", UNPACKED, &[])],
        ("alpha", "2.0", NEW, &[("Pre-Depends", "bravo (>= 2)")]),
        "PreDepends bravo (>= 2)",
        "PreDepends bravo (>= 2)",
    ),
    (
        &[("delta", "1", INSTALLED, &[])],
        ("alpha", "2.0", NEW, &[("Conflicts", "delta")]),
        "Conflicts delta",
        "Conflicts delta",
    ),
    (
        &[("delta", "1", INSTALLED, &[("Architecture", "amd64")])],
        (
            "alpha",
            "2.0",
            NEW,
            &[("Architecture", "amd64"), ("Conflicts", "delta:amd64")],
        ),
        "Conflicts delta",
        "Conflicts delta",
    ),
    (
        &[("delta", "1", INSTALLED, &[("Architecture", "amd64")])],
        (
            "alpha",
            "2.0",
            NEW,
            &[("Architecture", "amd64"), ("Conflicts", "delta:i386")],
        ),
        "broken; conflicting; dependent",
        "broken; conflicting; dependent",
    ),
    (
        &[("bravo", "2", INSTALLED, &[("Architecture", "amd64")])],
        (
            "alpha",
            "2.0",
            NEW,
            &[
                ("Pre-Depends", "bravo:i386 (>= 2)"),
                ("Breaks", "bravo:x32"),
            ],
        ),
        "PreDepends bravo:i386 (>= 2)",
        "PreDepends bravo:i386 (>= 2)",
    ),
    (
        &[("delta", "1", PackageState::ConfigFiles, &[])],
        ("alpha", "2.0", NEW, &[("Conflicts", "delta")]),
        "broken; conflicting; dependent",
        "broken; conflicting; dependent",
    ),
    (
        &[("delta", "1", INSTALLED, &[])],
        (
            "alpha",
            "2.0",
            NEW,
            &[("Conflicts", "delta"), ("Replaces", "delta")],
        ),
        "broken; conflicting delta; dependent",
        "broken; conflicting delta; dependent",
    ),
    (
        &[("delta", "1", INSTALLED, &[("Essential", "yes")])],
        (
            "alpha",
            "2.0",
            NEW,
            &[("Conflicts", "delta"), ("Replaces", "delta")],
        ),
        "ConflictEssential delta",
        "ConflictEssential delta",
    ),
    (
        &[
            ("delta", "1", INSTALLED, &[]),
            ("echo", "1", INSTALLED, &[("Depends", "delta")]),
        ],
        (
            "alpha",
            "2.0",
            NEW,
            &[("Conflicts", "delta"), ("Replaces", "delta")],
        ),
        "Dependents echo",
        "broken; conflicting delta; dependent echo/delta",
    ),
    (
        &[
            ("delta", "1", INSTALLED, &[]),
            ("echo", "1", INSTALLED, &[("Depends", "delta")]),
        ],
        (
            "alpha",
            "2.0",
            NEW,
            &[
                ("Conflicts", "delta"),
                ("Provides", "delta"),
                ("Replaces", "delta"),
            ],
        ),
        "broken; conflicting delta; dependent",
        "broken; conflicting delta; dependent",
    ),
    (
        &[
            ("alpha", "1.0", INSTALLED, &[]),
            ("bravo", "1", INSTALLED, &[]),
            ("charlie", "1", INSTALLED, &[]),
        ],
        ("alpha", "2.0", NEW, &[("Breaks", "bravo, charlie")]),
        "Breaks bravo",
        "broken bravo charlie; conflicting; dependent",
    ),
    (
        &[("bravo", "1", INSTALLED, &[])],
        ("alpha", "2.0", NEW, &[("Breaks", "bravo (<< 3)")]),
        "Breaks bravo",
        "broken bravo; conflicting; dependent",
    ),
    (
        &[("bravo", "1", UNPACKED, &[])],
        ("alpha", "2.0", NEW, &[("Breaks", "bravo (<< 3)")]),
        "broken; conflicting; dependent",
        "broken; conflicting; dependent",
    ),
    (
        &[("alpha", "1.0", INSTALLED, &[("Provides", "web")])],
        (
            "alpha",
            "2.0",
            NEW,
            &[("Conflicts", "web"), ("Provides", "web")],
        ),
        "broken; conflicting; dependent",
        "broken; conflicting; dependent",
    ),
];

const LOOP: &[Row] = &[
    ("aa", "1", UNPACKED, &[("Depends", "bb")]),
    ("bb", "1", UNPACKED, &[("Depends", "cc")]),
    ("cc", "1", UNPACKED, &[("Depends", "aa")]),
];

const LACKING: &[Row] = &[
    ("aa", "1", UNPACKED, &[("Depends", "bb")]),
    ("bb", "1", UNPACKED, &[("Depends", "cc")]),
    ("cc", "1", UNPACKED, &[("Depends", "aa, mm")]),
];

const USED: &[Row] = &[
    ("echo", "1", INSTALLED, &[("Depends", "gamma")]),
    ("gamma", "1", INSTALLED, &[]),
];

const BREAKING: &[Row] = &[
    ("alpha", "2.0", INSTALLED, &[("Breaks", "bravo (<< 3)")]),
    ("bravo", "1", PackageState::HalfConfigured, &[]),
];

#[test]
fn unpacks_are_checked(rt: HostRuntime) -> Result<(), Fail> {
    for (rows, incoming, refused, allowed) in UNPACK_ROWS {
        let answer = checked(&rt, rows, incoming, false)?;
        assert_eq!(rt; answer.as_str(), *refused);
        let answer = checked(&rt, rows, incoming, true)?;
        assert_eq!(rt; answer.as_str(), *allowed);
    }
    Ok(())
}

#[test]
fn a_loop_begins_with_the_one_without_postinst(rt: HostRuntime) -> Result<(), Fail> {
    let answer = configured_in_order(&rt, LOOP, &[false, false, true])?;
    assert_eq!(rt; answer.as_str(), "cc bb aa ");
    Ok(())
}

#[test]
fn a_loop_that_lacks_a_package_is_left(rt: HostRuntime) -> Result<(), Fail> {
    let answer = configured_in_order(&rt, LACKING, &[false, false, true])?;
    assert_eq!(rt; answer.as_str(), "aa lacks bb bb lacks cc cc lacks aa ");
    Ok(())
}

#[test]
fn what_is_used_stays(rt: HostRuntime) -> Result<(), Fail> {
    let answer = removed_in_order(&rt, USED, &[false, true])?;
    assert_eq!(rt; answer.as_str(), "gamma needed by echo");
    let answer = removed_in_order(&rt, USED, &[true, true])?;
    assert_eq!(rt; answer.as_str(), "echo gamma ");
    Ok(())
}

#[test]
fn a_broken_package_is_told_by_whom(rt: HostRuntime) -> Result<(), Fail> {
    let packages = packages(&rt, BREAKING)?;
    let bravo = package(rt.alloc(), &BREAKING[1])?;
    let breakers = breakers_of(rt.alloc(), packages.as_slice())?;
    let breaking = match broken_by(&packages, breakers.as_slice(), &bravo) {
        Some(number) => name_of(&packages, number),
        None => "none",
    };
    assert_eq!(rt; breaking, "alpha");
    Ok(())
}

const COMING: &[Row] = &[
    ("mta-b", "1", INSTALLED, &[("Provides", "mta")]),
    ("zulu", "1", INSTALLED, &[]),
    ("mta-a", "2", INSTALLED, &[("Provides", "mta (= 2)")]),
    ("alpha", "1", INSTALLED, &[]),
];

const CHANGED: Row = ("mta-b", "3", INSTALLED, &[("Provides", "web")]);

// The names of the packages of these numbers, in the order of the packages.
fn names_of(alloc: Global, packages: &Packages, numbers: &[usize]) -> Result<String, AllocError> {
    let mut text = String::new(alloc);
    for (number, package) in packages.as_slice().iter().enumerate() {
        if numbers.contains(&number) {
            text.push_str(package.name.as_str())?;
            text.push(' ')?;
        }
    }
    Ok(text)
}

fn names_of_all(alloc: Global, packages: &Packages) -> Result<String, AllocError> {
    let mut numbers = Vec::new(alloc);
    for number in 0..packages.as_slice().len() {
        numbers.push(number)?;
    }
    names_of(alloc, packages, numbers.as_slice())
}

// Who meets the one clause of a relation.
fn who_meets(
    rt: &(impl Abort + AllocGlobal),
    packages: &Packages,
    relation: &str,
) -> Result<String, Fail> {
    let alloc = rt.alloc();
    let read = Relations::read(alloc, relation.as_bytes(), Form::Alternatives)?;
    let clause = read.clauses().first().expect(rt, "a clause");
    let numbers = packages.meeters(alloc, clause)?;
    let names = names_of(alloc, packages, numbers.as_slice())?;
    Ok(names)
}

#[test]
fn packages_come_change_and_go(rt: HostRuntime) -> Result<(), Fail> {
    let alloc = rt.alloc();
    let mut packages = Packages::new(alloc);
    for row in COMING {
        packages.put(alloc, package(alloc, row)?)?;
    }
    assert_eq!(rt;
        names_of_all(alloc, &packages)?.as_str(),
        "alpha mta-a mta-b zulu "
    );
    assert_eq!(rt; who_meets(&rt, &packages, "mta")?.as_str(), "mta-a mta-b ");
    assert_eq!(rt; who_meets(&rt, &packages, "mta (>= 2)")?.as_str(), "mta-a ");
    packages.put(alloc, package(alloc, &CHANGED)?)?;
    assert_eq!(rt; who_meets(&rt, &packages, "mta")?.as_str(), "mta-a ");
    assert_eq!(rt;
        who_meets(&rt, &packages, "web | mta-b (<< 2)")?.as_str(),
        "mta-b "
    );
    packages.remove(&Text::from_str(alloc, "mta-a")?);
    packages.remove(&Text::from_str(alloc, "nobody")?);
    assert_eq!(rt;
        names_of_all(alloc, &packages)?.as_str(),
        "alpha mta-b zulu "
    );
    assert_eq!(rt; who_meets(&rt, &packages, "mta")?.as_str(), "");
    assert_eq!(rt; who_meets(&rt, &packages, "zulu")?.as_str(), "zulu ");
    Ok(())
}

// Relation fields: what is read of them, how they are printed, and which packages their clauses admit.
use super::{expect, read_field, read_provides};
use relation_fields::{Form, Offer, Provides, Relations};
use std::alloc::{AllocError, Global};
use std::process::Abort;
use std::test::Fail;
use texts::Text;
use version_order::Version;

pub(crate) const FIELD_ROWS: &[(&str, &str)] = &[
    (
        "bravo (>= 1) | charlie, delta:any",
        "bravo (>= 1) | charlie\ndelta:any\n",
    ),
    ("bravo (== 1)", "Operator"),
    ("B (= 1)", "Name"),
    ("bravo,,delta", "bravo\ndelta\n"),
    ("bravo (< 2)", "bravo (<= 2)\n"),
    ("bravo (>= )", "Version"),
    (
        "bravo:amd64, bravo:native (>= 1) | charlie:i386",
        "bravo:amd64\nbravo:native (>= 1) | charlie:i386\n",
    ),
    ("bravo:", "Name"),
    ("bravo:am_d", "Name"),
    ("bravo:-x", "Name"),
    ("bravo:amd64:any", "Name"),
    ("bravo :amd64", "Syntax(6)"),
    (
        "bravo:AMD64, bravo:x-, bravo:9a",
        "bravo:AMD64\nbravo:x-\nbravo:9a\n",
    ),
];

const PLAIN_ROWS: &[(&str, &str)] = &[
    ("bravo | charlie", "Syntax(6)"),
    ("bravo (> 2)", "bravo (>= 2)\n"),
];

pub(crate) const PROVIDES_ROWS: &[(&str, &str)] = &[
    ("mta, web (= 2)", "mta\nweb 2\n"),
    ("web (>= 2)", "Operator"),
    ("mta | web", "Syntax(4)"),
];

// A relation field, and whether each of its clauses admits alpha 1.5 of amd64, which provides these.
const ADMISSION_ROWS: &[(&str, &str, &str)] = &[
    ("alpha, alpha (<< 1.5), alpha (>= 1.0)", "", "yes no yes "),
    ("web, web (= 2), bravo | web", "web", "yes no yes "),
    ("web (>= 2), web (>> 2), web", "web (= 2)", "yes no yes "),
    (
        "alpha:amd64, alpha:i386, alpha:any, alpha:native, alpha:all",
        "",
        "yes no yes yes yes ",
    ),
    (
        "web, web:amd64, web:i386, web:i386 | alpha",
        "web",
        "yes yes no yes ",
    ),
    ("web, web:amd64, web:i386", "web:i386", "no no yes "),
    ("web, web:amd64, web:i386", "web:amd64", "yes yes no "),
];

fn admitted(alloc: Global, relations: &Relations, offer: &Offer) -> Result<String, AllocError> {
    let mut text = String::new(alloc);
    for clause in relations.clauses() {
        text.push_str(if clause.admits(offer) { "yes " } else { "no " })?;
    }
    Ok(text)
}

// Whether each clause of the field admits alpha of this version, which provides these.
fn admissions(
    alloc: Global,
    field: &str,
    version: &Version,
    provides: &Provides,
) -> Result<String, Fail> {
    let relations = Relations::read(alloc, field.as_bytes(), Form::Alternatives)?;
    let architecture = Some(Text::from_str(alloc, "amd64")?);
    let offer = Offer {
        name: "alpha",
        architecture: &architecture,
        version,
        provides,
    };
    Ok(admitted(alloc, &relations, &offer)?)
}

fn check_admissions(
    rt: &(impl Abort + AllocGlobal),
    field: &str,
    provides: &str,
    row: &str,
) -> Result<(), Fail> {
    let alloc = rt.alloc();
    let version = Version::parse(alloc, b"1.5")?;
    let provides = Provides::read(alloc, provides.as_bytes())?;
    let answer = admissions(alloc, field, &version, &provides)?;
    assert_eq!(rt; answer.as_str(), row);
    Ok(())
}

#[test]
fn fields_with_alternatives_are_read(rt: HostRuntime) -> Result<(), Fail> {
    for (field, row) in FIELD_ROWS {
        let answer = read_field(rt.alloc(), field, Form::Alternatives);
        expect(&rt, answer, row)?;
    }
    Ok(())
}

#[test]
fn plain_fields_are_read(rt: HostRuntime) -> Result<(), Fail> {
    for (field, row) in PLAIN_ROWS {
        let answer = read_field(rt.alloc(), field, Form::Plain);
        expect(&rt, answer, row)?;
    }
    Ok(())
}

#[test]
fn provides_is_read(rt: HostRuntime) -> Result<(), Fail> {
    for (field, row) in PROVIDES_ROWS {
        expect(&rt, read_provides(rt.alloc(), field), row)?;
    }
    Ok(())
}

#[test]
fn clauses_admit_packages(rt: HostRuntime) -> Result<(), Fail> {
    for (field, provides, row) in ADMISSION_ROWS {
        check_admissions(&rt, field, provides, row)?;
    }
    Ok(())
}

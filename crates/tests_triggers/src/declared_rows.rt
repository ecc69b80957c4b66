// Packages of Debian 12, with their files as they ship them, but for the last.
use crate::root::{Thing, path_of, root_of};
use host_core::RootPath;
use std::alloc::{AllocError, Global};
use std::process::Abort;
use std::test::Fail;
use texts::{Text, Texts};
use trigger_interests::{Interest, hits_of, read_activations, read_interests};

const ROOT: &[Thing] = &[
    (
        "/var/lib/dpkg/info/man-db.triggers",
        &[
            "# Several of these directories are not expected to be used in",
            "# policy-compliant packages, but they're listed in our default",
            "# /etc/manpath.config so we register interest in them for completeness.",
            "interest-noawait /usr/man",
            "interest-noawait /usr/share/man",
            "interest-noawait /usr/local/man",
            "interest-noawait /usr/local/share/man",
            "interest-noawait /usr/X11R6/man",
            "interest-noawait /opt/man",
        ],
    ),
    (
        "/var/lib/dpkg/info/ca-certificates.triggers",
        &[
            "interest update-ca-certificates",
            "interest update-ca-certificates-fresh",
        ],
    ),
    (
        "/var/lib/dpkg/info/libgdk-pixbuf-2.0-0.triggers",
        &[
            "interest-noawait /usr/lib/gdk-pixbuf-2.0/2.10.0/loaders",
            "interest-noawait /usr/lib/x86_64-linux-gnu/gdk-pixbuf-2.0/2.10.0/loaders",
            "# Triggers added by dh_makeshlibs/13.11.4",
            "activate-noawait ldconfig",
        ],
    ),
    (
        "/var/lib/dpkg/info/faulty.triggers",
        &["interest /usr", "interest", "activate ldconfig"],
    ),
];

// Interests, as dpkg lists them.
const INTERESTS: &[&str] = &[
    "/usr/lib/gdk-pixbuf-2.0/2.10.0/loaders libgdk-pixbuf-2.0-0/noawait",
    "/usr/lib/x86_64-linux-gnu/gdk-pixbuf-2.0/2.10.0/loaders libgdk-pixbuf-2.0-0/noawait",
    "update-ca-certificates ca-certificates",
    "update-ca-certificates-fresh ca-certificates",
];

fn packages_of(alloc: Global, names: &[&str]) -> Result<Texts, AllocError> {
    let mut packages = Texts::new(alloc);
    for name in names {
        packages.push(Text::from_str(alloc, name)?)?;
    }
    Ok(packages)
}

fn interests_of(alloc: Global, names: &[&str]) -> Result<Vec<Interest>, AllocError> {
    let mut host = root_of(alloc, ROOT)?;
    let packages = packages_of(alloc, names)?;
    match read_interests(alloc, &mut host, packages.as_slice()) {
        Ok(interests) => Ok(interests),
        Err(_) => Err(AllocError),
    }
}

fn activations_of(alloc: Global, name: &str) -> Result<Vec<Text>, AllocError> {
    let mut host = root_of(alloc, ROOT)?;
    match read_activations(alloc, &mut host, &Text::from_str(alloc, name)?) {
        Ok(names) => Ok(names),
        Err(_) => Err(AllocError),
    }
}

fn paths_of(alloc: Global, texts: &[&str]) -> Result<Vec<RootPath>, AllocError> {
    let mut paths = Vec::new(alloc);
    for text in texts {
        paths.push(path_of(alloc, text)?)?;
    }
    Ok(paths)
}

fn line_of(alloc: Global, interest: &Interest) -> Result<String, AllocError> {
    let mut line = String::from_str(alloc, interest.name.as_str())?;
    line.push(' ')?;
    line.push_str(interest.package.as_str())?;
    if interest.noawait {
        line.push_str("/noawait")?;
    }
    Ok(line)
}

// `+` for each that is hit, and `-` for each other.
fn marks_of(alloc: Global, marks: &[bool]) -> Result<String, AllocError> {
    let mut text = String::new(alloc);
    for mark in marks {
        text.push(if *mark { '+' } else { '-' })?;
    }
    Ok(text)
}

#[test]
fn interests_are_read_in_order(rt: HostRuntime) -> Result<(), Fail> {
    let alloc = rt.alloc();
    let names = [
        "libgdk-pixbuf-2.0-0",
        "faulty",
        "missing",
        "ca-certificates",
    ];
    let interests = interests_of(alloc, &names)?;
    assert_eq!(&rt; interests.len(), INTERESTS.len());
    for (interest, line) in interests.iter().zip(INTERESTS) {
        let found = line_of(alloc, interest)?;
        assert_eq!(&rt; found.as_str(), *line);
    }
    Ok(())
}

#[test]
fn activations_are_read(rt: HostRuntime) -> Result<(), Fail> {
    let alloc = rt.alloc();
    let names = activations_of(alloc, "libgdk-pixbuf-2.0-0")?;
    assert_eq!(&rt; names.len(), 1);
    assert_eq!(&rt; names[0].as_str(), "ldconfig");
    for name in ["man-db", "faulty", "missing"] {
        assert!(&rt; activations_of(alloc, name)?.is_empty());
    }
    Ok(())
}

#[test]
fn whole_components_hit(rt: HostRuntime) -> Result<(), Fail> {
    let alloc = rt.alloc();
    let interests = interests_of(alloc, &["man-db", "ca-certificates"])?;
    let texts = [
        "/opt",
        "/opt/man",
        "/usr",
        "/usr/local",
        "/usr/local/mandb",
        "/usr/share",
        "/usr/share/man",
        "/usr/share/man/man1",
        "/usr/share/man/man1/ls.1.gz",
    ];
    let paths = paths_of(alloc, &texts)?;
    let marks = hits_of(alloc, interests.as_slice(), paths.as_slice())?;
    assert_eq!(&rt; marks_of(alloc, marks.as_slice())?.as_str(), "-+---+--");
    Ok(())
}

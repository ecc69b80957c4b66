// An administration is opened over a root, files and a directory go, and scripts are called: the root holds what it held.
use crate::root::{names_in, path_of, root_of, text_at};
use file_removal::{Leaving, remove_owned};
use host_core::{Call, Host, HostFault, Keep, Outcome, Places, Script, Side};
use host_overlay::{AssumedFailure, Overlay, Plan};
use opening::open_administration;
use std::alloc::{AllocError, Global};
use std::test::Fail;
use texts::{Text, Texts};

const UNPACKED: &str = "Package: alpha\nStatus: install ok unpacked\nVersion: 1.0\n";

const HALF_CONFIGURED: &str = "Package: alpha\nStatus: install ok half-configured\nVersion: 1.0\n";

const INSTALLED: &str = "Package: alpha\nStatus: install ok installed\nVersion: 1.0\n";

// What two units left that were broken off, and a directory with a file that lends rights.
const HELD: &[(&str, &str)] = &[
    ("/usr/share/a", "/"),
    ("/usr/share/a/set", "set"),
    ("/usr/share/b", "b"),
    ("/var/lib/dpkg/status", UNPACKED),
    ("/var/lib/dpkg/tmp.ci/preinst", "script"),
    ("/var/lib/dpkg/updates/0001", HALF_CONFIGURED),
    ("/var/lib/dpkg/updates/0003", INSTALLED),
];

const NAMES: &[(&str, &str)] = &[
    ("/usr/share", " a b"),
    ("/usr/share/a", " set"),
    ("/var/lib/dpkg", " status tmp.ci updates"),
    ("/var/lib/dpkg/updates", " 0001 0003"),
];

// The later note is merged, and what goes is gone.
const FOUND: &[(&str, &str)] = &[
    ("/usr/share/a", ""),
    ("/usr/share/a/set", ""),
    ("/usr/share/b", "b"),
    ("/var/lib/dpkg/info", "/"),
    ("/var/lib/dpkg/status", INSTALLED),
    ("/var/lib/dpkg/status.dpkg-inst", ""),
    ("/var/lib/dpkg/tmp.ci", ""),
    ("/var/lib/dpkg/updates/0001", ""),
];

const NAMES_FOUND: &[(&str, &str)] = &[
    ("/usr/share", " b"),
    ("/usr/share/a", ""),
    ("/var/lib/dpkg", " info status updates"),
    ("/var/lib/dpkg/updates", ""),
];

// The paths at which something else stands than below, and whether something does.
const CHANGED: &[(&str, bool)] = &[
    ("/usr/share/a", false),
    ("/usr/share/a/set", false),
    ("/var/lib/dpkg/info", true),
    ("/var/lib/dpkg/status", true),
    ("/var/lib/dpkg/status.dpkg-inst", false),
    ("/var/lib/dpkg/tmp.ci", false),
    ("/var/lib/dpkg/tmp.ci/preinst", false),
    ("/var/lib/dpkg/updates/0001", false),
    ("/var/lib/dpkg/updates/0003", false),
];

fn leaving(alloc: Global) -> Result<Vec<Leaving>, AllocError> {
    let mut leaving = Vec::new(alloc);
    for path in ["/usr/share/a", "/usr/share/a/set"] {
        leaving.push(Leaving {
            place: path_of(alloc, path)?,
            goes: true,
        })?;
    }
    Ok(leaving)
}

fn named(alloc: Global, package: &str, word: &str) -> Result<AssumedFailure, AllocError> {
    Ok(AssumedFailure {
        package: Text::from_str(alloc, package)?,
        script: Script::Preinst,
        word: Text::from_str(alloc, word)?,
    })
}

fn call_of(alloc: Global, package: &str, script: Script, word: &str) -> Result<Call, AllocError> {
    let mut args = Texts::new(alloc);
    args.push(Text::from_str(alloc, word)?)?;
    Ok(Call {
        side: Side::New,
        package: Text::from_str(alloc, package)?,
        script,
        at: path_of(alloc, "/")?,
        args,
    })
}

// How a script call ends.
fn called<H: Host>(
    alloc: Global,
    host: &mut H,
    package: &str,
    script: Script,
    word: &str,
) -> Result<Outcome, HostFault> {
    let call = call_of(alloc, package, script, word)?;
    let places = Places {
        items: Vec::new(alloc),
    };
    host.run(&call, &Keep { places: &places })
}

fn is_exit(outcome: Outcome, code: i32) -> bool {
    match outcome {
        Outcome::Exit(found) => found == code,
        Outcome::Killed | Outcome::NotStarted => false,
    }
}

#[test]
fn the_root_holds_what_it_held(rt: HostRuntime) -> Result<(), Fail> {
    let alloc = rt.alloc();
    let mut overlay = Overlay::over(alloc, root_of(alloc, HELD)?);
    assert!(rt; open_administration(alloc, &mut overlay).is_ok());
    assert!(rt; remove_owned(&mut overlay, leaving(alloc)?.as_slice()).is_ok());
    for (path, text) in FOUND {
        assert_eq!(rt;
            text_at(alloc, &mut overlay, path)?.as_str(),
            *text,
            "{path}"
        );
    }
    for (path, names) in NAMES_FOUND {
        assert_eq!(rt;
            names_in(alloc, &mut overlay, path)?.as_str(),
            *names,
            "{path}"
        );
    }
    let mut below = overlay.into_below();
    assert!(rt; below.events().is_empty());
    for (path, text) in HELD {
        assert_eq!(rt; text_at(alloc, &mut below, path)?.as_str(), *text, "{path}");
    }
    for (path, names) in NAMES {
        assert_eq!(rt;
            names_in(alloc, &mut below, path)?.as_str(),
            *names,
            "{path}"
        );
    }
    Ok(())
}

#[test]
fn the_changed_paths_are_told(rt: HostRuntime) -> Result<(), Fail> {
    let alloc = rt.alloc();
    let mut overlay = Overlay::over(alloc, root_of(alloc, HELD)?);
    assert!(rt; open_administration(alloc, &mut overlay).is_ok());
    assert!(rt; remove_owned(&mut overlay, leaving(alloc)?.as_slice()).is_ok());
    let changes = overlay.changes()?;
    assert_eq!(rt; changes.len(), CHANGED.len());
    for (change, (path, stands)) in changes.iter().zip(CHANGED) {
        assert_eq!(rt; change.path.as_str(), *path);
        assert_eq!(rt; change.stands, *stands, "{path}");
    }
    Ok(())
}

#[test]
fn calls_fail_once_where_that_is_assumed(rt: HostRuntime) -> Result<(), Fail> {
    let alloc = rt.alloc();
    let mut failing = Vec::new(alloc);
    failing.push(named(alloc, "alpha", "install")?)?;
    failing.push(named(alloc, "beta", "upgrade")?)?;
    let plan = Plan::new(alloc, failing)?;
    let mut overlay = Overlay::rehearsing(alloc, root_of(alloc, HELD)?, plan);
    assert_eq!(rt; overlay.events().len(), 3);
    for (package, script, word, code) in [
        ("alpha", Script::Preinst, "upgrade", 0),
        ("alpha", Script::Postinst, "install", 0),
        ("alpha", Script::Preinst, "install", 1),
        ("alpha", Script::Preinst, "install", 0),
    ] {
        let Ok(outcome) = called(alloc, &mut overlay, package, script, word) else {
            return Err(AllocError)?;
        };
        assert!(rt; is_exit(outcome, code), "{package} {word}");
    }
    assert_eq!(rt; overlay.unmet().len(), 1);
    assert_eq!(rt; overlay.events().len(), 7);
    Ok(())
}

#[test]
fn a_fault_below_is_told(rt: HostRuntime) -> Result<(), Fail> {
    let alloc = rt.alloc();
    let mut below = root_of(alloc, HELD)?;
    below.fail_read(1);
    let mut overlay = Overlay::over(alloc, below);
    assert_eq!(rt; text_at(alloc, &mut overlay, "/usr/share/b")?.as_str(), "b");
    assert!(rt; overlay.node(&path_of(alloc, "/usr/share/b")?).is_err());
    assert_eq!(rt; overlay.events().len(), 1);
    assert_eq!(rt; text_at(alloc, &mut overlay, "/usr/share/b")?.as_str(), "b");
    Ok(())
}

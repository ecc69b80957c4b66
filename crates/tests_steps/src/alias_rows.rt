// Files are written, and go, behind links to directories above their paths (`/bin -> usr/bin`).
ghost use Rattle.std.specs.Prelude.{IfOk};
ghost use Rattle.file_check.specs.Ready.{IsFitting};
ghost use Rattle.package_files.specs.Files.{Each};
ghost use Rattle.package_files.specs.Names.{IsNamed};

use crate::breaking::is_untouched;
use crate::fault_rows::told;
use crate::file_acts::{Administration, Package, Ships, node_of, open, unpack};
use crate::root::{Thing, judge_things, path_of, root_of, ship_path};
use diversions::Diversions;
use file_check::works_of;
use file_removal::{Leaving, remove_owned};
use host_core::{HostFault, Node, ShipPath};
use host_memory::MemoryHost;
use list_changes::leaving_of;
use package_files::Work;
use std::alloc::{AllocError, Global};
use std::process::Abort;
use std::test::Fail;
use texts::Text;
use undo_rows::StepFault;

// What stands there before, the paths above which aliases are read, what is shipped, the step fault, and what stands there
// then.
struct Row {
    there: &'static [Thing],
    read: &'static [&'static str],
    package: &'static Package,
    fault: &'static str,
    left: &'static [Thing],
}

const ALPHA: Package = Package {
    name: "alpha",
    ships: &[("/bin", Ships::Directory), ("/bin/x", Ships::File("new"))],
    listing: &["gamma"],
    yields: &[],
};

const ALPHA_BY_PLACE: Package = Package {
    name: "alpha",
    ships: &[
        ("/usr", Ships::Directory),
        ("/usr/bin", Ships::Directory),
        ("/usr/bin/x", Ships::File("new")),
    ],
    listing: &["gamma"],
    yields: &[],
};

const OVER_GAMMA: Package = Package {
    name: "alpha",
    ships: &[("/bin", Ships::Directory), ("/bin/x", Ships::File("new"))],
    listing: &["gamma"],
    yields: &["gamma"],
};

const BOTH_NAMES: Package = Package {
    name: "alpha",
    ships: &[
        ("/bin", Ships::Directory),
        ("/bin/x", Ships::File("one")),
        ("/usr", Ships::Directory),
        ("/usr/bin", Ships::Directory),
        ("/usr/bin/x", Ships::File("two")),
    ],
    listing: &[],
    yields: &[],
};

const SYSTEMD: Package = Package {
    name: "systemd",
    ships: &[
        ("/lib", Ships::Directory),
        ("/lib/systemd", Ships::Directory),
        ("/lib/systemd/a", Ships::File("a")),
        ("/usr", Ships::Directory),
        ("/usr/lib", Ships::Directory),
        ("/usr/lib/systemd", Ships::Directory),
        ("/usr/lib/systemd/b", Ships::File("b")),
    ],
    listing: &[],
    yields: &[],
};

const FILE_AND_DIRECTORY: Package = Package {
    name: "alpha",
    ships: &[
        ("/bin", Ships::Directory),
        ("/bin/d", Ships::Directory),
        ("/usr", Ships::Directory),
        ("/usr/bin", Ships::Directory),
        ("/usr/bin/d", Ships::File("no directory")),
    ],
    listing: &[],
    yields: &[],
};

const DIVERTED_DIRECTORY: Package = Package {
    name: "alpha",
    ships: &[("/bin", Ships::Directory), ("/bin/d", Ships::Directory)],
    listing: &[],
    yields: &[],
};

const SHELL: Package = Package {
    name: "alpha",
    ships: &[
        ("/usr", Ships::Directory),
        ("/usr/bin", Ships::Directory),
        ("/usr/bin/sh", Ships::File("new")),
    ],
    listing: &[],
    yields: &[],
};

const BASE_FILES: Package = Package {
    name: "base-files",
    ships: &[
        ("/bin", Ships::Link("usr/bin")),
        ("/usr", Ships::Directory),
        ("/usr/bin", Ships::Directory),
        ("/usr/bin/x", Ships::File("new")),
    ],
    listing: &[],
    yields: &[],
};

const DIVERSIONS: &str = "/var/lib/dpkg/diversions";

const GAMMA: &str = "/var/lib/dpkg/info/gamma.list";

const BIN: Thing = ("/bin", "@usr/bin");

const LIB: Thing = ("/lib", "@usr/lib");

const ROWS: &[Row] = &[
    Row {
        there: &[BIN, ("/usr/bin", "/")],
        read: &["/bin/x"],
        package: &ALPHA,
        fault: "",
        left: &[BIN, ("/usr/bin/x", "new"), ("/usr/bin/x.dpkg-inst", "")],
    },
    Row {
        there: &[
            BIN,
            ("/usr/bin/x", "gamma's"),
            (GAMMA, "/.\n/usr\n/usr/bin\n/usr/bin/x\n"),
        ],
        read: &["/bin/x"],
        package: &ALPHA,
        fault: "Clash /bin/x gamma",
        left: &[BIN, ("/usr/bin/x", "gamma's")],
    },
    Row {
        there: &[
            BIN,
            ("/usr/bin/x", "gamma's"),
            (GAMMA, "/.\n/bin\n/bin/x\n"),
        ],
        read: &["/bin/x"],
        package: &ALPHA_BY_PLACE,
        fault: "Clash /usr/bin/x gamma",
        left: &[BIN, ("/usr/bin/x", "gamma's")],
    },
    Row {
        there: &[
            BIN,
            ("/usr/bin/x", "gamma's"),
            (GAMMA, "/.\n/usr\n/usr/bin\n/usr/bin/x\n"),
        ],
        read: &["/bin/x"],
        package: &OVER_GAMMA,
        fault: "",
        left: &[
            BIN,
            ("/usr/bin/x", "new"),
            ("/usr/bin/x.dpkg-tmp", "gamma's"),
        ],
    },
    Row {
        there: &[BIN, ("/usr/bin", "/")],
        read: &["/bin/x"],
        package: &BOTH_NAMES,
        fault: "Clash /bin/x alpha",
        left: &[BIN, ("/usr/bin/x", "")],
    },
    Row {
        there: &[LIB, ("/usr/lib", "/")],
        read: &["/lib/systemd/a"],
        package: &SYSTEMD,
        fault: "",
        left: &[
            LIB,
            ("/usr/lib/systemd/a", "a"),
            ("/usr/lib/systemd/b", "b"),
        ],
    },
    Row {
        there: &[BIN, ("/usr/bin", "/")],
        read: &["/bin/d"],
        package: &FILE_AND_DIRECTORY,
        fault: "Clash /bin/d alpha",
        left: &[BIN, ("/usr/bin/d", "")],
    },
    Row {
        there: &[BIN, ("/usr/bin", "/"), (DIVERSIONS, "/bin/d\n/bin/e\n:\n")],
        read: &["/bin/d"],
        package: &DIVERTED_DIRECTORY,
        fault: "DirInWay /bin/d",
        left: &[BIN, ("/usr/bin/d", ""), ("/usr/bin/e", "")],
    },
    Row {
        there: &[
            BIN,
            ("/usr/bin", "/"),
            (DIVERSIONS, "/bin/sh\n/bin/sh.real\n:\n"),
        ],
        read: &["/bin/sh"],
        package: &SHELL,
        fault: "",
        left: &[BIN, ("/usr/bin/sh", ""), ("/usr/bin/sh.real", "new")],
    },
    Row {
        there: &[BIN, ("/usr/bin", "/"), (DIVERSIONS, "/sh\n/bin/sh\n:\n")],
        read: &["/bin/sh"],
        package: &SHELL,
        fault: "DiversionTarget /usr/bin/sh",
        left: &[BIN, ("/usr/bin/sh", "")],
    },
    Row {
        there: &[BIN, ("/usr/bin", "/")],
        read: &["/bin/x"],
        package: &BASE_FILES,
        fault: "",
        left: &[BIN, ("/usr/bin/x", "new")],
    },
    Row {
        there: &[BIN],
        read: &["/bin/x"],
        package: &ALPHA,
        fault: "LinkParent /bin/x",
        left: &[BIN, ("/usr", "")],
    },
];

// The lists and diversions, with the aliases above these paths.
fn open_behind(
    alloc: Global,
    host: &mut MemoryHost,
    package: &Package,
    read: &[&'static str],
) -> Result<Administration, AllocError> {
    let mut administration = open(alloc, host, package)?;
    for path in read {
        let path = path_of(alloc, path)?;
        if administration.diversions.read_above(host, &path).is_err() {
            return Err(AllocError);
        }
    }
    Ok(administration)
}

fn shipped(alloc: Global, package: &Package) -> Result<Vec<(ShipPath, Node)>, AllocError> {
    let mut pairs = Vec::new(alloc);
    for (path, ships) in package.ships {
        pairs.push((ship_path(alloc, path)?, node_of(alloc, *ships)?))?;
    }
    Ok(pairs)
}

// The works of what a package ships, in which a directory stands once.
fn works_behind(
    alloc: Global,
    diversions: &Diversions,
    package: &Package,
) -> Result<Vec<Work>, AllocError>
    ensures named { IfOk result (λ works. Each IsNamed works.items) }
    ensures fitting { IfOk result (λ works. Each IsFitting works.items) }
{
    let name = Text::from_str(alloc, package.name)?;
    let files = shipped(alloc, package)?;
    let conffiles: Vec<ShipPath> = Vec::new(alloc);
    works_of(alloc, &name, diversions, files, conffiles.as_slice())
}

fn write_behind(
    alloc: Global,
    host: &mut MemoryHost,
    row: &Row,
) -> Result<Option<StepFault>, HostFault> {
    let administration = open_behind(alloc, host, row.package, row.read)?;
    let mut works = works_behind(alloc, &administration.diversions, row.package)?;
    unpack(alloc, host, &administration, row.package, &mut works)
}

fn left_of(alloc: Global, host: &mut MemoryHost, left: &[Thing]) -> Result<String, AllocError> {
    let mut text = String::new(alloc);
    judge_things(alloc, host, left, &mut text)?;
    Ok(text)
}

fn write_row(rt: &(impl Abort + AllocGlobal), row: &Row) -> Result<(), Fail> {
    let alloc = rt.alloc();
    let mut host = root_of(alloc, row.there)?;
    let answer = write_behind(alloc, &mut host, row);
    assert_eq!(rt; told(alloc, answer)?.as_str(), row.fault);
    let text = left_of(alloc, &mut host, row.left)?;
    assert!(rt; text.is_empty(), "{text}");
    assert!(rt;
        row.fault.is_empty() || is_untouched(&host),
        "{}",
        row.fault
    );
    Ok(())
}

#[test]
fn shipped_files_are_behind_links(rt: HostRuntime) -> Result<(), Fail> {
    for row in ROWS {
        write_row(&rt, row)?;
    }
    Ok(())
}

// A package whose listed paths go: what stands there before, the paths above which aliases are read, and what stands there
// then.
struct Going {
    there: &'static [Thing],
    read: &'static [&'static str],
    left: &'static [Thing],
}

const LISTING: Package = Package {
    name: "alpha",
    ships: &[],
    listing: &["alpha", "gamma"],
    yields: &[],
};

const ALPHA_LIST: &str = "/var/lib/dpkg/info/alpha.list";

const MOVED: Thing = ("/usr/share/alpha", "@/srv/alpha");

const GOING: &[Going] = &[
    Going {
        there: &[
            BIN,
            ("/usr/bin/x", "alpha's"),
            (ALPHA_LIST, "/.\n/bin\n/bin/x\n"),
            (GAMMA, "/.\n"),
        ],
        read: &["/bin/x"],
        left: &[BIN, ("/usr/bin", "/"), ("/usr/bin/x", "")],
    },
    Going {
        there: &[
            BIN,
            ("/usr/bin/x", "of both"),
            (ALPHA_LIST, "/.\n/bin\n/bin/x\n"),
            (GAMMA, "/.\n/usr\n/usr/bin\n/usr/bin/x\n"),
        ],
        read: &["/bin/x"],
        left: &[BIN, ("/usr/bin/x", "of both")],
    },
    Going {
        there: &[
            MOVED,
            ("/srv/alpha/sub/note", "alpha's"),
            (
                ALPHA_LIST,
                "/.\n/usr\n/usr/share\n/usr/share/alpha\n/usr/share/alpha/sub\n/usr/share/alpha/sub/note\n",
            ),
            (GAMMA, "/.\n"),
        ],
        read: &["/usr/share/alpha/sub/note"],
        left: &[MOVED, ("/srv/alpha", "/"), ("/srv/alpha/sub", "")],
    },
];

fn leaving_behind(
    alloc: Global,
    administration: &Administration,
) -> Result<Vec<Leaving>, AllocError> {
    let name = Text::from_str(alloc, "alpha")?;
    let conffiles: Vec<ShipPath> = Vec::new(alloc);
    let to_come = Vec::new(alloc);
    leaving_of(
        alloc,
        &administration.lists,
        &administration.diversions,
        &name,
        to_come.as_slice(),
        conffiles.as_slice(),
        administration.lists.list_of(&name),
    )
}

fn remove_behind(alloc: Global, host: &mut MemoryHost, row: &Going) -> Result<(), HostFault> {
    let administration = open_behind(alloc, host, &LISTING, row.read)?;
    let leaving = leaving_behind(alloc, &administration)?;
    remove_owned(host, leaving.as_slice())
}

#[test]
fn listed_files_go_behind_links(rt: HostRuntime) -> Result<(), Fail> {
    let alloc = rt.alloc();
    for row in GOING {
        let mut host = root_of(alloc, row.there)?;
        let answer = remove_behind(alloc, &mut host, row);
        assert!(&rt; answer.is_ok());
        let text = left_of(alloc, &mut host, row.left)?;
        assert!(&rt; text.is_empty(), "{text}");
    }
    Ok(())
}

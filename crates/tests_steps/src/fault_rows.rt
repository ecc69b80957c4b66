// The step faults of shipped paths, the first in path order, and what is written where there is none (Policy 6.6, 7.6).
use crate::breaking::{Break, LIMIT, is_untouched};
use crate::file_acts::{Package, Ships, fault_text, look, write};
use crate::root::{Thing, judge_things, root_of};
use host_core::HostFault;
use host_memory::MemoryHost;
use std::alloc::{AllocError, Global};
use std::process::Abort;
use std::test::Fail;
use undo_rows::StepFault;

// What stands there before, what is shipped, the step fault, and what stands there then.
struct Row {
    there: &'static [Thing],
    package: &'static Package,
    fault: &'static str,
    left: &'static [Thing],
}

const GAMMA_LIST: &str = "/.\n/usr\n/usr/bin\n/usr/bin/x\n/usr/bin/y\n";

const X: &[(&str, Ships)] = &[
    ("/usr", Ships::Directory),
    ("/usr/bin", Ships::Directory),
    ("/usr/bin/x", Ships::File("new")),
];

const ALPHA: Package = Package {
    name: "alpha",
    ships: X,
    listing: &[],
    yields: &[],
};

const BESIDE_GAMMA: Package = Package {
    name: "alpha",
    ships: X,
    listing: &["gamma"],
    yields: &[],
};

const OVER_GAMMA: Package = Package {
    name: "alpha",
    ships: X,
    listing: &["gamma"],
    yields: &["gamma"],
};

const AGAIN: Package = Package {
    name: "alpha",
    ships: X,
    listing: &["alpha"],
    yields: &[],
};

const DIRECTORY_IN_PLACE: Package = Package {
    name: "alpha",
    ships: &[("/usr", Ships::Directory), ("/usr/x", Ships::File("new"))],
    listing: &[],
    yields: &[],
};

const FILE_ALONE: Package = Package {
    name: "alpha",
    ships: &[("/a", Ships::File("new"))],
    listing: &[],
    yields: &[],
};

const FILE_AND_HOME: Package = Package {
    name: "alpha",
    ships: &[("/a", Ships::File("new")), ("/z", Ships::Directory)],
    listing: &[],
    yields: &[],
};

const VICTOR: Package = Package {
    name: "victor",
    ships: &[
        ("/usr", Ships::Directory),
        ("/usr/bin", Ships::Directory),
        ("/usr/bin/v", Ships::File("new")),
    ],
    listing: &["victor"],
    yields: &[],
};

const ONE_PLACE: Package = Package {
    name: "alpha",
    ships: &[
        ("/a", Ships::File("one")),
        ("/z", Ships::Directory),
        ("/z/t", Ships::File("two")),
    ],
    listing: &[],
    yields: &[],
};

const ON_TARGET: Package = Package {
    name: "alpha",
    ships: &[("/z", Ships::Directory), ("/z/t", Ships::File("new"))],
    listing: &[],
    yields: &[],
};

const DIRECTORY_ON_TARGET: Package = Package {
    name: "alpha",
    ships: &[("/z", Ships::Directory), ("/z/t", Ships::Directory)],
    listing: &[],
    yields: &[],
};

const LINK_ON_TARGET: Package = Package {
    name: "alpha",
    ships: &[("/z", Ships::Directory), ("/z/t", Ships::Link("elsewhere"))],
    listing: &[],
    yields: &[],
};

const TARGET_OF_GAMMA: Package = Package {
    name: "alpha",
    ships: &[("/z", Ships::Directory), ("/z/t", Ships::File("new"))],
    listing: &["gamma"],
    yields: &[],
};

const TARGET_OVER_GAMMA: Package = Package {
    name: "alpha",
    ships: &[("/z", Ships::Directory), ("/z/t", Ships::File("new"))],
    listing: &["gamma"],
    yields: &["gamma"],
};

const STAYING: Package = Package {
    name: "alpha",
    ships: &[
        ("/lib", Ships::Directory),
        ("/share", Ships::Link("elsewhere")),
    ],
    listing: &[],
    yields: &[],
};

const TWO_FAULTS: Package = Package {
    name: "alpha",
    ships: &[
        ("/b", Ships::File("new")),
        ("/d", Ships::File("new")),
        ("/l", Ships::Directory),
        ("/l/f", Ships::File("new")),
    ],
    listing: &[],
    yields: &[],
};

const DIVERSIONS: &str = "/var/lib/dpkg/diversions";

const A_TO_Z: &str = "/a\n/z/t\n:\n";

const A_TO_Z_BY_GAMMA: &str = "/a\n/z/t\ngamma\n";

const A_TO_Z_BY_ALPHA: &str = "/a\n/z/t\nalpha\n";

const Z_LIST: &str = "/.\n/z\n/z/t\n";

const V_TO_REAL: &str = "/usr/bin/v\n/usr/bin/v.real\n:\n";

const ROWS: &[Row] = &[
    Row {
        there: &[("/usr/bin/x", "/")],
        package: &ALPHA,
        fault: "DirInWay /usr/bin/x",
        left: &[("/usr/bin/x", "/"), ("/usr/bin/x.dpkg-inst", "")],
    },
    Row {
        there: &[("/usr/bin", "@elsewhere")],
        package: &ALPHA,
        fault: "LinkParent /usr/bin/x",
        left: &[("/usr/bin", "@elsewhere")],
    },
    Row {
        there: &[("/usr", "a file")],
        package: &DIRECTORY_IN_PLACE,
        fault: "",
        left: &[
            ("/usr", "/"),
            ("/usr/x", "new"),
            ("/usr.dpkg-tmp", "a file"),
            ("/usr/x.dpkg-inst", ""),
        ],
    },
    Row {
        there: &[
            ("/var/lib/dpkg/info/gamma.list", GAMMA_LIST),
            ("/usr/bin/x", "gamma's"),
        ],
        package: &BESIDE_GAMMA,
        fault: "Clash /usr/bin/x gamma",
        left: &[("/usr/bin/x", "gamma's"), ("/usr/bin/x.dpkg-tmp", "")],
    },
    Row {
        there: &[
            ("/var/lib/dpkg/info/gamma.list", GAMMA_LIST),
            ("/usr/bin/x", "gamma's"),
        ],
        package: &OVER_GAMMA,
        fault: "",
        left: &[("/usr/bin/x", "new"), ("/usr/bin/x.dpkg-tmp", "gamma's")],
    },
    Row {
        there: &[
            ("/var/lib/dpkg/info/alpha.list", GAMMA_LIST),
            ("/usr/bin/x", "old"),
        ],
        package: &AGAIN,
        fault: "",
        left: &[("/usr/bin/x", "new"), ("/usr/bin/x.dpkg-tmp", "old")],
    },
    Row {
        there: &[(DIVERSIONS, A_TO_Z)],
        package: &FILE_AND_HOME,
        fault: "",
        left: &[("/a", ""), ("/z", "/"), ("/z/t", "new")],
    },
    Row {
        there: &[(DIVERSIONS, A_TO_Z)],
        package: &FILE_ALONE,
        fault: "NoParent /a",
        left: &[("/a", ""), ("/z", "")],
    },
    Row {
        there: &[(DIVERSIONS, A_TO_Z)],
        package: &ONE_PLACE,
        fault: "Clash /a alpha",
        left: &[("/a", ""), ("/z", "")],
    },
    Row {
        there: &[
            (DIVERSIONS, V_TO_REAL),
            (
                "/var/lib/dpkg/info/victor.list",
                "/.\n/usr\n/usr/bin\n/usr/bin/v\n",
            ),
            ("/usr/bin/v.real", "old"),
        ],
        package: &VICTOR,
        fault: "",
        left: &[
            ("/usr/bin/v", ""),
            ("/usr/bin/v.real", "new"),
            ("/usr/bin/v.real.dpkg-tmp", "old"),
        ],
    },
    Row {
        there: &[(DIVERSIONS, A_TO_Z)],
        package: &ON_TARGET,
        fault: "DiversionTarget /z/t",
        left: &[("/z", "")],
    },
    Row {
        there: &[(DIVERSIONS, A_TO_Z_BY_GAMMA)],
        package: &ON_TARGET,
        fault: "DiversionTarget /z/t gamma",
        left: &[("/z", "")],
    },
    Row {
        there: &[(DIVERSIONS, A_TO_Z_BY_ALPHA)],
        package: &ON_TARGET,
        fault: "DiversionTarget /z/t alpha",
        left: &[("/z", "")],
    },
    Row {
        there: &[(DIVERSIONS, A_TO_Z_BY_GAMMA), ("/z/t", "/")],
        package: &DIRECTORY_ON_TARGET,
        fault: "DiversionTarget /z/t gamma",
        left: &[("/z/t", "/")],
    },
    Row {
        there: &[(DIVERSIONS, A_TO_Z_BY_GAMMA), ("/z/t", "/")],
        package: &LINK_ON_TARGET,
        fault: "DiversionTarget /z/t gamma",
        left: &[("/z/t", "/")],
    },
    Row {
        there: &[(DIVERSIONS, A_TO_Z_BY_GAMMA), ("/z/t", "/")],
        package: &ON_TARGET,
        fault: "DirInWay /z/t",
        left: &[("/z/t", "/")],
    },
    Row {
        there: &[
            (DIVERSIONS, A_TO_Z),
            ("/var/lib/dpkg/info/gamma.list", Z_LIST),
        ],
        package: &TARGET_OF_GAMMA,
        fault: "Clash /z/t gamma",
        left: &[("/z", "")],
    },
    Row {
        there: &[
            (DIVERSIONS, A_TO_Z),
            ("/var/lib/dpkg/info/gamma.list", Z_LIST),
        ],
        package: &TARGET_OVER_GAMMA,
        fault: "DiversionTarget /z/t",
        left: &[("/z", "")],
    },
    Row {
        there: &[("/lib", "@usr/lib"), ("/share", "/")],
        package: &STAYING,
        fault: "",
        left: &[("/lib", "@usr/lib"), ("/share", "/")],
    },
    Row {
        there: &[("/d", "/"), ("/l", "@elsewhere")],
        package: &TWO_FAULTS,
        fault: "DirInWay /d",
        left: &[("/b", ""), ("/d", "/"), ("/l", "@elsewhere")],
    },
];

const NEVER: Break = Break::Read(LIMIT);

pub(crate) fn told(
    alloc: Global,
    answer: Result<Option<StepFault>, HostFault>,
) -> Result<String, AllocError> {
    match answer {
        Ok(fault) => fault_text(alloc, fault.as_ref()),
        Err(HostFault::Device) => String::from_str(alloc, "the device failed"),
        Err(HostFault::Declined) => String::from_str(alloc, "a step was declined"),
        Err(HostFault::NoMemory) => Err(AllocError),
    }
}

// The check by itself tells the fault, and only looks.
fn check_row(rt: &(impl Abort + AllocGlobal), row: &Row) -> Result<(), Fail> {
    let alloc = rt.alloc();
    let mut host = root_of(alloc, row.there)?;
    let answer = look(alloc, &mut host, row.package);
    assert_eq!(rt; told(alloc, answer)?.as_str(), row.fault);
    assert!(rt; is_untouched(&host), "{}", row.fault);
    Ok(())
}

fn left_of(alloc: Global, host: &mut MemoryHost, row: &Row) -> Result<String, AllocError> {
    let mut text = String::new(alloc);
    judge_things(alloc, host, row.left, &mut text)?;
    Ok(text)
}

// Where there is a fault no step is made.
fn write_row(rt: &(impl Abort + AllocGlobal), row: &Row) -> Result<(), Fail> {
    let alloc = rt.alloc();
    let mut host = root_of(alloc, row.there)?;
    let answer = write(alloc, &mut host, row.package, NEVER);
    assert_eq!(rt; told(alloc, answer)?.as_str(), row.fault);
    let text = left_of(alloc, &mut host, row)?;
    assert!(rt; text.is_empty(), "{text}");
    assert!(rt;
        row.fault.is_empty() || is_untouched(&host),
        "{}",
        row.fault
    );
    Ok(())
}

#[test]
fn faults_are_told_before_a_step_is_made(rt: HostRuntime) -> Result<(), Fail> {
    for row in ROWS {
        check_row(&rt, row)?;
        write_row(&rt, row)?;
    }
    Ok(())
}

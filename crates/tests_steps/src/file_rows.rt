// Files that are written over old ones, and put back, broken off at each step.
use crate::file_acts::{Act, Package, Ships};
use crate::file_breaking::{
    Found, Row, break_at_each_step, decline_each_step, fail_at_each_read, lose_at_each_step,
};
use crate::root::Thing;
use std::test::Fail;

// A file and a link in the place of a file, a file and a link where nothing stands, a file in the place of a link, a conffile,
// a new directory, and one in the place of a file.
const PACKAGE: Package = Package {
    name: "alpha",
    ships: &[
        ("/etc", Ships::Directory),
        ("/etc/z.conf", Ships::Conffile("shipped")),
        ("/opt", Ships::Directory),
        ("/opt/b", Ships::File("new")),
        ("/usr", Ships::Directory),
        ("/usr/bin", Ships::Directory),
        ("/usr/bin/a", Ships::File("new")),
        ("/usr/bin/l", Ships::File("new")),
        ("/usr/bin/m", Ships::Link("a")),
        ("/usr/bin/n", Ships::Link("a")),
        ("/usr/share", Ships::Directory),
    ],
    listing: &["alpha"],
    yields: &[],
};

const THERE: &[Thing] = &[
    (
        "/var/lib/dpkg/info/alpha.list",
        "/.\n/etc\n/etc/z.conf\n/opt\n/usr\n/usr/bin\n/usr/bin/a\n/usr/bin/l\n/usr/bin/m\n",
    ),
    ("/etc/z.conf", "mine"),
    ("/opt", "a file"),
    ("/usr/bin/a", "old"),
    ("/usr/bin/a.dpkg-inst", "left"),
    ("/usr/bin/a.dpkg-tmp", "left"),
    ("/usr/bin/l", "@old"),
    ("/usr/bin/m", "old"),
    ("/usr/bin/other", "other"),
];

// What a path had is at the path or at its second name, and a path has what it had or the whole of what is shipped. One where a
// file or link takes the place of a file or link is never missing.
const CONFFILE: Found = (("/etc/z.conf", "/etc/z.conf.dpkg-tmp"), &[("mine", "")]);

const NEW_CONFFILE: Found = (
    ("/etc/z.conf.dpkg-new", "/etc/z.conf.dpkg-old"),
    &[("", ""), ("shipped", "")],
);

const IN_PLACE_OF_A_FILE: Found = (
    ("/opt", "/opt.dpkg-tmp"),
    &[("a file", ""), ("", "a file"), ("/", "a file")],
);

const BELOW: Found = (("/opt/b", "/opt/b.dpkg-tmp"), &[("", ""), ("new", "")]);

const OVER_A_FILE: Found = (
    ("/usr/bin/a", "/usr/bin/a.dpkg-tmp"),
    &[("old", "left"), ("old", ""), ("old", "old"), ("new", "old")],
);

const OVER_A_LINK: Found = (
    ("/usr/bin/l", "/usr/bin/l.dpkg-tmp"),
    &[("@old", ""), ("@old", "@old"), ("new", "@old")],
);

const LINK_OVER_A_FILE: Found = (
    ("/usr/bin/m", "/usr/bin/m.dpkg-tmp"),
    &[("old", ""), ("old", "old"), ("@a", "old")],
);

const NEW_LINK: Found = (
    ("/usr/bin/n", "/usr/bin/n.dpkg-tmp"),
    &[("", ""), ("@a", "")],
);

const NEW_DIRECTORY: Found = (
    ("/usr/share", "/usr/share.dpkg-tmp"),
    &[("", ""), ("/", "")],
);

const OTHER: Found = (
    ("/usr/bin/other", "/usr/bin/other.dpkg-tmp"),
    &[("other", "")],
);

const FOUND: &[Found] = &[
    CONFFILE,
    NEW_CONFFILE,
    IN_PLACE_OF_A_FILE,
    BELOW,
    OVER_A_FILE,
    OVER_A_LINK,
    LINK_OVER_A_FILE,
    NEW_LINK,
    NEW_DIRECTORY,
    OTHER,
];

const WRITTEN: &[Thing] = &[
    ("/etc/z.conf", "mine"),
    ("/etc/z.conf.dpkg-new", "shipped"),
    ("/opt", "/"),
    ("/opt.dpkg-tmp", "a file"),
    ("/opt/b", "new"),
    ("/usr/bin/a", "new"),
    ("/usr/bin/a.dpkg-tmp", "old"),
    ("/usr/bin/l", "new"),
    ("/usr/bin/l.dpkg-tmp", "@old"),
    ("/usr/bin/m", "@a"),
    ("/usr/bin/m.dpkg-tmp", "old"),
    ("/usr/bin/n", "@a"),
    ("/usr/share", "/"),
    ("/etc/z.conf.dpkg-inst", ""),
    ("/opt/b.dpkg-inst", ""),
    ("/usr/bin/a.dpkg-inst", ""),
    ("/usr/bin/l.dpkg-inst", ""),
    ("/usr/bin/m.dpkg-inst", ""),
    ("/usr/bin/n.dpkg-inst", ""),
];

// Written once more the targets have what is shipped, and nothing is left of what was being written.
const WRITTEN_AGAIN: &[Thing] = &[
    ("/etc/z.conf", "mine"),
    ("/etc/z.conf.dpkg-new", "shipped"),
    ("/opt", "/"),
    ("/opt/b", "new"),
    ("/usr/bin/a", "new"),
    ("/usr/bin/l", "new"),
    ("/usr/bin/m", "@a"),
    ("/usr/bin/n", "@a"),
    ("/usr/share", "/"),
    ("/etc/z.conf.dpkg-inst", ""),
    ("/opt/b.dpkg-inst", ""),
    ("/usr/bin/a.dpkg-inst", ""),
    ("/usr/bin/l.dpkg-inst", ""),
    ("/usr/bin/m.dpkg-inst", ""),
    ("/usr/bin/n.dpkg-inst", ""),
    ("/usr/bin/other", "other"),
];

const PUT_BACK: &[Thing] = &[
    ("/etc/z.conf", "mine"),
    ("/etc/z.conf.dpkg-new", ""),
    ("/opt", "a file"),
    ("/opt.dpkg-tmp", ""),
    ("/usr/bin/a", "old"),
    ("/usr/bin/a.dpkg-tmp", ""),
    ("/usr/bin/a.dpkg-inst", ""),
    ("/usr/bin/l", "@old"),
    ("/usr/bin/l.dpkg-tmp", ""),
    ("/usr/bin/m", "old"),
    ("/usr/bin/m.dpkg-tmp", ""),
    ("/usr/bin/n", ""),
    ("/usr/share", ""),
    ("/usr/bin/other", "other"),
];

const WRITING: Row = Row {
    there: THERE,
    act: Act::Write(&PACKAGE),
    left: WRITTEN,
    found: FOUND,
    again: Act::Write(&PACKAGE),
    left_again: WRITTEN_AGAIN,
};

const PUTTING_BACK: Row = Row {
    there: THERE,
    act: Act::PutBack(&PACKAGE),
    left: PUT_BACK,
    found: FOUND,
    again: Act::Write(&PACKAGE),
    left_again: WRITTEN_AGAIN,
};

// A loss is tried with fewer paths at a time, since it may leave any first part of all steps.
const OVER: Package = Package {
    name: "alpha",
    ships: &[
        ("/usr", Ships::Directory),
        ("/usr/bin", Ships::Directory),
        ("/usr/bin/a", Ships::File("new")),
        ("/usr/bin/m", Ships::Link("a")),
    ],
    listing: &[],
    yields: &[],
};

const OVER_THERE: &[Thing] = &[
    ("/usr/bin/a", "old"),
    ("/usr/bin/a.dpkg-tmp", "left"),
    ("/usr/bin/m", "old"),
];

const OVER_FOUND: &[Found] = &[OVER_A_FILE, LINK_OVER_A_FILE];

const OVER_AGAIN: &[Thing] = &[
    ("/usr/bin/a", "new"),
    ("/usr/bin/a.dpkg-inst", ""),
    ("/usr/bin/m", "@a"),
    ("/usr/bin/m.dpkg-inst", ""),
];

const IN_PLACE: Package = Package {
    name: "alpha",
    ships: &[
        ("/etc", Ships::Directory),
        ("/etc/z.conf", Ships::Conffile("shipped")),
        ("/opt", Ships::Directory),
        ("/opt/b", Ships::File("new")),
    ],
    listing: &[],
    yields: &[],
};

const IN_PLACE_THERE: &[Thing] = &[("/etc/z.conf", "mine"), ("/opt", "a file")];

const IN_PLACE_FOUND: &[Found] = &[CONFFILE, NEW_CONFFILE, IN_PLACE_OF_A_FILE, BELOW];

const IN_PLACE_AGAIN: &[Thing] = &[
    ("/etc/z.conf", "mine"),
    ("/etc/z.conf.dpkg-new", "shipped"),
    ("/etc/z.conf.dpkg-inst", ""),
    ("/opt", "/"),
    ("/opt/b", "new"),
    ("/opt/b.dpkg-inst", ""),
];

const LOSSES: &[Row] = &[
    Row {
        there: OVER_THERE,
        act: Act::Write(&OVER),
        left: OVER_AGAIN,
        found: OVER_FOUND,
        again: Act::Write(&OVER),
        left_again: OVER_AGAIN,
    },
    Row {
        there: OVER_THERE,
        act: Act::PutBack(&OVER),
        left: &[("/usr/bin/a", "old"), ("/usr/bin/m", "old")],
        found: OVER_FOUND,
        again: Act::Write(&OVER),
        left_again: OVER_AGAIN,
    },
    Row {
        there: IN_PLACE_THERE,
        act: Act::Write(&IN_PLACE),
        left: IN_PLACE_AGAIN,
        found: IN_PLACE_FOUND,
        again: Act::Write(&IN_PLACE),
        left_again: IN_PLACE_AGAIN,
    },
    Row {
        there: IN_PLACE_THERE,
        act: Act::PutBack(&IN_PLACE),
        left: &[("/etc/z.conf.dpkg-new", ""), ("/opt", "a file")],
        found: IN_PLACE_FOUND,
        again: Act::Write(&IN_PLACE),
        left_again: IN_PLACE_AGAIN,
    },
];

#[test]
fn breaks_within_writing(rt: HostRuntime) -> Result<(), Fail> {
    break_at_each_step(&rt, &WRITING)?;
    fail_at_each_read(&rt, &WRITING)
}

#[test]
fn breaks_within_putting_back(rt: HostRuntime) -> Result<(), Fail> {
    break_at_each_step(&rt, &PUTTING_BACK)?;
    decline_each_step(&rt, &PUTTING_BACK)?;
    fail_at_each_read(&rt, &PUTTING_BACK)
}

#[test]
fn loses_power_within_either(rt: HostRuntime) -> Result<(), Fail> {
    for row in LOSSES {
        lose_at_each_step(&rt, row)?;
    }
    Ok(())
}

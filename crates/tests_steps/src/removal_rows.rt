// The files of a removal and of the purge behind it, broken off at each step (Policy 6.8).
use crate::breaking::Break;
use crate::file_acts::{Act, Package, Removal, Ships, perform};
use crate::file_breaking::{
    Found, Row, break_at_each_step, decline_each_step, fail_at_each_read, lose_at_each_step,
};
use crate::root::{Thing, judge_things, root_of};
use std::alloc::{AllocError, Global};
use std::test::Fail;

const INSTALLED: &[Thing] = &[
    ("/etc/z.conf", "a"),
    ("/opt/z/bin", "b"),
    ("/opt/z/note", "the administrator's"),
    ("/opt/z/bin.dpkg-inst", "left"),
];

// All listed places but the conffile go, and then what stands at their reserved names.
const REMOVAL: Removal = Removal {
    paths: &[
        ("/etc", true),
        ("/etc/z.conf", false),
        ("/opt", true),
        ("/opt/z", true),
        ("/opt/z/bin", true),
    ],
    names: &[
        "/etc.dpkg-inst",
        "/etc.dpkg-tmp",
        "/opt.dpkg-inst",
        "/opt.dpkg-tmp",
        "/opt/z.dpkg-inst",
        "/opt/z.dpkg-tmp",
        "/opt/z/bin.dpkg-inst",
        "/opt/z/bin.dpkg-tmp",
    ],
};

const REMOVED: &[Thing] = &[
    ("/etc/z.conf", "a"),
    ("/opt/z", "/"),
    ("/opt/z/bin", ""),
    ("/opt/z/bin.dpkg-inst", ""),
    ("/opt/z/note", "the administrator's"),
];

// The reserved name goes behind the file.
const REMOVING: &[Found] = &[
    (
        ("/opt/z/bin", "/opt/z/bin.dpkg-inst"),
        &[("b", "left"), ("", "left"), ("", "")],
    ),
    (
        ("/etc/z.conf", "/opt/z/note"),
        &[("a", "the administrator's")],
    ),
];

const OF_REMOVAL: Row = Row {
    there: INSTALLED,
    act: Act::Remove(&REMOVAL),
    left: REMOVED,
    found: REMOVING,
    again: Act::Remove(&REMOVAL),
    left_again: REMOVED,
};

const CONFFILE_LEFT: &[Thing] = &[
    ("/etc/z.conf", "a"),
    ("/etc/z.conf~", "b"),
    ("/etc/#z.conf#", "c"),
    ("/etc/z.conf.dpkg-old", "d"),
    ("/opt/z/note", "the administrator's"),
];

const PURGE: Removal = Removal {
    paths: &[("/etc", true), ("/etc/z.conf", true)],
    names: &[
        "/etc/z.conf",
        "/etc/z.conf~",
        "/etc/z.conf%",
        "/etc/#z.conf#",
        "/etc/z.conf.dpkg-new",
        "/etc/z.conf.dpkg-old",
        "/etc/z.conf.dpkg-dist",
        "/etc/z.conf.dpkg-tmp",
        "/etc/z.conf.dpkg-inst",
    ],
};

const PURGED: &[Thing] = &[
    ("/etc", ""),
    ("/etc/z.conf", ""),
    ("/etc/z.conf~", ""),
    ("/etc/#z.conf#", ""),
    ("/etc/z.conf.dpkg-old", ""),
    ("/opt/z/note", "the administrator's"),
];

// They go one behind the other, each whole.
const PURGING: &[Found] = &[
    (
        ("/etc/z.conf", "/etc/z.conf~"),
        &[("a", "b"), ("", "b"), ("", "")],
    ),
    (
        ("/etc/#z.conf#", "/etc/z.conf.dpkg-old"),
        &[("c", "d"), ("", "d"), ("", "")],
    ),
    (("/opt/z/note", "/opt"), &[("the administrator's", "/")]),
];

const OF_PURGE: Row = Row {
    there: CONFFILE_LEFT,
    act: Act::Purge(&PURGE),
    left: PURGED,
    found: PURGING,
    again: Act::Purge(&PURGE),
    left_again: PURGED,
};

// A directory was written in the place of a file; with the old file at its second name nothing is left of it.
const DIRECTORY_IN_PLACE: Package = Package {
    name: "alpha",
    ships: &[("/usr", Ships::Directory), ("/usr/x", Ships::File("new"))],
    listing: &[],
    yields: &[],
};

const OF_BACKUP: Row = Row {
    there: &[
        ("/usr", "/"),
        ("/usr/x", "new"),
        ("/usr.dpkg-tmp", "a file"),
    ],
    act: Act::Remove(&Removal {
        paths: &[],
        names: &["/usr.dpkg-tmp", "/usr/x.dpkg-tmp"],
    }),
    left: &[("/usr", "/"), ("/usr/x", "new"), ("/usr.dpkg-tmp", "")],
    found: &[(("/usr", "/usr.dpkg-tmp"), &[("/", "a file"), ("/", "")])],
    again: Act::Write(&DIRECTORY_IN_PLACE),
    left_again: &[("/usr", "/"), ("/usr/x", "new"), ("/usr.dpkg-tmp", "")],
};

// A file that lends its owner's rights lends none any more before it goes, and the directories above it go behind it.
const LENDING: Removal = Removal {
    paths: &[("/opt", true), ("/opt/z", true), ("/opt/z/su", true)],
    names: &[],
};

const OF_LENDING: Row = Row {
    there: &[("/opt/z/su", "!s"), ("/srv/su", "!t")],
    act: Act::Remove(&LENDING),
    left: &[
        ("/opt", ""),
        ("/opt/z", ""),
        ("/opt/z/su", ""),
        ("/srv/su", "!t"),
    ],
    found: &[
        (
            ("/opt/z", "/opt/z/su"),
            &[("/", "!s"), ("/", "s"), ("/", ""), ("", "")],
        ),
        (("/opt", "/srv/su"), &[("/", "!t"), ("", "!t")]),
    ],
    again: Act::Remove(&LENDING),
    left_again: &[
        ("/opt", ""),
        ("/opt/z", ""),
        ("/opt/z/su", ""),
        ("/srv/su", "!t"),
    ],
};

// Of backups that lend rights the same is found; a directory at such a name stays.
const BACKUPS: Removal = Removal {
    paths: &[],
    names: &["/usr/su.dpkg-tmp", "/usr/d.dpkg-tmp"],
};

const OF_BACKUPS: Row = Row {
    there: &[
        ("/usr/su", "!new"),
        ("/usr/su.dpkg-tmp", "!old"),
        ("/usr/d.dpkg-tmp", "/"),
    ],
    act: Act::Commit(&BACKUPS),
    left: &[
        ("/usr/su", "!new"),
        ("/usr/su.dpkg-tmp", ""),
        ("/usr/d.dpkg-tmp", "/"),
    ],
    found: &[(
        ("/usr/su", "/usr/su.dpkg-tmp"),
        &[("!new", "!old"), ("!new", "old"), ("!new", "")],
    )],
    again: Act::Commit(&BACKUPS),
    left_again: &[
        ("/usr/su", "!new"),
        ("/usr/su.dpkg-tmp", ""),
        ("/usr/d.dpkg-tmp", "/"),
    ],
};

fn break_off(rt: &(impl std::process::Abort + AllocGlobal), row: &Row) -> Result<(), Fail> {
    break_at_each_step(rt, row)?;
    decline_each_step(rt, row)?;
    fail_at_each_read(rt, row)?;
    lose_at_each_step(rt, row)
}

#[test]
fn breaks_within_a_removal(rt: HostRuntime) -> Result<(), Fail> {
    break_off(&rt, &OF_REMOVAL)
}

#[test]
fn breaks_within_a_purge(rt: HostRuntime) -> Result<(), Fail> {
    break_off(&rt, &OF_PURGE)
}

#[test]
fn breaks_within_the_end_of_a_backup(rt: HostRuntime) -> Result<(), Fail> {
    break_off(&rt, &OF_BACKUP)
}

#[test]
fn breaks_within_the_removal_of_a_file_that_lends_rights(rt: HostRuntime) -> Result<(), Fail> {
    break_off(&rt, &OF_LENDING)
}

#[test]
fn breaks_within_the_end_of_backups_that_lend_rights(rt: HostRuntime) -> Result<(), Fail> {
    break_off(&rt, &OF_BACKUPS)
}

// Only the directory whose removal is declined stays, and what is above it.
fn judge_kept(alloc: Global, row: &Row) -> Result<String, AllocError> {
    let mut host = root_of(alloc, row.there)?;
    let mut text = String::new(alloc);
    match perform(alloc, &mut host, &row.act, Break::Decline(2)) {
        Ok(None) if host.denials() == 1 => {}
        _ => text.push_str("another answer\n")?,
    }
    judge_things(alloc, &mut host, KEPT, &mut text)?;
    Ok(text)
}

const KEPT: &[Thing] = &[("/opt", "/"), ("/opt/z", "/"), ("/opt/z/su", "")];

#[test]
fn a_directory_whose_removal_is_declined_stays(rt: HostRuntime) -> Result<(), Fail> {
    let text = judge_kept(rt.alloc(), &OF_LENDING)?;
    assert!(rt; text.is_empty(), "{text}");
    Ok(())
}

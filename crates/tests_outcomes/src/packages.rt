// What a package stands at: its record, and what it has under the root. In the modules below it, one in the other, are the root
// that begins so, what the tables say of it, the choices of how calls end, and the rows.
mod machine;

use std::alloc::{AllocError, Global};

pub(crate) const NOT_INSTALLED: &str = "not-installed";

pub(crate) const CONFIG_FILES: &str = "config-files";

pub(crate) const HALF_INSTALLED: &str = "half-installed";

pub(crate) const UNPACKED: &str = "unpacked";

pub(crate) const HALF_CONFIGURED: &str = "half-configured";

pub(crate) const INSTALLED: &str = "installed";

// The digest of a conffile that was never settled.
pub(crate) const NEVER: &str = "newconffile";

// Of a conffile each digest is told by what the file held, and is empty where there is none.
#[derive(Clone, Copy)]
pub(crate) struct Package {
    pub(crate) name: &'static str,
    pub(crate) version: &'static str,
    pub(crate) want: &'static str,
    pub(crate) flag: &'static str,
    pub(crate) state: &'static str,
    // the version last configured, empty where there is none
    pub(crate) last: &'static str,
    pub(crate) removed: bool,
    pub(crate) digest: &'static str,
    pub(crate) pending: &'static str,
    // the other fields of its record
    pub(crate) fields: &'static str,
    pub(crate) list: &'static str,
    // where its file stands, what that holds, what its conffile holds, and what is to become it
    pub(crate) place: &'static str,
    pub(crate) file: &'static str,
    pub(crate) conffile: &'static str,
    pub(crate) fresh: &'static str,
}

pub(crate) const NO_PATHS: &str = "/.\n";

pub(crate) const CONFFILE_ALONE: &str = "/.\n/etc\n/etc/a.conf\n";

pub(crate) const ABOVE_CONFFILE: &str = "/.\n/etc\n";

pub(crate) const ALL_PATHS: &str = "/.\n/etc\n/etc/a.conf\n/usr\n/usr/bin\n/usr/bin/a\n";

// Version 1.0, with a conffile that holds `a`; version 2.0 ships `c`.
pub(crate) const ALPHA: Package = Package {
    name: "alpha",
    version: "1.0",
    want: "install",
    flag: "ok",
    state: INSTALLED,
    last: "1.0",
    removed: false,
    digest: "a",
    pending: "",
    fields: "",
    list: ALL_PATHS,
    place: "/usr/bin/a",
    file: "old",
    conffile: "a",
    fresh: "",
};

// What is noted of it first has the version of the tree.
pub(crate) const NO_ALPHA: Package = Package {
    version: "2.0",
    state: NOT_INSTALLED,
    last: "",
    digest: "",
    list: NO_PATHS,
    file: "",
    conffile: "",
    ..ALPHA
};

pub(crate) const ALPHA_REMOVED: Package = Package {
    state: CONFIG_FILES,
    ..ALPHA_HALF_REMOVED
};

// A removal whose postrm failed.
pub(crate) const ALPHA_HALF_REMOVED: Package = Package {
    state: HALF_INSTALLED,
    want: "deinstall",
    removed: true,
    list: CONFFILE_ALONE,
    file: "",
    ..ALPHA
};

// An upgrade whose undoing failed.
pub(crate) const ALPHA_MARKED: Package = Package {
    state: HALF_INSTALLED,
    flag: "reinstreq",
    ..ALPHA
};

// Never configured.
pub(crate) const ALPHA_UNPACKED: Package = Package {
    state: UNPACKED,
    last: "",
    digest: NEVER,
    pending: "a",
    conffile: "",
    fresh: "a",
    ..ALPHA
};

pub(crate) const ALPHA_HALF_CONFIGURED: Package = Package {
    state: HALF_CONFIGURED,
    ..ALPHA
};

// Alpha in each state.
pub(crate) const STARTS: &[Package] = &[
    NO_ALPHA,
    ALPHA_REMOVED,
    ALPHA_HALF_REMOVED,
    ALPHA_MARKED,
    ALPHA_UNPACKED,
    ALPHA_HALF_CONFIGURED,
    ALPHA,
];

// Another package, which has no files.
pub(crate) const BRAVO: Package = Package {
    name: "bravo",
    version: "1",
    last: "1",
    digest: "",
    list: NO_PATHS,
    place: "/opt/b",
    file: "",
    conffile: "",
    ..ALPHA
};

// The MD5 sums of what conffiles hold.
const DIGESTS: &[(&str, &str)] = &[
    ("a", "0cc175b9c0f1b6a831c399e269772661"),
    ("c", "4a8a08f09d37b73795649038408b5f33"),
];

fn digest_of(text: &'static str) -> &'static str {
    for (held, digest) in DIGESTS {
        if *held == text {
            return digest;
        }
    }
    text
}

// Adds a line, or lines, where a value is there.
fn push(text: &mut String, before: &str, value: &str) -> Result<(), AllocError> {
    if !value.is_empty() {
        text.push_str(before)?;
        text.push_str(value)?;
        text.push('\n')?;
    }
    Ok(())
}

impl Package {
    fn is_installed(&self) -> bool {
        self.state == INSTALLED
    }

    // Whether nothing of it is recorded.
    fn is_none(&self) -> bool {
        self.state == NOT_INSTALLED
    }

    // Whether the lines that tell two records are the same.
    fn is_told_as(&self, other: &Package) -> bool {
        self.version == other.version
            && self.want == other.want
            && self.flag == other.flag
            && self.state == other.state
    }

    // The record as it is written.
    fn paragraph(&self, alloc: Global) -> Result<String, AllocError> {
        let Package {
            name,
            version,
            want,
            flag,
            state,
            ..
        } = *self;
        let mut text = format!(in alloc;
            "Package: {name}\nStatus: {want} {flag} {state}\nVersion: {version}\n"
        )?;
        if !self.is_installed() {
            push(&mut text, "Config-Version: ", self.last)?;
        }
        text.push_str(self.fields)?;
        push(
            &mut text,
            "Conffiles:\n /etc/a.conf ",
            digest_of(self.digest),
        )?;
        push(
            &mut text,
            "Removed-Since: ",
            if self.removed { "yes" } else { "" },
        )?;
        push(
            &mut text,
            "New-Conffiles:\n /etc/a.conf ",
            digest_of(self.pending),
        )?;
        Ok(text)
    }
}

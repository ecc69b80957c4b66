// The tables of an unpack (Policy 6.6), of what its undoing leaves, and of what a command refuses.
use crate::packages::{
    CONFIG_FILES, HALF_CONFIGURED, HALF_INSTALLED, INSTALLED, NOT_INSTALLED, UNPACKED,
};

#[derive(Clone, Copy, PartialEq)]
pub(crate) enum Kind {
    Prerm,
    Other,
    Preinst,
    Postrm,
}

// A row is there where its owner is in one of these states. A call is told as it is printed, with `%` for the old version;
// no fallback is empty.
pub(crate) struct Row {
    pub(crate) kind: Kind,
    pub(crate) owner: &'static str,
    pub(crate) states: &'static [&'static str],
    pub(crate) forward: &'static str,
    pub(crate) fallback: &'static str,
    pub(crate) undo: &'static str,
}

const UPGRADED: &[&str] = &[HALF_INSTALLED, UNPACKED, HALF_CONFIGURED, INSTALLED];

pub(crate) const CONFIGURED: &[&str] = &[HALF_CONFIGURED, INSTALLED];

pub(crate) const ROWS: &[Row] = &[
    Row {
        kind: Kind::Prerm,
        owner: "alpha",
        states: CONFIGURED,
        forward: "old alpha prerm upgrade 2.0",
        fallback: "new alpha prerm failed-upgrade % 2.0",
        undo: "old alpha postinst abort-upgrade 2.0",
    },
    // broken by alpha
    Row {
        kind: Kind::Other,
        owner: "bravo",
        states: &[INSTALLED],
        forward: "old bravo prerm deconfigure in-favour alpha 2.0",
        fallback: "",
        undo: "old bravo postinst abort-deconfigure in-favour alpha 2.0",
    },
    // depends on delta
    Row {
        kind: Kind::Other,
        owner: "echo",
        states: &[INSTALLED],
        forward: "old echo prerm deconfigure in-favour alpha 2.0 removing delta 1",
        fallback: "",
        undo: "old echo postinst abort-deconfigure in-favour alpha 2.0 removing delta 1",
    },
    // in conflict with alpha
    Row {
        kind: Kind::Other,
        owner: "delta",
        states: CONFIGURED,
        forward: "old delta prerm remove in-favour alpha 2.0",
        fallback: "",
        undo: "old delta postinst abort-remove in-favour alpha 2.0",
    },
    Row {
        kind: Kind::Preinst,
        owner: "alpha",
        states: UPGRADED,
        forward: "new alpha preinst upgrade % 2.0",
        fallback: "",
        undo: "new alpha postrm abort-upgrade % 2.0",
    },
    Row {
        kind: Kind::Preinst,
        owner: "alpha",
        states: &[CONFIG_FILES],
        forward: "new alpha preinst install % 2.0",
        fallback: "",
        undo: "new alpha postrm abort-install % 2.0",
    },
    Row {
        kind: Kind::Preinst,
        owner: "alpha",
        states: &[NOT_INSTALLED],
        forward: "new alpha preinst install",
        fallback: "",
        undo: "new alpha postrm abort-install",
    },
    Row {
        kind: Kind::Postrm,
        owner: "alpha",
        states: UPGRADED,
        forward: "old alpha postrm upgrade 2.0",
        fallback: "new alpha postrm failed-upgrade % 2.0",
        undo: "old alpha preinst abort-upgrade 2.0",
    },
];

// The undo that failed, whether the row of preinst was reached, and the state and flag that its owner ends in; an empty flag
// is that of before.
pub(crate) const ENDS: &[(Kind, bool, &str, &str)] = &[
    (Kind::Prerm, false, HALF_CONFIGURED, ""),
    (Kind::Prerm, true, UNPACKED, ""),
    (Kind::Preinst, true, HALF_INSTALLED, "reinstreq"),
    (Kind::Postrm, true, HALF_INSTALLED, "reinstreq"),
    (Kind::Other, false, HALF_CONFIGURED, ""),
    (Kind::Other, true, HALF_CONFIGURED, ""),
];

// The command, the state in which it is refused, and the rule, before that of the flag.
pub(crate) const REFUSALS: &[(&str, &str, &str)] = &[
    ("configure", NOT_INSTALLED, "Unknown"),
    ("configure", CONFIG_FILES, "WrongState"),
    ("configure", HALF_INSTALLED, "WrongState"),
    ("configure", INSTALLED, "WrongState"),
    ("remove", NOT_INSTALLED, "Unknown"),
    ("remove", CONFIG_FILES, "NothingToRemove"),
    ("purge", NOT_INSTALLED, "Unknown"),
];

// The scripts of alpha that are stored, by the numbers that stand for them.
pub(crate) const SCRIPTS: &[(u8, &str)] = &[
    (1, "preinst"),
    (2, "postinst"),
    (4, "prerm"),
    (8, "postrm"),
];

// Each script of alpha as a call of it begins; those of the tree have numbers of their own.
pub(crate) const CALLED: &[(u8, &str)] = &[
    (1, "old alpha preinst"),
    (2, "old alpha postinst"),
    (4, "old alpha prerm"),
    (8, "old alpha postrm"),
    (16, "new alpha preinst"),
    (32, "new alpha postinst"),
    (64, "new alpha prerm"),
    (128, "new alpha postrm"),
];

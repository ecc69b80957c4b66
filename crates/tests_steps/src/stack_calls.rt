// The rows of an upgrade of alpha from 1.0 to 2.0 (Policy 6.6), beside which bravo and charlie may be deconfigured, and how rows
// are run over a root in memory.
use crate::noting::{Note, Noting, Whose};
use crate::root::{Thing, path_of, text_at};
use host_core::{Call, HostFault, Outcome, Places, Script, Side};
use host_memory::{Ending, MemoryHost, Planned};
use std::alloc::{AllocError, Global};
use texts::{Text, Texts};
use undo_rows::{Called, Owner, Row, Unwinding, run_rows};

// A row: its package, or none for that of the files, its calls as they are printed, and what is noted before it and once it is
// undone. An absent call is the empty text.
pub(crate) struct RowOf {
    owner: &'static str,
    forward: &'static str,
    fallback: &'static str,
    undo: &'static str,
    pub(crate) before: Note,
    pub(crate) undone: Note,
}

// Rows, and whether the file row has a step fault.
pub(crate) struct Rows {
    pub(crate) rows: &'static [RowOf],
    pub(crate) clashes: bool,
}

const PRERM: RowOf = RowOf {
    owner: "alpha",
    forward: "old alpha prerm upgrade 2.0",
    fallback: "new alpha prerm failed-upgrade 1.0 2.0",
    undo: "old alpha postinst abort-upgrade 2.0",
    before: Some((Whose::Alpha, "half-configured")),
    undone: Some((Whose::Alpha, "installed")),
};

const BRAVO: RowOf = RowOf {
    owner: "bravo",
    forward: "old bravo prerm deconfigure in-favour alpha 2.0",
    fallback: "",
    undo: "old bravo postinst abort-deconfigure in-favour alpha 2.0",
    before: Some((Whose::Bravo, "half-configured")),
    undone: Some((Whose::Bravo, "installed")),
};

const CHARLIE: RowOf = RowOf {
    owner: "charlie",
    forward: "old charlie prerm deconfigure in-favour alpha 2.0",
    fallback: "",
    undo: "old charlie postinst abort-deconfigure in-favour alpha 2.0",
    before: Some((Whose::Charlie, "half-configured")),
    undone: Some((Whose::Charlie, "installed")),
};

const PREINST: RowOf = RowOf {
    owner: "alpha",
    forward: "new alpha preinst upgrade 1.0 2.0",
    fallback: "",
    undo: "new alpha postrm abort-upgrade 1.0 2.0",
    before: Some((Whose::Alpha, "half-installed")),
    undone: Some((Whose::Alpha, "unpacked")),
};

const FILES: RowOf = RowOf {
    owner: "",
    forward: "",
    fallback: "",
    undo: "",
    before: Some((Whose::Files, "new")),
    undone: Some((Whose::Files, "old")),
};

const POSTRM: RowOf = RowOf {
    owner: "alpha",
    forward: "old alpha postrm upgrade 2.0",
    fallback: "new alpha postrm failed-upgrade 1.0 2.0",
    undo: "old alpha preinst abort-upgrade 2.0",
    before: None,
    undone: None,
};

pub(crate) const UPGRADE: Rows = Rows {
    rows: &[PRERM, PREINST, FILES, POSTRM],
    clashes: false,
};

pub(crate) const BESIDE: Rows = Rows {
    rows: &[PRERM, BRAVO, CHARLIE, PREINST, FILES, POSTRM],
    clashes: false,
};

// The new version has no scripts.
pub(crate) const WITHOUT_SCRIPTS: Rows = Rows {
    rows: &[
        RowOf {
            owner: "alpha",
            forward: "old alpha prerm upgrade 2.0",
            fallback: "",
            undo: "old alpha postinst abort-upgrade 2.0",
            before: Some((Whose::Alpha, "half-configured")),
            undone: Some((Whose::Alpha, "installed")),
        },
        FILES,
    ],
    clashes: false,
};

// A new package with two scripts, of whose files one clashes.
pub(crate) const CLASHING: Rows = Rows {
    rows: &[
        RowOf {
            owner: "alpha",
            forward: "new alpha preinst install",
            fallback: "",
            undo: "new alpha postrm abort-install",
            before: None,
            undone: None,
        },
        FILES,
    ],
    clashes: true,
};

// What is noted when the rows begin.
pub(crate) const BEGUN: &[Thing] = &[
    ("/alpha", "installed"),
    ("/bravo", "installed"),
    ("/charlie", "installed"),
    ("/files", "old"),
];

fn side_of(word: &str) -> Side {
    if word == "new" { Side::New } else { Side::Old }
}

fn script_of(word: &str) -> Script {
    if word == "preinst" {
        return Script::Preinst;
    }
    if word == "postinst" {
        return Script::Postinst;
    }
    if word == "prerm" {
        return Script::Prerm;
    }
    Script::Postrm
}

// The words of a line behind the first three.
fn args_of(alloc: Global, line: &str) -> Result<Texts, AllocError> {
    let mut args = Texts::new(alloc);
    for word in line.split(' ').skip(3) {
        args.push(Text::from_str(alloc, word)?)?;
    }
    Ok(args)
}

// The call that a line names: side, package, script and arguments.
fn call_of(alloc: Global, line: &str) -> Result<Option<Call>, AllocError> {
    let mut words = line.split(' ');
    let side = words.next();
    let package = words.next();
    let (Some(side), Some(package), Some(script)) = (side, package, words.next()) else {
        return Ok(None);
    };
    Ok(Some(Call {
        side: side_of(side),
        package: Text::from_str(alloc, package)?,
        script: script_of(script),
        at: path_of(alloc, "/script")?,
        args: args_of(alloc, line)?,
    }))
}

fn owner_of(alloc: Global, name: &str) -> Result<Owner, AllocError> {
    if name.is_empty() {
        return Ok(Owner::Files);
    }
    Ok(Owner::Package(Text::from_str(alloc, name)?))
}

pub(crate) fn row_of(alloc: Global, row: &RowOf) -> Result<Row, AllocError> {
    Ok(Row {
        owner: owner_of(alloc, row.owner)?,
        forward: call_of(alloc, row.forward)?,
        fallback: call_of(alloc, row.fallback)?,
        undo: call_of(alloc, row.undo)?,
    })
}

fn rows_of(alloc: Global, rows: &[RowOf]) -> Result<Vec<Row>, AllocError> {
    let mut made = Vec::new(alloc);
    for row in rows {
        made.push(row_of(alloc, row)?)?;
    }
    Ok(made)
}

fn kept(alloc: Global) -> Result<Places, AllocError> {
    let mut items = Vec::new(alloc);
    for (path, _) in BEGUN {
        items.push(path_of(alloc, path)?)?;
    }
    Ok(Places { items })
}

pub(crate) fn noting(alloc: Global, rows: &Rows) -> Result<Noting, AllocError> {
    Ok(Noting {
        alloc,
        places: kept(alloc)?,
        rows: rows.rows,
        clashes: rows.clashes,
    })
}

// Plans that a call ends with an exit status.
pub(crate) fn plan_exit(
    alloc: Global,
    host: &mut MemoryHost,
    status: i32,
) -> Result<(), AllocError> {
    let ending = Ending::Ended(Outcome::Exit(status));
    host.plan(Planned {
        ending,
        change: Vec::new(alloc),
    })
}

// Runs the rows.
pub(crate) fn run(
    alloc: Global,
    host: &mut MemoryHost,
    rows: &Rows,
    told: &mut Vec<Called>,
) -> Result<Option<Unwinding>, HostFault> {
    let mut noting = noting(alloc, rows)?;
    let rows = rows_of(alloc, rows.rows)?;
    run_rows(alloc, host, &mut noting, rows, told)
}

fn side_word(side: Side) -> &'static str {
    match side {
        Side::Old => "old",
        Side::New => "new",
    }
}

// A call as it is printed.
pub(crate) fn line_of(alloc: Global, call: &Call) -> Result<String, AllocError> {
    let side = side_word(call.side);
    let package = call.package.as_str();
    let script = call.script.name();
    let mut line = format!(in alloc; "{side} {package} {script}")?;
    for word in call.args.as_slice() {
        line.push_str(" ")?;
        line.push_str(word.as_str())?;
    }
    Ok(line)
}

fn outcome_text(alloc: Global, outcome: Outcome) -> Result<String, AllocError> {
    match outcome {
        Outcome::Exit(status) => format!(in alloc; "exit {status}"),
        Outcome::Killed => String::from_str(alloc, "killed"),
        Outcome::NotStarted => String::from_str(alloc, "not started"),
    }
}

// The calls that were told, a line each.
pub(crate) fn lines_of(alloc: Global, told: &[Called]) -> Result<String, AllocError> {
    let mut text = String::new(alloc);
    for called in told {
        text.push_str(line_of(alloc, &called.call)?.as_str())?;
        text.push_str(": ")?;
        text.push_str(outcome_text(alloc, called.outcome)?.as_str())?;
        text.push_str("\n")?;
    }
    Ok(text)
}

// A state by one letter: installed, half-configured, unpacked, half-installed; of the files old and new.
fn letter_of(text: &str) -> &'static str {
    for (word, letter) in LETTERS {
        if *word == text {
            return *letter;
        }
    }
    "?"
}

const LETTERS: &[(&str, &str)] = &[
    ("installed", "i"),
    ("half-configured", "c"),
    ("unpacked", "u"),
    ("half-installed", "h"),
    ("old", "o"),
    ("new", "n"),
];

// What is noted of alpha, bravo and charlie, and which file stands, a letter each.
pub(crate) fn noted(alloc: Global, host: &mut MemoryHost) -> Result<String, AllocError> {
    let mut text = String::new(alloc);
    for (path, _) in BEGUN {
        let found = text_at(alloc, host, path)?;
        text.push_str(letter_of(found.as_str()))?;
    }
    Ok(text)
}

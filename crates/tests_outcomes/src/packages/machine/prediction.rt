// What the tables say that a command prints and leaves, for calls that end as chosen.
mod choices;

use super::{Case, Tree, stored};
use crate::packages::{
    ABOVE_CONFFILE, CONFFILE_ALONE, CONFIG_FILES, HALF_CONFIGURED, HALF_INSTALLED, INSTALLED,
    NEVER, NO_ALPHA, NO_PATHS, Package, UNPACKED,
};
use crate::tables::{CALLED, CONFIGURED, ENDS, Kind, REFUSALS, ROWS, Row, SCRIPTS};
use std::alloc::{AllocError, Global};

// How the calls fail that are made, with what is told so far; the packages as they are, and as the unit found them.
#[derive(Drop)]
struct Prediction {
    alloc: Global,
    told: String,
    failing: Vec<bool>,
    chosen: Vec<bool>,
    failure: &'static str,
    scripts: u8,
    tree: &'static Tree,
    old: &'static str,
    packages: Vec<Package>,
    found: Vec<Package>,
    is_done: bool,
}

// No call, of a unit in which none has failed.
const NONE: &str = "";

const DISAPPEARS: &str = "old gamma postrm disappear alpha 2.0";

const DELTA_GOES: &str = "old delta postrm remove";

fn predict(alloc: Global, case: &Case, chosen: Vec<bool>) -> Result<Prediction, AllocError> {
    let (_, failure) = case.failure;
    let mut packages = Vec::new(alloc);
    packages.push(case.alpha)?;
    packages.extend_from_slice(case.others)?;
    Ok(Prediction {
        alloc,
        told: String::new(alloc),
        failing: Vec::new(alloc),
        chosen,
        failure,
        scripts: stored(&case.alpha, case.scripts) | (case.scripts & 0xf0),
        tree: case.tree,
        old: "",
        packages,
        found: Vec::new(alloc),
        is_done: true,
    })
}

fn named(packages: &[Package], name: &str) -> Package {
    for package in packages {
        if package.name == name {
            return *package;
        }
    }
    Package {
        name: "",
        ..NO_ALPHA
    }
}

impl Prediction {
    fn package(&self, name: &str) -> Package {
        named(self.packages.as_slice(), name)
    }

    fn set(&mut self, now: Package) {
        for package in self.packages.iter_mut() {
            if package.name == now.name {
                *package = now;
            }
        }
    }

    // Whether the script of a call is there.
    fn has(&self, call: &str) -> bool {
        for (script, words) in CALLED {
            if call.starts_with(*words) {
                return self.scripts & *script != 0;
            }
        }
        !call.is_empty()
    }

    // Adds words, with the old version at the sign for it.
    fn tell(&mut self, words: &str) -> Result<(), AllocError> {
        match words.split_once('%') {
            Some((before, behind)) => {
                self.told.push_str(before)?;
                self.told.push_str(self.old)?;
                self.told.push_str(behind)
            }
            None => self.told.push_str(words),
        }
    }

    // Whether a call succeeds; one that is absent does.
    fn call(&mut self, call: &str) -> Result<bool, AllocError> {
        if !self.has(call) {
            return Ok(true);
        }
        let made = self.failing.len();
        let fails = self.chosen.as_slice().get(made).copied().unwrap_or(false);
        self.failing.push(fails)?;
        self.told.push_str("call ")?;
        self.tell(call)?;
        let ending = if fails { self.failure } else { "exit 0" };
        self.told.push_str(": ")?;
        self.told.push_str(ending)?;
        self.told.push('\n')?;
        Ok(!fails)
    }

    // Ends a unit, which has failed with this call, if with any.
    fn end(&mut self, failed: &str) -> Result<bool, AllocError> {
        for package in self.packages.as_slice() {
            let name = package.name;
            if name == "alpha" || !package.is_told_as(&named(self.found.as_slice(), name)) {
                let Package {
                    version,
                    want,
                    flag,
                    state,
                    ..
                } = *package;
                let alloc = self.alloc;
                let line = match package.is_none() {
                    true => format!(in alloc; "state {name} none\n")?,
                    false => format!(in alloc; "state {name} {version} {want} {flag} {state}\n")?,
                };
                self.told.push_str(line.as_str())?;
            }
        }
        match failed.split_once(' ') {
            Some((_, words)) => {
                self.told.push_str("failed ")?;
                self.tell(words)?;
                self.told.push('\n')?;
                self.is_done = false;
                Ok(false)
            }
            None => {
                self.told.push_str("done\n")?;
                Ok(true)
            }
        }
    }

    fn refuse(&mut self, name: &str, rule: &str) -> Result<bool, AllocError> {
        let line = format!(in self.alloc; "refused {name} {rule}\n")?;
        self.told.push_str(line.as_str())?;
        self.is_done = false;
        Ok(false)
    }

    // The rule by which a command on alpha is refused.
    fn refusal(&self, command: &str) -> Option<&'static str> {
        let alpha = self.package("alpha");
        for (refused, state, rule) in REFUSALS {
            if *refused == command && *state == alpha.state {
                return Some(*rule);
            }
        }
        match alpha.flag {
            "reinstreq" => Some("Reinstreq"),
            _ => None,
        }
    }

    // Begins a unit.
    fn begin(&mut self, old: &'static str) -> Result<(), AllocError> {
        self.old = old;
        self.found = Vec::from_slice(self.alloc, self.packages.as_slice())?;
        Ok(())
    }

    // Sets what the owner of a row whose undo has failed ends in.
    fn mark(&mut self, row: &Row, reached: bool) {
        let mut package = self.package(row.owner);
        if package.is_none() {
            package.fields = self.tree.fields;
        }
        for (kind, when, state, flag) in ENDS {
            if *kind == row.kind && *when == reached {
                package.state = *state;
                if !flag.is_empty() {
                    package.flag = *flag;
                }
            }
        }
        self.set(package);
    }

    // Undoes rows, the last of which has failed; once an undo of an owner has failed, no further one of it is called.
    fn unwind(&mut self, rows: &[&Row], reached: bool) -> Result<(), AllocError> {
        let mut marked = Vec::new(self.alloc);
        for row in rows.iter().rev() {
            if !marked.as_slice().contains(&row.owner) && !self.call(row.undo)? {
                marked.push(row.owner)?;
                self.mark(row, reached);
            }
        }
        Ok(())
    }

    // The incoming package behind its last row.
    fn take_over(&mut self) {
        let mut alpha = self.package("alpha");
        alpha.version = "2.0";
        alpha.want = "install";
        alpha.flag = "ok";
        alpha.state = UNPACKED;
        alpha.fields = self.tree.fields;
        if alpha.digest.is_empty() {
            alpha.digest = NEVER;
        }
        alpha.pending = "c";
        alpha.list = self.tree.list;
        alpha.file = "new";
        alpha.fresh = "c";
        self.set(alpha);
        self.scripts = self.scripts / 16 * 17;
    }

    // Those that are broken, or lose what they depend on.
    fn deconfigure(&mut self) {
        for name in ["bravo", "echo"] {
            let mut package = self.package(name);
            if package.is_installed() {
                package.state = HALF_CONFIGURED;
                self.set(package);
            }
        }
    }

    // Gamma, whose only file was taken over, disappears.
    fn disappear(&mut self) -> Result<bool, AllocError> {
        if !self.package("gamma").is_installed() {
            return Ok(true);
        }
        let is_done = self.call(DISAPPEARS)?;
        self.set(Package {
            name: "gamma",
            ..NO_ALPHA
        });
        Ok(is_done)
    }

    // Delta, which is in conflict with alpha, is removed.
    fn remove_delta(&mut self) -> Result<bool, AllocError> {
        if !self.package("delta").is_installed() {
            return Ok(true);
        }
        self.lose("delta", DELTA_GOES)
    }

    // What is done behind the last row. It has failed with the first call that did.
    fn commit(&mut self) -> Result<bool, AllocError> {
        self.take_over();
        self.deconfigure();
        let has_disappeared = self.disappear()?;
        let is_removed = self.remove_delta()?;
        match (has_disappeared, is_removed) {
            (false, _) => self.end(DISAPPEARS),
            (true, false) => self.end(DELTA_GOES),
            (true, true) => self.end(NONE),
        }
    }

    fn unpack(&mut self) -> Result<bool, AllocError> {
        self.begin(self.package("alpha").version)?;
        let mut rows = Vec::new(self.alloc);
        let mut reached = false;
        for row in ROWS {
            let state = self.package(row.owner).state;
            if row.states.contains(&state) {
                rows.push(row)?;
                reached = reached || row.kind == Kind::Preinst;
                let is_done = self.call(row.forward)?
                    || self.has(row.fallback) && self.call(row.fallback)?;
                if !is_done {
                    self.unwind(rows.as_slice(), reached)?;
                    return self.end(row.forward);
                }
            }
        }
        self.commit()
    }

    // Settles the conffile: it becomes new where it never was, and where it wasn't edited.
    fn settle(&mut self) {
        let mut alpha = self.package("alpha");
        alpha.state = HALF_CONFIGURED;
        if !alpha.pending.is_empty() {
            let is_first = alpha.digest == NEVER && alpha.conffile.is_empty();
            if is_first || alpha.digest == alpha.conffile {
                alpha.conffile = alpha.fresh;
            }
            alpha.digest = alpha.pending;
            alpha.pending = "";
            alpha.fresh = "";
        }
        self.set(alpha);
    }

    fn configure(&mut self) -> Result<bool, AllocError> {
        if let Some(rule) = self.refusal("configure") {
            return self.refuse("alpha", rule);
        }
        let last = self.package("alpha").last;
        self.begin(if last.is_empty() { "\"\"" } else { last })?;
        self.settle();
        if !self.call("old alpha postinst configure %")? {
            return self.end("old alpha postinst configure %");
        }
        let mut alpha = self.package("alpha");
        alpha.state = INSTALLED;
        alpha.last = alpha.version;
        alpha.removed = false;
        self.set(alpha);
        self.end(NONE)
    }

    // Packages that were deconfigured stay so, since they are broken or what they depend on is gone.
    fn install(&mut self) -> Result<bool, AllocError> {
        if !self.unpack()? {
            return Ok(false);
        }
        self.configure()?;
        if self.package("bravo").state == HALF_CONFIGURED {
            self.refuse("bravo", "BrokenBy alpha")?;
        }
        if self.package("echo").state == HALF_CONFIGURED {
            self.refuse("echo", "Depends delta")?;
        }
        Ok(true)
    }

    // The files of a package go, then postrm is called, then the other scripts go.
    fn lose(&mut self, name: &'static str, postrm: &str) -> Result<bool, AllocError> {
        let mut package = self.package(name);
        package.want = "deinstall";
        package.flag = "ok";
        package.state = HALF_INSTALLED;
        package.removed = true;
        let is_unsettled = package.digest == NEVER;
        if is_unsettled {
            package.digest = "";
        }
        package.list = if !package.digest.is_empty() {
            CONFFILE_ALONE
        } else if is_unsettled && self.has(postrm) {
            ABOVE_CONFFILE
        } else {
            NO_PATHS
        };
        package.pending = "";
        package.fresh = "";
        package.file = "";
        self.set(package);
        if !self.call(postrm)? {
            return Ok(false);
        }
        if name == "alpha" {
            self.scripts &= 0xf8;
        }
        package.state = CONFIG_FILES;
        if !self.has(postrm) && package.digest.is_empty() {
            package = Package { name, ..NO_ALPHA };
        }
        self.set(package);
        Ok(true)
    }

    fn purge(&mut self) -> Result<bool, AllocError> {
        let mut alpha = self.package("alpha");
        alpha.want = "purge";
        alpha.conffile = "";
        self.set(alpha);
        if !self.call("old alpha postrm purge")? {
            return self.end("old alpha postrm purge");
        }
        self.scripts &= 0xf0;
        self.set(NO_ALPHA);
        self.end(NONE)
    }

    fn remove(&mut self, command: &str) -> Result<bool, AllocError> {
        if let Some(rule) = self.refusal(command) {
            return self.refuse("alpha", rule);
        }
        let mut alpha = self.package("alpha");
        self.begin(alpha.version)?;
        if CONFIGURED.contains(&alpha.state) && !self.call("old alpha prerm remove")? {
            if !self.call("old alpha postinst abort-remove")? {
                alpha.state = HALF_CONFIGURED;
                self.set(alpha);
            }
            return self.end("old alpha prerm remove");
        }
        let has_files = alpha.state != CONFIG_FILES;
        if has_files && !self.lose("alpha", "old alpha postrm remove")? {
            return self.end("old alpha postrm remove");
        }
        if command == "purge" && !self.package("alpha").is_none() {
            return self.purge();
        }
        self.end(NONE)
    }

    // Adds what a command answers.
    fn run(&mut self, command: &str) -> Result<(), AllocError> {
        self.is_done = true;
        match command {
            "unpack" => self.unpack()?,
            "install" => self.install()?,
            "configure" => self.configure()?,
            _ => self.remove(command)?,
        };
        let status = if self.is_done { "||0\n" } else { "||1\n" };
        self.told.push_str(status)
    }

    // Adds an answer about a package.
    fn tell_of(&mut self, package: &Package, text: &str) -> Result<(), AllocError> {
        if package.is_none() {
            self.refuse(package.name, "Unknown")?;
            return self.told.push_str("||1\n");
        }
        self.told.push_str(text)?;
        self.told.push_str("||0\n")
    }

    // Adds what alpha and the package whose file it takes have under the root.
    fn view_files(&mut self) -> Result<(), AllocError> {
        let Package {
            file,
            conffile,
            fresh,
            ..
        } = self.package("alpha");
        let (usr, bin) = match file {
            "" => ("", ""),
            _ => ("directory: bin", "directory: a"),
        };
        let gamma = match file {
            "new" => self.tree.taken,
            _ => self.package("gamma").file,
        };
        let name = if conffile.is_empty() { "" } else { " a.conf" };
        let name_of_fresh = if fresh.is_empty() {
            ""
        } else {
            " a.conf.dpkg-new"
        };
        let files = format!(in self.alloc;
            "{gamma}\n{usr}\n{bin}\n{file}\ndirectory:{name}{name_of_fresh} motd\n{conffile}\n{fresh}\n\n"
        )?;
        self.told.push_str(files.as_str())
    }

    // Adds the stored scripts of alpha, a line for each.
    fn view_scripts(&mut self) -> Result<(), AllocError> {
        let text = match self.package("alpha").version {
            "1.0" => "old\n",
            _ => "new\n",
        };
        for (script, _) in SCRIPTS {
            let is_stored = self.scripts & *script != 0;
            self.told.push_str(if is_stored { text } else { "\n" })?;
        }
        Ok(())
    }

    // Adds what is left, as it is looked at.
    fn view(&mut self) -> Result<(), AllocError> {
        let alloc = self.alloc;
        let packages = Vec::from_slice(alloc, self.packages.as_slice())?;
        for package in packages.as_slice() {
            self.tell_of(package, package.paragraph(alloc)?.as_str())?;
        }
        let alpha = self.package("alpha");
        self.tell_of(&alpha, alpha.list)?;
        self.view_files()?;
        self.view_scripts()
    }
}

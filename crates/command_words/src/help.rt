// What help is asked on, and a screen for it.
ghost use Rattle.std.specs.Prelude.{◌≡◌, ◌++◌, IfOk, codes, map, option_map, string_bytes};
ghost use Rattle.command_words.specs.Topics.{HasScreen, IsScreen, has_help_flag, is_help_flag, named_in, topic_in, topic_of, usage_words, version_line};

use std::alloc::{AllocError, Global};

/// The whole program, or one of its subcommands.
#[derive(Clone, Copy)]
pub enum Topic {
    Program,
    Audit,
    CompareVersions,
    Configure,
    Diversions,
    Divert,
    Help,
    Install,
    List,
    ListFiles,
    Purge,
    Remove,
    RemoveSelected,
    Search,
    Select,
    Selections,
    Status,
    Truename,
    Undivert,
    Unpack,
    Verify,
}

/// The program's name and version.
const VERSION: &str = "coizkerra 0.2.0\n";

const PROGRAM: &str =
    "Installs, configures and removes Debian packages that are given as directories.

  unpack TREE.., install TREE..  put the files of packages in place; install configures them too
  configure [PKG..]              settle conffiles and call postinst
  remove PKG.., purge PKG..      take packages away; with purge their conffiles too
  select PKG=WANT.., selections  record what is wanted of packages; what is wanted of each
  remove-selected                take away the packages that are wanted to go
  list, audit                    all packages; those with which something has to be done
  verify [PKG..], verify --tree TREE
                                 what of packages isn't as it was installed, or as a tree has it
  status PKG, listfiles PKG      the record of a package; the paths that it lists
  search PATH, truename PATH     who has a path; where a path is
  divert PATH, undivert PATH     files of packages go to another place; or no longer
  diversions                     all diversions
  compare-versions A OP B        whether it holds, by the status
  help [COMMAND], --help         this screen, or that of a subcommand
  --version                      the program's version

Example: dpkg-deb -R hello.deb hello && coizkerra install --root /srv/root hello
";

const AUDIT: &str =
    "Lists the packages with which something has to be done: PKG STATE FLAG, a line each.

  --root DIR  the root, an absolute directory; / if it isn't given
  --json      each line is an object of JSON

Example: coizkerra audit --root /srv/root
";

const COMPARE_VERSIONS: &str = "Ends with status 0 where A OP B holds, and with 1 where it doesn't.

  OP  one of lt le eq ne ge gt; of lt-nl le-nl ge-nl gt-nl, for which an empty version is later than
      any; or, as in control files, of << <= = >= >>

Example: coizkerra compare-versions 1.0~rc1 lt 1.0
";

const CONFIGURE: &str =
    "Settles the conffiles of packages and calls their postinst, in the order that relations ask for;
of all that wait for it where none is named.

  --root DIR        the root, an absolute directory; / if it isn't given
  --json            each line is an object of JSON
  --wait SECONDS    how long the lock of another program is waited for; 0 if it isn't given
  --status-fd N     a program that reads descriptor N is told what is done; once or more
  --log FILE        lines as in dpkg's log are added to FILE
  --dry-run         the lines are told as if it were done, and nothing is changed
  --changes         behind the lines of a dry run one for each path that would be changed
  --assume-failure PKG:SCRIPT:WORD
                    in a dry run this call fails, which WORD is the first argument of
  --scripts-stderr  what scripts write goes to standard error
  --no-triggers     triggers stay pending and aren't processed then
  --abort-after N   behind N units that failed, no further one is begun
  --triggers-only   triggers that are pending are processed, and no package is configured
  --force-confold   an edited conffile stays, as without a flag
  --force-confnew   the package's takes the place of an edited conffile
  --force-confmiss  a deleted conffile is made again
  --force-depends   those go too of which Depends or Pre-Depends aren't met

Example: coizkerra configure --root /srv/root hello
";

const DIVERSIONS: &str =
    "Lists the diversions: local or the package, the path, the target, a line each.

  --root DIR  the root, an absolute directory; / if it isn't given
  --json      each line is an object of JSON

Example: coizkerra diversions --root /srv/root
";

const DIVERT: &str = "Files at PATH of all packages but P go to TARGET from now on.

  --root DIR       the root, an absolute directory; / if it isn't given
  --json           each line is an object of JSON
  --wait SECONDS   how long the lock of another program is waited for; 0 if it isn't given
  --status-fd N    a program that reads descriptor N is told what is done; once or more
  --log FILE       lines as in dpkg's log are added to FILE
  --dry-run        the lines are told as if it were done, and nothing is changed
  --changes        behind the lines of a dry run one for each path that would be changed
  --assume-failure PKG:SCRIPT:WORD
                   in a dry run this call fails, which WORD is the first argument of
  --package P      whose own file stays at PATH
  --local          the administrator's: no package's file stays there
  --divert TARGET  PATH.distrib if it isn't given
  --rename         the file that is there is moved

Example: coizkerra divert --root /srv/root --local --rename /usr/bin/vi
";

const HELP: &str = "Tells what the program does, or a subcommand, with its flags and an example.

Example: coizkerra help install
";

const INSTALL: &str =
    "Unpacks the packages of trees, which dpkg-deb -R makes, and then configures them. They are taken in
rounds, so that what a package needs before its unpack is configured before.

  --root DIR          the root, an absolute directory; / if it isn't given
  --json              each line is an object of JSON
  --wait SECONDS      how long the lock of another program is waited for; 0 if it isn't given
  --status-fd N       a program that reads descriptor N is told what is done; once or more
  --log FILE          lines as in dpkg's log are added to FILE
  --dry-run           the lines are told as if it were done, and nothing is changed
  --changes           behind the lines of a dry run one for each path that would be changed
  --assume-failure PKG:SCRIPT:WORD
                      in a dry run this call fails, which WORD is the first argument of
  --scripts-stderr    what scripts write goes to standard error
  --no-triggers       triggers stay pending and aren't processed then
  --abort-after N     behind N units that failed, no further one is begun
  --owner-root        files get user and group 0, whoever made the tree
  --auto-deconfigure  installed packages may be deconfigured in their favour
  --path-exclude PATTERN
                      paths of archives that match stay out: * stands for any signs, ? for one
  --path-include PATTERN
                      but these come in; of all that match the last one decides
  --force-confold     an edited conffile stays, as without a flag
  --force-confnew     the package's takes the place of an edited conffile
  --force-confmiss    a deleted conffile is made again
  --force-depends     Depends and Pre-Depends are ignored where they can't be kept
  --as-given          the trees are taken in the order given, all in one round

Example: dpkg-deb -R hello.deb hello && coizkerra install --root /srv/root hello
";

const LIST: &str =
    "Lists the packages: PKG VERSION STATE, a line each; those whose names match a PATTERN, where one
is given. In it * stands for any letters and ? for one. Status 1 where one matches no package.

  --root DIR       the root, an absolute directory; / if it isn't given
  --json           each line is an object of JSON
  --table          dpkg's table, as dpkg -l prints it
  --format FORMAT  as dpkg-query --showformat: ${Field} and ${Field;WIDTH} stand for values, \\n for a
                   newline, \\t for a tab

Example: coizkerra list --root /srv/root 'libhello*'
";

const LISTFILES: &str = "Lists the paths of a package.

  --root DIR  the root, an absolute directory; / if it isn't given
  --json      each line is an object of JSON

Example: coizkerra listfiles --root /srv/root hello
";

const PURGE: &str = "Removes packages with their conffiles, in the order that relations ask for.

  --root DIR        the root, an absolute directory; / if it isn't given
  --json            each line is an object of JSON
  --wait SECONDS    how long the lock of another program is waited for; 0 if it isn't given
  --status-fd N     a program that reads descriptor N is told what is done; once or more
  --log FILE        lines as in dpkg's log are added to FILE
  --dry-run         the lines are told as if it were done, and nothing is changed
  --changes         behind the lines of a dry run one for each path that would be changed
  --assume-failure PKG:SCRIPT:WORD
                    in a dry run this call fails, which WORD is the first argument of
  --scripts-stderr  what scripts write goes to standard error
  --no-triggers     triggers stay pending and aren't processed then
  --abort-after N   behind N units that failed, no further one is begun
  --force-depends   those go too on which others depend

Example: coizkerra purge --root /srv/root hello
";

const REMOVE: &str = "Removes packages but their conffiles, in the order that relations ask for.

  --root DIR        the root, an absolute directory; / if it isn't given
  --json            each line is an object of JSON
  --wait SECONDS    how long the lock of another program is waited for; 0 if it isn't given
  --status-fd N     a program that reads descriptor N is told what is done; once or more
  --log FILE        lines as in dpkg's log are added to FILE
  --dry-run         the lines are told as if it were done, and nothing is changed
  --changes         behind the lines of a dry run one for each path that would be changed
  --assume-failure PKG:SCRIPT:WORD
                    in a dry run this call fails, which WORD is the first argument of
  --scripts-stderr  what scripts write goes to standard error
  --no-triggers     triggers stay pending and aren't processed then
  --abort-after N   behind N units that failed, no further one is begun
  --force-depends   those go too on which others depend

Example: coizkerra remove --root /srv/root hello
";

const REMOVE_SELECTED: &str =
    "Removes the packages of which deinstall is wanted, and purges those of which purge is wanted, in
the order that relations ask for.

  --root DIR        the root, an absolute directory; / if it isn't given
  --json            each line is an object of JSON
  --wait SECONDS    how long the lock of another program is waited for; 0 if it isn't given
  --status-fd N     a program that reads descriptor N is told what is done; once or more
  --log FILE        lines as in dpkg's log are added to FILE
  --dry-run         the lines are told as if it were done, and nothing is changed
  --changes         behind the lines of a dry run one for each path that would be changed
  --assume-failure PKG:SCRIPT:WORD
                    in a dry run this call fails, which WORD is the first argument of
  --scripts-stderr  what scripts write goes to standard error
  --no-triggers     triggers stay pending and aren't processed then
  --abort-after N   behind N units that failed, no further one is begun
  --force-depends   those go too on which others depend

Example: coizkerra remove-selected --root /srv/root
";

const SEARCH: &str =
    "Tells which packages have the file at PATH, a line each; or each listed path that matches a PATTERN,
in which * stands for any signs and ? for one. Status 1 where there is none.

  --root DIR  the root, an absolute directory; / if it isn't given
  --json      each line is an object of JSON

Example: coizkerra search --root /srv/root '*/bin/hello'
";

const SELECT: &str =
    "Records what is wanted of packages: WANT is install, hold, deinstall or purge. What is wanted to go
away goes by remove-selected.

  --root DIR      the root, an absolute directory; / if it isn't given
  --json          each line is an object of JSON
  --wait SECONDS  how long the lock of another program is waited for; 0 if it isn't given
  --status-fd N   a program that reads descriptor N is told what is done; once or more
  --log FILE      lines as in dpkg's log are added to FILE
  --dry-run       the lines are told as if it were done, and nothing is changed
  --changes       behind the lines of a dry run one for each path that would be changed
  --assume-failure PKG:SCRIPT:WORD
                  in a dry run this call fails, which WORD is the first argument of

Example: coizkerra select --root /srv/root hello=hold
";

const SELECTIONS: &str =
    "Lists what is wanted of each package: PKG WANT, a line each; of those whose names match a PATTERN,
where one is given. In it * stands for any letters and ? for one. Status 1 where one matches none.

  --root DIR  the root, an absolute directory; / if it isn't given
  --json      each line is an object of JSON

Example: coizkerra selections --root /srv/root 'libhello*'
";

const STATUS: &str = "Prints the record of a package.

  --root DIR  the root, an absolute directory; / if it isn't given
  --json      each line is an object of JSON

Example: coizkerra status --root /srv/root hello
";

const TRUENAME: &str = "Tells where a file for PATH stands: at PATH, or where a diversion leads.

  --root DIR   the root, an absolute directory; / if it isn't given
  --json       each line is an object of JSON
  --package P  for this package

Example: coizkerra truename --root /srv/root /usr/bin/vi
";

const UNDIVERT: &str = "Takes the diversion of PATH away.

  --root DIR      the root, an absolute directory; / if it isn't given
  --json          each line is an object of JSON
  --wait SECONDS  how long the lock of another program is waited for; 0 if it isn't given
  --status-fd N   a program that reads descriptor N is told what is done; once or more
  --log FILE      lines as in dpkg's log are added to FILE
  --dry-run       the lines are told as if it were done, and nothing is changed
  --changes       behind the lines of a dry run one for each path that would be changed
  --assume-failure PKG:SCRIPT:WORD
                  in a dry run this call fails, which WORD is the first argument of
  --package P     the package whose diversion it is
  --local         it is the administrator's
  --rename        the file at its target is moved back

Example: coizkerra undivert --root /srv/root --local --rename /usr/bin/vi
";

const UNPACK: &str =
    "Puts the files of trees, which dpkg-deb -R makes, in place; configure makes the packages ready.

  --root DIR          the root, an absolute directory; / if it isn't given
  --json              each line is an object of JSON
  --wait SECONDS      how long the lock of another program is waited for; 0 if it isn't given
  --status-fd N       a program that reads descriptor N is told what is done; once or more
  --log FILE          lines as in dpkg's log are added to FILE
  --dry-run           the lines are told as if it were done, and nothing is changed
  --changes           behind the lines of a dry run one for each path that would be changed
  --assume-failure PKG:SCRIPT:WORD
                      in a dry run this call fails, which WORD is the first argument of
  --scripts-stderr    what scripts write goes to standard error
  --no-triggers       triggers stay pending and aren't processed then
  --abort-after N     behind N units that failed, no further one is begun
  --owner-root        files get user and group 0, whoever made the tree
  --auto-deconfigure  installed packages may be deconfigured in their favour
  --path-exclude PATTERN
                      paths of archives that match stay out: * stands for any signs, ? for one
  --path-include PATTERN
                      but these come in; of all that match the last one decides
  --force-depends     Pre-Depends are ignored, and that others depend on what has to go

The flags for conffiles are taken, and not needed.

Example: dpkg-deb -R hello.deb hello && coizkerra unpack --root /srv/root hello
";

const VERIFY: &str =
    "Tells which listed paths aren't as they were installed, a line each, behind the packages with which
work was cut off; of all packages where none is named. With --tree all that a package's tree ships
is compared with what stands there, access and link targets too. Status 1 where something is told.

  --root DIR    the root, an absolute directory; / if it isn't given
  --json        each line is an object of JSON
  --tree TREE   the package of this tree (or archive) is verified, against the tree
  --owner-root  files of the tree have user and group 0, whoever made it

Example: coizkerra verify --root /srv/root hello
";

impl Topic {
    /// The subcommand of this name.
    pub(crate) fn read(word: &str) -> Option<Topic>
        ensures { result ≡ topic_of word.now }
    {
        match word {
            "audit" => Some(Topic::Audit),
            "compare-versions" => Some(Topic::CompareVersions),
            "configure" => Some(Topic::Configure),
            "diversions" => Some(Topic::Diversions),
            "divert" => Some(Topic::Divert),
            "help" => Some(Topic::Help),
            "install" => Some(Topic::Install),
            "list" => Some(Topic::List),
            "listfiles" => Some(Topic::ListFiles),
            "purge" => Some(Topic::Purge),
            "remove" => Some(Topic::Remove),
            "remove-selected" => Some(Topic::RemoveSelected),
            "search" => Some(Topic::Search),
            "select" => Some(Topic::Select),
            "selections" => Some(Topic::Selections),
            "status" => Some(Topic::Status),
            "truename" => Some(Topic::Truename),
            "undivert" => Some(Topic::Undivert),
            "unpack" => Some(Topic::Unpack),
            "verify" => Some(Topic::Verify),
            _ => None,
        }
    }

    // How its words are put.
    fn usage(self) -> &'static str
        ensures { result.now ≡ usage_words self }
    {
        match self {
            Topic::Program => "COMMAND ..",
            Topic::Audit => "audit [--root DIR] [--json]",
            Topic::CompareVersions => "compare-versions A OP B",
            Topic::Configure =>
                "configure [--root DIR] [--json] [--wait SECONDS] [--status-fd N].. [--log FILE] [--dry-run [--changes] [--assume-failure PKG:SCRIPT:WORD]..] [--scripts-stderr] [--abort-after N] [--force-confold | --force-confnew] [--force-confmiss] [--force-depends] ([--no-triggers] [PKG..] | --triggers-only)",
            Topic::Diversions => "diversions [--root DIR] [--json]",
            Topic::Divert =>
                "divert [--root DIR] [--json] [--wait SECONDS] [--status-fd N].. [--log FILE] [--dry-run [--changes] [--assume-failure PKG:SCRIPT:WORD]..] (--package P | --local) [--divert TARGET] [--rename] PATH",
            Topic::Help => "help [COMMAND]",
            Topic::Install =>
                "install [--root DIR] [--json] [--wait SECONDS] [--status-fd N].. [--log FILE] [--dry-run [--changes] [--assume-failure PKG:SCRIPT:WORD]..] [--scripts-stderr] [--no-triggers] [--abort-after N] [--owner-root] [--auto-deconfigure] [--path-exclude PATTERN | --path-include PATTERN].. [--force-confold | --force-confnew] [--force-confmiss] [--force-depends] [--as-given] TREE..",
            Topic::List => "list [--root DIR] [--json | --table | --format FORMAT] [PATTERN..]",
            Topic::ListFiles => "listfiles [--root DIR] [--json] PKG",
            Topic::Purge =>
                "purge [--root DIR] [--json] [--wait SECONDS] [--status-fd N].. [--log FILE] [--dry-run [--changes] [--assume-failure PKG:SCRIPT:WORD]..] [--scripts-stderr] [--no-triggers] [--abort-after N] [--force-depends] PKG..",
            Topic::Remove =>
                "remove [--root DIR] [--json] [--wait SECONDS] [--status-fd N].. [--log FILE] [--dry-run [--changes] [--assume-failure PKG:SCRIPT:WORD]..] [--scripts-stderr] [--no-triggers] [--abort-after N] [--force-depends] PKG..",
            Topic::RemoveSelected =>
                "remove-selected [--root DIR] [--json] [--wait SECONDS] [--status-fd N].. [--log FILE] [--dry-run [--changes] [--assume-failure PKG:SCRIPT:WORD]..] [--scripts-stderr] [--no-triggers] [--abort-after N] [--force-depends]",
            Topic::Search => "search [--root DIR] [--json] PATH | PATTERN",
            Topic::Select =>
                "select [--root DIR] [--json] [--wait SECONDS] [--status-fd N].. [--log FILE] [--dry-run [--changes] [--assume-failure PKG:SCRIPT:WORD]..] PKG=WANT..",
            Topic::Selections => "selections [--root DIR] [--json] [PATTERN..]",
            Topic::Status => "status [--root DIR] [--json] PKG",
            Topic::Truename => "truename [--root DIR] [--json] [--package P] PATH",
            Topic::Undivert =>
                "undivert [--root DIR] [--json] [--wait SECONDS] [--status-fd N].. [--log FILE] [--dry-run [--changes] [--assume-failure PKG:SCRIPT:WORD]..] (--package P | --local) [--rename] PATH",
            Topic::Unpack =>
                "unpack [--root DIR] [--json] [--wait SECONDS] [--status-fd N].. [--log FILE] [--dry-run [--changes] [--assume-failure PKG:SCRIPT:WORD]..] [--scripts-stderr] [--no-triggers] [--abort-after N] [--owner-root] [--auto-deconfigure] [--path-exclude PATTERN | --path-include PATTERN].. [--force-confold | --force-confnew] [--force-confmiss] [--force-depends] TREE..",
            Topic::Verify => "verify [--root DIR] [--json] [PKG.. | --tree TREE [--owner-root]]",
        }
    }

    // What it does, its flags and an example.
    fn about(self) -> &'static str {
        match self {
            Topic::Program => PROGRAM,
            Topic::Audit => AUDIT,
            Topic::CompareVersions => COMPARE_VERSIONS,
            Topic::Configure => CONFIGURE,
            Topic::Diversions => DIVERSIONS,
            Topic::Divert => DIVERT,
            Topic::Help => HELP,
            Topic::Install => INSTALL,
            Topic::List => LIST,
            Topic::ListFiles => LISTFILES,
            Topic::Purge => PURGE,
            Topic::Remove => REMOVE,
            Topic::RemoveSelected => REMOVE_SELECTED,
            Topic::Search => SEARCH,
            Topic::Select => SELECT,
            Topic::Selections => SELECTIONS,
            Topic::Status => STATUS,
            Topic::Truename => TRUENAME,
            Topic::Undivert => UNDIVERT,
            Topic::Unpack => UNPACK,
            Topic::Verify => VERIFY,
        }
    }
}

/// The line with the program's name and version.
pub fn version_text(alloc: Global) -> Result<String, AllocError>
    ensures { IfOk result (λ text. string_bytes text ≡ version_line) }
{
    String::from_str(alloc, VERSION)
}

pub(crate) fn is_help_flag(word: &str) -> bool
    ensures { result ≡ is_help_flag word.now }
{
    word == "-h" || word == "--help"
}

/// Whether a flag for help stands among words; behind `--` no word is a flag.
pub(crate) fn has_help_flag(words: &[String]) -> bool
    ensures { result ≡ has_help_flag (map string_bytes words.now) }
{
    for word in words {
        if word.as_str() == "--" {
            return false;
        }
        if is_help_flag(word.as_str()) {
            return true;
        }
    }
    false
}

/// What help is asked on: the program where no subcommand is named.
pub(crate) fn topic_in(word: Option<&str>) -> Option<Topic>
    ensures { result ≡ topic_in (option_map (λ s. s.now) word.entry) }
{
    match word {
        Some(word) => Topic::read(word),
        None => Some(Topic::Program),
    }
}

/// The subcommand that words name, the first of which is the program's name; the program where they name none.
pub(crate) fn named_in(words: &[String]) -> Topic
    ensures { result ≡ named_in (map string_bytes words.now) }
{
    let Some(word) = words.get(1) else {
        return Topic::Program;
    };
    match Topic::read(word.as_str()) {
        Some(topic) => topic,
        None => Topic::Program,
    }
}

fn screen_text(alloc: Global, usage: &str, about: &str) -> Result<String, AllocError>
    ensures { IfOk result (λ text. string_bytes text ≡ codes "Usage: coizkerra "
        ++ (usage.now ++ (codes "\n\n" ++ about.now))) }
{
    format!(in alloc; "Usage: coizkerra {usage}\n\n{about}")
}

/// The screen of a topic: how its words are put, what it does, its flags and an example.
pub fn help_text(alloc: Global, topic: Topic) -> Result<String, AllocError>
    ensures { IfOk result (λ text. IsScreen topic (string_bytes text)) }
{
    let usage = topic.usage();
    let about = topic.about();
    screen_text(alloc, usage, about)
}

fn both(alloc: Global, why: &str, screen: &str) -> Result<String, AllocError>
    ensures { IfOk result (λ text. string_bytes text ≡ why.now ++ (codes "\n\n" ++ screen.now)) }
{
    format!(in alloc; "{why}\n\n{screen}")
}

/// Why words ask for nothing, and the screen of a topic.
pub(crate) fn usage_text(alloc: Global, why: &str, topic: Topic) -> Result<String, AllocError>
    ensures { IfOk result (λ text. HasScreen topic (string_bytes text)) }
{
    let screen = help_text(alloc, topic)?;
    both(alloc, why, screen.as_str())
}

// What is told at once.
ghost use Rattle.std.specs.Prelude.{◌≡◌};
ghost use Rattle.dpkg_words.specs.Screens.{help_screen, version_of};

const HELP: &str = "dpkg's words, carried out by coizkerra. Usage: [OPTION ..] ACTION

  -i, --install FILE..    --unpack FILE..    archives, or directories as dpkg-deb -R makes them
  --configure PKG..       --configure -a, --pending
  --triggers-only PKG..   --triggers-only -a     the triggers that are pending, of all packages
  -r, --remove PKG..      -P, --purge PKG..      -r -a, -P -a: what is selected to go
  -s, --status PKG        -L, --listfiles PKG    -S, --search PATH
  -l, --list [PATTERN..]                         the packages, as dpkg's table
  -C, --audit             -V, --verify [PKG..]   --compare-versions A OP B
  --set-selections        --get-selections       what is wanted of packages: PKG WANT
  --clear-selections      all that are not essential are to go
  --print-architecture    --print-foreign-architectures    --assert-FEATURE
  -h, --help              --version

  --root=DIR              the root; --instdir=DIR and --admindir=DIR where they name one
  -B, --auto-deconfigure  installed packages may be deconfigured in favour of one that is unpacked
  --no-act, --dry-run, --simulate
                          the lines are told as if it were done, and nothing is changed
  --no-triggers           triggers stay pending and aren't processed then; not so with --triggers
  --status-fd=N           what is done with each package is told on this descriptor, and its states
  --log=FILE              the same is added to FILE, with the time
  --abort-after=N         behind N that failed no further one is begun; behind 50 if it isn't given
  -E, --skip-same-version, -G, --refuse-downgrade, -O, --selected-only
                          what of FILE.. is passed over
  --force-confold, --force-confdef, --force-confnew, --force-confmiss
  --force-depends         Depends and Pre-Depends are ignored where they can't be kept

Taken, and without effect: other --force-X, which are told on standard error, other --refuse-X,
--no-pager, --no-debsig, --status-logger, -D.
What is printed are coizkerra's own lines: coizkerra help.
";

const VERSION: &str = "Debian 'dpkg' package management program version 1.21.22 (amd64).
These are its words, which coizkerra carries out.
";

pub(crate) fn help_screen() -> &'static str
    ensures { result.now ≡ help_screen }
{
    HELP
}

/// The version of dpkg whose words these are; for a program alone.
pub(crate) fn version_of(robot: bool) -> &'static str
    ensures { result.now ≡ version_of robot }
{
    if robot { "1.21.22" } else { VERSION }
}

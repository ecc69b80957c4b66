// Unpacks on real files, with real scripts. scripts/refused_memory refuses each allocation of the rows that stand here in
// turn: then a want of memory may stand in place of an answer, and ends the row.
ghost use Rattle.std.specs.Prelude.{◌≤◌, ◌<◌, ⊤, false, IsErrOf};
ghost use Rattle.host_core.specs.declared.fault.HostFault.TheVariants.{Declined, Device};

mod device_rows;
mod install_rows;
mod link_rows;
mod package_rows;

use super::{answer, is_refusing, is_want, text_of};
use command_line::{Hosts, RootFault, ScriptStreams, TreeOpening, TreeOwners};
use host_core::HostFault;
use host_files::{FilesHost, Unknown};
use std::alloc::AllocError;
use std::io::{Error, ErrorKind};
use std::process::{Command, Stdio};
use std::test::Fail;
use std::{fs, io};

type RealHost = FilesHost<Unknown>;

// Opens directories by their paths. Of the host that was given back last it keeps how many calls and faults it had.
#[derive(Drop)]
struct RealHosts {
    rt: HostRuntime,
    // each opening counts, so that those that fail do
    opened: u64,
    calls: usize,
    broken: u64,
}

impl RealHosts {
    fn new(rt: HostRuntime) -> RealHosts {
        RealHosts {
            rt,
            opened: 0,
            calls: 0,
            broken: 0,
        }
    }

    // With a full count nothing is opened any more.
    fn open(&mut self, directory: &str) -> Result<RealHost, HostFault>
        ensures faults { self.old.opened ≤ self.new.opened }
        ensures cause { IsErrOf result Device → self.old.opened < self.new.opened }
        ensures undeclined { IsErrOf result Declined → ⊥ }
    {
        if self.opened == u64::MAX {
            return Err(HostFault::NoMemory);
        }
        self.opened += 1;
        match FilesHost::open(self.rt, directory) {
            Ok(host) => Ok(host),
            Err(HostFault::NoMemory) => Err(HostFault::NoMemory),
            Err(HostFault::Device) => Err(HostFault::Device),
            Err(HostFault::Declined) => Err(HostFault::Device),
        }
    }
}

impl Hosts for RealHosts {
    type Opened = RealHost;

    ghost faults = { λ h. h.opened };

    ghost root = { λ _ _ _. ⊤ };

    ghost tree = { λ _ _ _. ⊤ };

    ghost left = { λ _ _. ⊤ };

    ghost seen = { λ _ _. ⊤ };

    ghost unopened = { λ _ _. ⊤ };

    // these tests have their roots to themselves
    ghost locked = { λ _ _ _. ⊥ };

    // no word is one of an archive
    ghost full = { λ _ _ _. ⊥ };

    // no script gives a command
    ghost beside = { λ _. false };

    ghost below = { λ _. 0 };

    fn is_beside(&self) -> bool {
        false
    }

    fn open_root(
        &mut self,
        directory: &str,
        _streams: ScriptStreams,
        _wait: u32,
    ) -> Result<RealHost, RootFault> {
        Ok(self.open(directory)?)
    }

    fn open_beside(&mut self, directory: &str, wait: u32) -> Result<RealHost, RootFault> {
        self.open_root(directory, ScriptStreams::Own, wait)
    }

    fn look_at_root(&mut self, directory: &str) -> Result<RealHost, HostFault> {
        self.open(directory)
    }

    fn open_tree(&mut self, tree: &str, _owners: TreeOwners) -> Result<RealHost, TreeOpening> {
        let mut host = self.open(tree)?;
        host.set_tree();
        Ok(host)
    }

    fn close_root(&mut self, host: RealHost) {
        self.calls = host.calls().len();
        self.broken = host.faults();
    }

    fn close_tree(&mut self, host: RealHost) {
        let _ = host;
    }
}

// Carries out the lines that it is given, in the directory that the first word names. A script notes that it was
// started, in a file beside the root, which is its working directory.
const SHELL: &str = "umask 022
cd \"$1\"
tree() {
  mkdir -p \"$1/DEBIAN\"
  printf 'Package: %s\\nVersion: %s\\n' \"$2\" \"$3\" >\"$1/DEBIAN/control\"
}
script() {
  printf '#!/bin/sh\\necho \"%s $*\" >>../started\\n%s\\n' \"$2\" \"$4\" >\"$1/DEBIAN/$2\"
  chmod \"$3\" \"$1/DEBIAN/$2\"
}
eval \"$0\"";

const NEW_DIRECTORY: &str = "made=$(mktemp -d)
printf %s \"$made\"";

// What lines of shell print.
fn shell(rt: &HostRuntime, lines: &str, words: &[&str]) -> io::Result<String> {
    let mut command = Command::new(rt.alloc(), "/bin/sh")?;
    command.args(["-euc", SHELL, lines])?;
    for word in words {
        command.arg(*word)?;
    }
    command.stderr(Stdio::inherit());
    let output = command.output(rt)?;
    match output.status.success() {
        true => Ok(String::from_str(rt.alloc(), text_of(output.stdout.as_slice()))?),
        false => Err(Error::other("the shell's lines failed")),
    }
}

// Tells how many calls and faults the host counts, which scripts were started, and what stands under the root: its mode,
// its name and what it holds, but for the administration's directories where their mode is 755. An empty status file is
// the same as none. No script was started by a call that the host doesn't list.
const LOOK: &str = ">>started
if [ \"$(wc -l <started)\" -gt \"$2\" ]; then
  echo 'a script was started by a call that is not listed' >&2
  exit 1
fi
echo \"calls $2 faults $3\"
cat started
>started
[ -d root/var/lib/dpkg ] || exit 0
administration='-path root -o -path root/var -o -path root/var/lib -o -path root/var/lib/dpkg'
administration=\"$administration -o -path root/var/lib/dpkg/info -o -path root/var/lib/dpkg/updates\"
find root ! \\( -type d -perm 755 \\( $administration \\) \\) -printf '%m %p\\n' | LC_ALL=C sort -k 2 | while read -r mode path; do
  [ \"${path##*/}\" != status ] || [ -s \"$path\" ] || continue
  echo \"$mode ${path#root/var/lib/dpkg/}\"
  [ ! -f \"$path\" ] || cat \"$path\"
done";

// A command: lines of shell that come before it, the tree that it unpacks, the lines of its calls and what follows them
// in its answer, and what is left.
struct Step {
    before: &'static str,
    tree: &'static str,
    calls: &'static str,
    rest: &'static str,
    left: &'static str,
}

impl Step {
    // Behind a unit that was broken off the incoming scripts may be left too.
    fn is_left(&self, left: &str) -> bool {
        match left.strip_prefix(self.left) {
            Some(more) => more.is_empty() || self.rest.starts_with("broken device\n"),
            None => false,
        }
    }

    fn is_answer(&self, answer: &str) -> bool {
        answer.strip_prefix(self.calls) == Some(self.rest)
    }
}

// The answer to the unpack of a tree under the root.
fn unpack(hosts: &mut RealHosts, directory: &str, tree: &str) -> Result<String, AllocError> {
    let alloc = hosts.rt.alloc();
    let line = format!(in alloc; "dpkg_cli unpack --root {directory}/root {directory}/{tree}")?;
    answer(alloc, hosts, line.as_str())
}

fn look(hosts: &RealHosts, directory: &str) -> io::Result<String> {
    let calls = hosts.calls;
    let broken = hosts.broken;
    let calls = format!(in hosts.rt.alloc(); "{calls}")?;
    let broken = format!(in hosts.rt.alloc(); "{broken}")?;
    shell(
        &hosts.rt,
        LOOK,
        &[directory, calls.as_str(), broken.as_str()],
    )
}

// Carries out a command, and keeps in the text what isn't the row.
fn try_step(rt: &HostRuntime, directory: &str, step: &Step, text: &mut String) -> io::Result<()> {
    shell(rt, step.before, &[directory])?;
    let mut hosts = RealHosts::new(*rt);
    let answer = unpack(&mut hosts, directory, step.tree)?;
    let left = look(&hosts, directory)?;
    if is_want(answer.as_str(), step.calls) {
        return Err(Error::from(ErrorKind::OutOfMemory));
    }
    if step.is_answer(answer.as_str()) && step.is_left(left.as_str()) {
        return Ok(());
    }
    text.push_str(answer.as_str())?;
    text.push_str(left.as_str())?;
    Err(Error::other("not the row"))
}

// Carries out the commands over a new root.
fn try_steps(rt: &HostRuntime, steps: &[Step], text: &mut String) -> io::Result<()> {
    let directory = shell(rt, NEW_DIRECTORY, &["/"])?;
    for step in steps {
        try_step(rt, directory.as_str(), step, text)?;
    }
    fs::remove_dir_all(rt, directory.as_str())
}

// Whether it is for want of memory, where an allocation is refused.
fn is_refused(rt: &HostRuntime, error: &Error) -> bool {
    error.kind() == ErrorKind::OutOfMemory && error.raw_os_error().is_none() && is_refusing(rt)
}

// What isn't the row is how the test fails.
fn check(rt: &HostRuntime, steps: &[Step]) -> Result<(), Fail> {
    let mut text = String::new(rt.alloc());
    match try_steps(rt, steps, &mut text) {
        Ok(()) => Ok(()),
        Err(error) if is_refused(rt, &error) => Ok(()),
        Err(error) => Err(Fail::new(format_args!("{error}:\n{text}"))),
    }
}

const NOT_STARTED: &[Step] = &[Step {
    before: "mkdir root
tree t alpha 1.0
script t preinst 644 'exit 0'",
    tree: "t",
    calls: "call new alpha preinst install: not started\n",
    rest: "state alpha none\nfailed alpha preinst install\n||1\n",
    left: "calls 1 faults 0\n",
}];

#[test]
fn preinst_cannot_be_run(rt: HostRuntime) -> Result<(), Fail> {
    check(&rt, NOT_STARTED)
}

const KILLED: &[Step] = &[
    Step {
        before: "mkdir root
tree t alpha 1.0
script t preinst 755 'kill -9 $$'",
        tree: "t",
        calls: "call new alpha preinst install: killed\n",
        rest: "state alpha none\nfailed alpha preinst install\n||1\n",
        left: "calls 1 faults 0
preinst install
",
    },
    Step {
        before: "script t postrm 755 'exit 0'",
        tree: "t",
        calls: "call new alpha preinst install: killed
call new alpha postrm abort-install: exit 0
",
        rest: "state alpha none\nfailed alpha preinst install\n||1\n",
        left: "calls 2 faults 0
preinst install
postrm abort-install
",
    },
];

#[test]
fn preinst_kills_itself(rt: HostRuntime) -> Result<(), Fail> {
    check(&rt, KILLED)
}

// The preinst ends with another status where it sees something wrong. The root is what its own path is under.
const LOOKING: &[Step] = &[Step {
    before: "mkdir root
tree t alpha 1.0
script t preinst 1775 '. ../looks'
cat >looks <<'END'
root=${0%/var/lib/dpkg/tmp.ci/preinst}
[ \"$(pwd -P)\" = \"$(cd \"$root\" && pwd -P)\" ] || exit 11
[ \"$DPKG_ROOT\" = \"$root\" ] || exit 12
[ \"$DPKG_ADMINDIR\" = \"$root/var/lib/dpkg\" ] || exit 13
[ \"$DPKG_MAINTSCRIPT_PACKAGE\" = alpha ] || exit 14
[ \"$DPKG_MAINTSCRIPT_NAME\" = preinst ] || exit 15
[ \"$DPKG_MAINTSCRIPT_PACKAGE_REFCOUNT\" = 1 ] || exit 20
[ \"$DPKG_MAINTSCRIPT_DEBUG\" = 0 ] || exit 21
[ \"$DPKG_RUNNING_VERSION\" = 1.21.22 ] || exit 22
[ \"$DPKG_FORCE\" = security-mac,downgrade ] || exit 23
[ \"$PATH\" = /usr/sbin:/usr/bin:/sbin:/bin ] || exit 16
[ \"$#$*\" = 1install ] || exit 17
[ \"$(readlink \"/proc/$$/fd/0\")\" = /dev/null ] || exit 18
[ -z \"$(cat)\" ] || exit 19
END",
    tree: "t",
    calls: "call new alpha preinst install: exit 0\n",
    rest: "state alpha 1.0 install ok unpacked\ndone\n||0\n",
    left: "calls 1 faults 0
preinst install
644 info/alpha.list
/.
1775 info/alpha.preinst
#!/bin/sh
echo \"preinst $*\" >>../started
. ../looks
644 status
Package: alpha
Status: install ok unpacked
Version: 1.0
",
}];

#[test]
fn script_sees_its_surroundings(rt: HostRuntime) -> Result<(), Fail> {
    check(&rt, LOOKING)
}

// Packages are installed, upgraded, removed and purged on real files, with real scripts.
mod dpkg_rows;
mod owner_rows;

use super::{NEW_DIRECTORY, RealHosts, is_refused, shell};
use crate::answers::{answer, is_want};
use std::alloc::AllocError;
use std::io::{Error, ErrorKind};
use std::test::Fail;
use std::{fs, io};

// A command: lines of shell that come before it, its words but for the root, and the trees that are its last words, parted
// by spaces, if any are; the lines of its answer up to its last call, and what follows them; lines of shell that look at
// what is left, and what they print.
pub(super) struct Deed {
    pub before: &'static str,
    pub words: &'static str,
    pub tree: &'static str,
    pub calls: &'static str,
    pub rest: &'static str,
    pub look: &'static str,
    pub left: &'static str,
}

// The answer to the words under the root.
fn told(hosts: &mut RealHosts, directory: &str, deed: &Deed) -> Result<String, AllocError> {
    let alloc = hosts.rt.alloc();
    let words = deed.words;
    let mut line = format!(in alloc; "dpkg_cli {words} --root {directory}/root")?;
    for tree in deed.tree.split(' ') {
        if !tree.is_empty() {
            line.push_str(format!(in alloc; " {directory}/{tree}")?.as_str())?;
        }
    }
    answer(alloc, hosts, line.as_str())
}

// Carries out a command, and keeps in the text what isn't the row.
fn try_deed(rt: &HostRuntime, directory: &str, deed: &Deed, text: &mut String) -> io::Result<()> {
    shell(rt, deed.before, &[directory])?;
    let mut hosts = RealHosts::new(*rt);
    let answer = told(&mut hosts, directory, deed)?;
    if is_want(answer.as_str(), deed.calls) {
        return Err(Error::from(ErrorKind::OutOfMemory));
    }
    let left = shell(rt, deed.look, &[directory])?;
    if answer.as_str().strip_prefix(deed.calls) == Some(deed.rest) && left.as_str() == deed.left {
        return Ok(());
    }
    text.push_str(answer.as_str())?;
    text.push_str(left.as_str())?;
    Err(Error::other("not the row"))
}

// Carries out the commands over a new root.
fn try_deeds(rt: &HostRuntime, deeds: &[Deed], text: &mut String) -> io::Result<()> {
    let directory = shell(rt, NEW_DIRECTORY, &["/"])?;
    for deed in deeds {
        try_deed(rt, directory.as_str(), deed, text)?;
    }
    fs::remove_dir_all(rt, directory.as_str())
}

// What isn't the row is how the test fails.
pub(super) fn check(rt: &HostRuntime, deeds: &[Deed]) -> Result<(), Fail> {
    let mut text = String::new(rt.alloc());
    match try_deeds(rt, deeds, &mut text) {
        Ok(()) => Ok(()),
        Err(error) if is_refused(rt, &error) => Ok(()),
        Err(error) => Err(Fail::new(format_args!("{error}:\n{text}"))),
    }
}

// What stands under the root beside the administration: its mode, its name and what it holds.
const LOOK: &str = "cat started
>started
cd root
find . -path ./var -prune -o ! -name . -printf '%m %p\n' | LC_ALL=C sort -k 2 | while read -r mode path; do
  echo \"$mode $path\"
  [ ! -f \"$path\" ] || cat \"$path\"
done
cat var/lib/dpkg/info/zulu.list 2>/dev/null || true";

const LIVED: &[Deed] = &[
    Deed {
        before: "mkdir root
>started
tree one zulu 1
for name in preinst postinst prerm postrm; do script one $name 755 'exit 0'; done
mkdir -p one/etc one/opt/z
echo red >one/etc/z.conf
echo one >one/opt/z/bin
ln -s bin one/opt/z/link
echo /etc/z.conf >one/DEBIAN/conffiles",
        words: "install",
        tree: "one",
        calls: "call new zulu preinst install: exit 0
state zulu 1 install ok unpacked
done
call old zulu postinst configure \"\": exit 0
",
        rest: "state zulu 1 install ok installed
done
||0
",
        look: LOOK,
        left: "preinst install
postinst configure 
755 ./etc
644 ./etc/z.conf
red
755 ./opt
755 ./opt/z
644 ./opt/z/bin
one
777 ./opt/z/link
one
/.
/etc
/etc/z.conf
/opt
/opt/z
/opt/z/bin
/opt/z/link
",
    },
    // An administrator's change stays, and so does the access of the file.
    Deed {
        before: "tree two zulu 2
for name in preinst postinst prerm postrm; do script two $name 755 'exit 0'; done
mkdir -p two/etc two/opt/z
echo blue >two/etc/z.conf
echo two >two/opt/z/bin
echo /etc/z.conf >two/DEBIAN/conffiles
echo mine >root/etc/z.conf
chmod 600 root/etc/z.conf",
        words: "install",
        tree: "two",
        calls: "call old zulu prerm upgrade 2: exit 0
call new zulu preinst upgrade 1 2: exit 0
call old zulu postrm upgrade 2: exit 0
state zulu 2 install ok unpacked
done
call old zulu postinst configure 1: exit 0
",
        rest: "state zulu 2 install ok installed
done
||0
",
        look: LOOK,
        left: "prerm upgrade 2
preinst upgrade 1 2
postrm upgrade 2
postinst configure 1
755 ./etc
600 ./etc/z.conf
mine
644 ./etc/z.conf.dpkg-dist
blue
755 ./opt
755 ./opt/z
644 ./opt/z/bin
two
/.
/etc
/etc/z.conf
/opt
/opt/z
/opt/z/bin
",
    },
    Deed {
        before: "echo mine >root/opt/z/note",
        words: "remove zulu",
        tree: "",
        calls: "call old zulu prerm remove: exit 0
call old zulu postrm remove: exit 0
",
        rest: "state zulu 2 deinstall ok config-files
done
||0
",
        look: LOOK,
        left: "prerm remove
postrm remove
755 ./etc
600 ./etc/z.conf
mine
644 ./etc/z.conf.dpkg-dist
blue
755 ./opt
755 ./opt/z
644 ./opt/z/note
mine
/.
/etc
/etc/z.conf
",
    },
    Deed {
        before: "",
        words: "purge zulu",
        tree: "",
        calls: "call old zulu postrm purge: exit 0\n",
        rest: "state zulu none
done
||0
",
        look: LOOK,
        left: "postrm purge
755 ./opt
755 ./opt/z
644 ./opt/z/note
mine
",
    },
];

#[test]
fn a_package_comes_and_goes(rt: HostRuntime) -> Result<(), Fail> {
    check(&rt, LIVED)
}

const LOOK_AT_KINDS: &str = "cat started
>started
cd root
find . -path ./var -prune -o ! -name . -printf '%y %m %p\n' | LC_ALL=C sort -k 3";

// A pipe at a listed path is put back, replaced and removed like a file.
const PIPES: &[Deed] = &[
    Deed {
        before: "mkdir root
>started
tree one zulu 1
script one postrm 755 '[ $1 != upgrade ]'
mkdir -p one/opt/z
echo one >one/opt/z/bin
echo one >one/opt/z/gone",
        words: "install",
        tree: "one",
        calls: "",
        rest: "state zulu 1 install ok unpacked
done
state zulu 1 install ok installed
done
||0
",
        look: LOOK_AT_KINDS,
        left: "d 755 ./opt
d 755 ./opt/z
f 644 ./opt/z/bin
f 644 ./opt/z/gone
",
    },
    Deed {
        before: "tree two zulu 2
script two postrm 755 '[ $1 != failed-upgrade ] || [ -e ../fine ]'
mkdir -p two/opt/z
echo two >two/opt/z/bin
rm root/opt/z/bin
mkfifo root/opt/z/bin",
        words: "unpack",
        tree: "two",
        calls: "call old zulu postrm upgrade 2: exit 1
call new zulu postrm failed-upgrade 1 2: exit 1
call new zulu postrm abort-upgrade 1 2: exit 0
",
        rest: "state zulu 1 install ok installed
failed zulu postrm upgrade 2
||1
",
        look: LOOK_AT_KINDS,
        left: "postrm upgrade 2
postrm failed-upgrade 1 2
postrm abort-upgrade 1 2
d 755 ./opt
d 755 ./opt/z
p 644 ./opt/z/bin
f 644 ./opt/z/gone
",
    },
    Deed {
        before: ">fine
rm root/opt/z/gone
mkfifo root/opt/z/gone",
        words: "unpack",
        tree: "two",
        calls: "call old zulu postrm upgrade 2: exit 1
call new zulu postrm failed-upgrade 1 2: exit 0
",
        rest: "state zulu 2 install ok unpacked
done
||0
",
        look: LOOK_AT_KINDS,
        left: "postrm upgrade 2
postrm failed-upgrade 1 2
d 755 ./opt
d 755 ./opt/z
f 644 ./opt/z/bin
",
    },
    Deed {
        before: "rm root/opt/z/bin
mkfifo root/opt/z/bin",
        words: "remove zulu",
        tree: "",
        calls: "call old zulu postrm remove: exit 0
",
        rest: "state zulu 2 deinstall ok config-files
done
||0
",
        look: LOOK_AT_KINDS,
        left: "postrm remove
",
    },
];

#[test]
fn a_pipe_is_like_a_file(rt: HostRuntime) -> Result<(), Fail> {
    check(&rt, PIPES)
}

const POSTINST_FAILS: &[Deed] = &[
    Deed {
        before: "mkdir root
>started
tree one zulu 1
script one postinst 755 '[ -e ../fine ]'",
        words: "install",
        tree: "one",
        calls: "state zulu 1 install ok unpacked
done
call old zulu postinst configure \"\": exit 1
",
        rest: "state zulu 1 install ok half-configured
failed zulu postinst configure \"\"
||1
",
        look: LOOK,
        left: "postinst configure 
/.
",
    },
    Deed {
        before: ">fine",
        words: "configure",
        tree: "",
        calls: "call old zulu postinst configure \"\": exit 0\n",
        rest: "state zulu 1 install ok installed
done
||0
",
        look: LOOK,
        left: "postinst configure 
/.
",
    },
    Deed {
        before: "",
        words: "configure zulu",
        tree: "",
        calls: "",
        rest: "refused zulu WrongState
||1
",
        look: LOOK,
        left: "/.
",
    },
];

#[test]
fn configuring_is_tried_again(rt: HostRuntime) -> Result<(), Fail> {
    check(&rt, POSTINST_FAILS)
}

const LOOK_AT_INFO: &str = "cat started
>started
ls root/var/lib/dpkg/info";

// What a name without a record left behind stays where a call of another package fails, and goes before the new preinst's.
const LEFT_BEHIND: &[Deed] = &[
    Deed {
        before: "mkdir root
>started
tree bravo bravo 1
script bravo prerm 755 'exit 1'",
        words: "install",
        tree: "bravo",
        calls: "",
        rest: "state bravo 1 install ok unpacked
done
state bravo 1 install ok installed
done
||0
",
        look: LOOK_AT_INFO,
        left: "bravo.list
bravo.prerm
",
    },
    Deed {
        before: "tree one alpha 2
echo 'Breaks: bravo' >>one/DEBIAN/control
script one preinst 755 'ls var/lib/dpkg/info >>../started'
printf '#!/bin/sh\n' >root/var/lib/dpkg/info/alpha.postrm
printf '/.\n/old\n' >root/var/lib/dpkg/info/alpha.list",
        words: "unpack --auto-deconfigure",
        tree: "one",
        calls: "call old bravo prerm deconfigure in-favour alpha 2: exit 1
",
        rest: "state alpha none
failed bravo prerm deconfigure in-favour alpha 2
||1
",
        look: LOOK_AT_INFO,
        left: "prerm deconfigure in-favour alpha 2
alpha.list
alpha.postrm
bravo.list
bravo.prerm
",
    },
    Deed {
        before: "printf '#!/bin/sh\nexit 0\n' >root/var/lib/dpkg/info/bravo.prerm",
        words: "unpack --auto-deconfigure",
        tree: "one",
        calls: "call old bravo prerm deconfigure in-favour alpha 2: exit 0
call new alpha preinst install: exit 0
",
        rest: "state alpha 2 install ok unpacked
state bravo 1 install ok half-configured
done
||0
",
        look: LOOK_AT_INFO,
        left: "preinst install
bravo.list
bravo.prerm
alpha.list
alpha.preinst
bravo.list
bravo.prerm
",
    },
];

#[test]
fn what_is_left_behind_goes_before_the_new_preinst(rt: HostRuntime) -> Result<(), Fail> {
    check(&rt, LEFT_BEHIND)
}

const NO_FILE: &[Deed] = &[Deed {
    before: "mkdir root root/etc
ln -s other root/etc/z.conf
>started
tree one zulu 1
mkdir -p one/etc
echo red >one/etc/z.conf
echo /etc/z.conf >one/DEBIAN/conffiles",
    words: "install --force-confnew",
    tree: "one",
    calls: "state zulu 1 install ok unpacked
done
",
    rest: "refused zulu ConffileKind /etc/z.conf
||1
",
    look: LOOK,
    left: "755 ./etc
777 ./etc/z.conf
644 ./etc/z.conf.dpkg-new
red
/.
/etc
/etc/z.conf
",
}];

#[test]
fn a_link_is_no_conffile(rt: HostRuntime) -> Result<(), Fail> {
    check(&rt, NO_FILE)
}

// The target of another's diversion, of its own and of a local one; and a path that is diverted there.
const TARGETS: &[Deed] = &[
    Deed {
        before: "mkdir -p root/var/lib/dpkg
>started
tree one zulu 1
for name in preinst postrm; do script one $name 755 'exit 0'; done
mkdir -p one/opt
echo one >one/opt/x.real
tree two zulu 1
mkdir -p two/opt
echo two >two/opt/x
printf '/opt/x\\n/opt/x.real\\nvictor\\n' >root/var/lib/dpkg/diversions",
        words: "unpack",
        tree: "one",
        calls: "call new zulu preinst install: exit 0
call new zulu postrm abort-install: exit 0
",
        rest: "state zulu none
failed zulu DiversionTarget /opt/x.real victor
||1
",
        look: LOOK,
        left: "preinst install
postrm abort-install
",
    },
    Deed {
        before: "printf '/opt/x\\n/opt/x.real\\nzulu\\n' >root/var/lib/dpkg/diversions",
        words: "unpack",
        tree: "one",
        calls: "call new zulu preinst install: exit 0
call new zulu postrm abort-install: exit 0
",
        rest: "state zulu none
failed zulu DiversionTarget /opt/x.real zulu
||1
",
        look: LOOK,
        left: "preinst install
postrm abort-install
",
    },
    Deed {
        before: "printf '/opt/x\\n/opt/x.real\\n:\\n' >root/var/lib/dpkg/diversions",
        words: "unpack",
        tree: "one",
        calls: "call new zulu preinst install: exit 0
call new zulu postrm abort-install: exit 0
",
        rest: "state zulu none
failed zulu DiversionTarget /opt/x.real
||1
",
        look: LOOK,
        left: "preinst install
postrm abort-install
",
    },
    Deed {
        before: "",
        words: "unpack",
        tree: "two",
        calls: "",
        rest: "state zulu 1 install ok unpacked
done
||0
",
        look: LOOK,
        left: "755 ./opt
644 ./opt/x.real
two
/.
/opt
/opt/x
",
    },
];

#[test]
fn a_target_of_a_diversion_is_not_shipped(rt: HostRuntime) -> Result<(), Fail> {
    check(&rt, TARGETS)
}

// A conffile waits below a directory that nothing else is in.
const UNSETTLED_TREE: &str = "mkdir -p root
>started
tree one zulu 1
mkdir -p one/etc/d
echo red >one/etc/d/x.conf
echo /etc/d/x.conf >one/DEBIAN/conffiles";

const UNPACKED_UNSETTLED: Deed = Deed {
    before: UNSETTLED_TREE,
    words: "unpack",
    tree: "one",
    calls: "",
    rest: "state zulu 1 install ok unpacked
done
||0
",
    look: LOOK,
    left: "755 ./etc
755 ./etc/d
644 ./etc/d/x.conf.dpkg-new
red
/.
/etc
/etc/d
/etc/d/x.conf
",
};

const UNSETTLED: &[Deed] = &[
    UNPACKED_UNSETTLED,
    Deed {
        before: "",
        words: "purge zulu",
        tree: "",
        calls: "",
        rest: "state zulu none
done
||0
",
        look: LOOK,
        left: "",
    },
    Deed {
        before: "script one postrm 755 '[ $1 != purge ] || rm etc/d/x.conf'",
        ..UNPACKED_UNSETTLED
    },
    // An administrator writes the file before the package is configured: postrm takes it away, and the list has its directory.
    Deed {
        before: "echo mine >root/etc/d/x.conf",
        words: "remove zulu",
        tree: "",
        calls: "call old zulu postrm remove: exit 0\n",
        rest: "state zulu 1 deinstall ok config-files
done
||0
",
        look: LOOK,
        left: "postrm remove
755 ./etc
755 ./etc/d
644 ./etc/d/x.conf
mine
/.
/etc
/etc/d
",
    },
    Deed {
        before: "",
        words: "purge zulu",
        tree: "",
        calls: "call old zulu postrm purge: exit 0\n",
        rest: "state zulu none
done
||0
",
        look: LOOK,
        left: "postrm purge
",
    },
];

#[test]
fn no_directory_of_a_conffile_is_left(rt: HostRuntime) -> Result<(), Fail> {
    check(&rt, UNSETTLED)
}

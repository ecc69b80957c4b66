// A root that dpkg used before: a package of which several may be installed, with a conffile that waits and of which no digest is
// recorded; an obsolete conffile of another one; a trigger that waits; and an access that an administrator set.
use super::{Deed, check};
use std::test::Fail;

const LOOK: &str = "cd root
find etc usr -type f -printf '%m %p\\n' | LC_ALL=C sort
cat etc/a.conf etc/d.conf
ls var/lib/dpkg/info
cat var/lib/dpkg/status";

const LOOK_AT_INFO: &str = "ls root/var/lib/dpkg/info";

const USED: &[Deed] = &[
    Deed {
        before: "mkdir -p root/var/lib/dpkg/info root/etc
>started
cd root/var/lib/dpkg
printf 'Package: alpha
Status: install ok unpacked
Architecture: amd64
Multi-Arch: same
Version: 1
Conffiles:
 /etc/a.conf newconffile

Package: delta
Status: install ok installed
Architecture: amd64
Version: 1
Conffiles:
 /etc/d.conf 814fa5ca98406a903e22b43d9b610105 obsolete

Package: victor
Status: install ok triggers-pending
Architecture: amd64
Version: 1
Triggers-Pending: menu
' >status
echo 1 >info/format
printf '/.\\n/etc\\n/etc/a.conf\\n' >info/alpha:amd64.list
printf '/.\\n/etc\\n/etc/d.conf\\n' >info/delta.list
printf '/.\\n' >info/victor.list
printf '#0 #0 700 /usr/bin/a\\n' >statoverride
cd ../../../..
echo new >root/etc/a.conf.dpkg-new
echo old >root/etc/d.conf
tree one alpha 2
printf 'Architecture: amd64\\nMulti-Arch: same\\nDepends: delta:amd64\\n' >>one/DEBIAN/control
mkdir -p one/etc one/usr/bin
echo two | tee one/etc/a.conf one/etc/d.conf >one/usr/bin/a
printf '/etc/a.conf\\n/etc/d.conf\\n' >one/DEBIAN/conffiles",
        words: "install --no-triggers",
        tree: "one",
        calls: "",
        rest: "state alpha 2 install ok unpacked
state delta 1 install ok installed
done
state alpha 2 install ok installed
done
||0
",
        look: LOOK,
        left: "644 etc/a.conf
644 etc/d.conf
700 usr/bin/a
two
two
alpha.list
delta.list
victor.list
Package: alpha
Status: install ok installed
Architecture: amd64
Multi-Arch: same
Version: 2
Depends: delta:amd64
Conffiles:
 /etc/a.conf c193497a1a06b2c72230e6146ff47080
 /etc/d.conf c193497a1a06b2c72230e6146ff47080

Package: delta
Status: install ok installed
Architecture: amd64
Version: 1

Package: victor
Status: install ok triggers-pending
Architecture: amd64
Version: 1
Triggers-Pending: menu
",
    },
    // A tree of another architecture.
    Deed {
        before: "tree two bravo 1
echo 'Architecture: arm64' >>two/DEBIAN/control",
        words: "unpack --no-triggers",
        tree: "two",
        calls: "",
        rest: "refused bravo Architecture arm64
||1
",
        look: LOOK_AT_INFO,
        left: "alpha.list
delta.list
victor.list
",
    },
    // What a conversion left that was stopped behind the going of the format.
    Deed {
        before: "ln root/var/lib/dpkg/info/alpha.list root/var/lib/dpkg/info/alpha:amd64.list",
        words: "configure --no-triggers",
        tree: "",
        calls: "",
        rest: "||0
",
        look: LOOK_AT_INFO,
        left: "alpha.list
delta.list
victor.list
",
    },
    // Another file there is damage, before anything is done.
    Deed {
        before: "echo /opt >root/var/lib/dpkg/info/alpha:amd64.list",
        words: "configure --no-triggers",
        tree: "",
        calls: "",
        rest: "|damaged /var/lib/dpkg/info/alpha:amd64.list 0
expected: a file of a package whose name has no architecture
|2
",
        look: LOOK_AT_INFO,
        left: "alpha.list
alpha:amd64.list
delta.list
victor.list
",
    },
];

#[test]
fn what_dpkg_used_goes_on(rt: HostRuntime) -> Result<(), Fail> {
    check(&rt, USED)
}

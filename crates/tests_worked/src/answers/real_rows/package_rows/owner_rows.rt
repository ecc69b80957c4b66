// What is installed of a tree that belongs to a user, by the superuser: what the package ships is that user's, and what
// root will run or keep of its control files is root's. scripts/owners runs this too.
use super::{Deed, check};
use crate::answers::real_rows::shell;
use std::test::Fail;

// The preinst looks at what is laid out while it runs.
const OF_A_USER: &[Deed] = &[Deed {
    before: "mkdir root
>started
tree one zulu 1
script one preinst 755 'stat -c \"%u %g %a %n\" var/lib/dpkg/tmp.ci var/lib/dpkg/tmp.ci/* >../seen'
script one postrm 700 'exit 0'
mkdir -p one/etc one/opt/z
echo red >one/etc/z.conf
echo one >one/opt/z/bin
echo /etc/z.conf >one/DEBIAN/conffiles
echo sums >one/DEBIAN/md5sums
chmod 640 one/DEBIAN/md5sums
chown -R 1000:1001 one
chmod 4755 one/DEBIAN/preinst
chmod 2711 one/opt/z",
    words: "install",
    tree: "one",
    calls: "call new zulu preinst install: exit 0
",
    rest: "state zulu 1 install ok unpacked
done
state zulu 1 install ok installed
done
||0
",
    look: "cat seen
cd root
stat -c '%u %g %a %n' etc etc/z.conf opt opt/z opt/z/bin var/lib/dpkg/info/*",
    left: "0 0 755 var/lib/dpkg/tmp.ci
0 0 640 var/lib/dpkg/tmp.ci/md5sums
0 0 700 var/lib/dpkg/tmp.ci/postrm
0 0 4755 var/lib/dpkg/tmp.ci/preinst
1000 1001 755 etc
1000 1001 644 etc/z.conf
1000 1001 755 opt
1000 1001 2711 opt/z
1000 1001 644 opt/z/bin
0 0 644 var/lib/dpkg/info/zulu.list
0 0 640 var/lib/dpkg/info/zulu.md5sums
0 0 700 var/lib/dpkg/info/zulu.postrm
0 0 4755 var/lib/dpkg/info/zulu.preinst
",
}];

// Nobody else can give a file away.
#[test]
fn a_tree_of_a_user(rt: HostRuntime) -> Result<(), Fail> {
    match shell(&rt, "id -u", &["/"])?.as_str() {
        "0\n" => check(&rt, OF_A_USER),
        _ => Ok(()),
    }
}

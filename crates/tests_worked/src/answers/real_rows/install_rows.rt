// Which packages an install configures, on real files, with real scripts.
use super::package_rows::{Deed, check};
use std::test::Fail;

// Which scripts were started, and the files beside the administration.
const LOOK: &str = "cat started
>started
cd root
find . -path ./var -prune -o -type f -print | LC_ALL=C sort | while read -r path; do
  echo \"$path\"
  cat \"$path\"
done";

// The second package takes over a conffile of one that is half-configured, which isn't configured then.
const HALF_CONFIGURED_BEFORE: &[Deed] = &[
    Deed {
        before: "mkdir root
>started
tree first bb 1
script first postinst 755 'exit 1'
mkdir -p first/etc first/opt
echo red >first/etc/b.conf
echo b >first/opt/b
echo /etc/b.conf >first/DEBIAN/conffiles",
        words: "install",
        tree: "first",
        calls: "state bb 1 install ok unpacked
done
call old bb postinst configure \"\": exit 1
",
        rest: "state bb 1 install ok half-configured
failed bb postinst configure \"\"
||1
",
        look: LOOK,
        left: "postinst configure 
./etc/b.conf
red
./opt/b
b
",
    },
    Deed {
        before: "tree second aa 1
echo 'Replaces: bb' >>second/DEBIAN/control
mkdir -p second/etc
echo red >second/etc/b.conf
echo /etc/b.conf >second/DEBIAN/conffiles",
        words: "install",
        tree: "second",
        calls: "",
        rest: "state aa 1 install ok unpacked
state bb 1 install ok half-configured
done
state aa 1 install ok installed
done
||0
",
        look: LOOK,
        left: "./etc/b.conf
red
./opt/b
b
",
    },
];

#[test]
fn what_was_half_configured_before_stays_so(rt: HostRuntime) -> Result<(), Fail> {
    check(&rt, HALF_CONFIGURED_BEFORE)
}

const REPLACED: &[Deed] = &[Deed {
    before: "mkdir root
>started
tree first aa 1
script first postinst 755 'exit 0'
mkdir -p first/opt
echo first >first/opt/x
tree second bb 1
echo 'Replaces: aa' >>second/DEBIAN/control
mkdir -p second/opt
echo second >second/opt/x",
    words: "install",
    tree: "first second",
    calls: "",
    rest: "state aa 1 install ok unpacked
done
state aa none
state bb 1 install ok unpacked
done
state bb 1 install ok installed
done
||0
",
    look: LOOK,
    left: "./opt/x
second
",
}];

#[test]
fn a_candidate_that_disappears_is_not_configured(rt: HostRuntime) -> Result<(), Fail> {
    check(&rt, REPLACED)
}

const CONFLICTING: &[Deed] = &[Deed {
    before: "mkdir root
>started
tree first aa 1
script first postinst 755 'exit 0'
mkdir -p first/opt
echo first >first/opt/x
tree second bb 1
printf 'Conflicts: aa\\nReplaces: aa\\n' >>second/DEBIAN/control
mkdir -p second/opt
echo second >second/opt/y",
    words: "install",
    tree: "first second",
    calls: "",
    rest: "state aa 1 install ok unpacked
done
state aa none
state bb 1 install ok unpacked
done
state bb 1 install ok installed
done
||0
",
    look: LOOK,
    left: "./opt/y
second
",
}];

#[test]
fn a_candidate_that_is_removed_is_not_configured(rt: HostRuntime) -> Result<(), Fail> {
    check(&rt, CONFLICTING)
}

// Removed in favour of the second, whose conffile is at the same path: as the administrator left it, or edited.
const FIRST: Deed = Deed {
    before: "mkdir root
>started
tree first bb 1
mkdir -p first/etc first/opt
echo one >first/etc/z.conf
echo b >first/opt/b
echo /etc/z.conf >first/DEBIAN/conffiles",
    words: "install",
    tree: "first",
    calls: "",
    rest: "state bb 1 install ok unpacked
done
state bb 1 install ok installed
done
||0
",
    look: LOOK,
    left: "./etc/z.conf
one
./opt/b
b
",
};

const SECOND_INSTALLED: &str = "state aa 1 install ok unpacked
state bb none
done
state aa 1 install ok installed
done
||0
";

const RENAMED: &[Deed] = &[
    FIRST,
    Deed {
        before: "tree second aa 1
printf 'Conflicts: bb\\nReplaces: bb\\n' >>second/DEBIAN/control
mkdir -p second/etc
echo two >second/etc/z.conf
echo /etc/z.conf >second/DEBIAN/conffiles",
        words: "install",
        tree: "second",
        calls: "",
        rest: SECOND_INSTALLED,
        look: LOOK,
        left: "./etc/z.conf
two
",
    },
];

const RENAMED_AND_EDITED: &[Deed] = &[
    FIRST,
    Deed {
        before: "echo edited >root/etc/z.conf
tree second aa 1
printf 'Conflicts: bb\\nReplaces: bb\\n' >>second/DEBIAN/control
mkdir -p second/etc
echo two >second/etc/z.conf
echo /etc/z.conf >second/DEBIAN/conffiles",
        words: "install",
        tree: "second",
        calls: "",
        rest: SECOND_INSTALLED,
        look: LOOK,
        left: "./etc/z.conf
edited
./etc/z.conf.dpkg-dist
two
",
    },
];

// Only conffiles of the first package are left, and the second has no relation to it.
const AFTER_A_REMOVAL: &[Deed] = &[
    FIRST,
    Deed {
        before: "",
        words: "remove bb",
        tree: "",
        calls: "",
        rest: "state bb 1 deinstall ok config-files
done
||0
",
        look: LOOK,
        left: "./etc/z.conf
one
",
    },
    Deed {
        before: "tree second aa 1
mkdir -p second/etc
echo two >second/etc/z.conf
echo /etc/z.conf >second/DEBIAN/conffiles",
        words: "install",
        tree: "second",
        calls: "",
        rest: "state aa 1 install ok unpacked
state bb 1 deinstall ok config-files
done
state aa 1 install ok installed
done
||0
",
        look: LOOK,
        left: "./etc/z.conf
two
",
    },
];

#[test]
fn a_conffile_of_a_renamed_package_is_updated(rt: HostRuntime) -> Result<(), Fail> {
    check(&rt, RENAMED)?;
    check(&rt, RENAMED_AND_EDITED)?;
    check(&rt, AFTER_A_REMOVAL)
}

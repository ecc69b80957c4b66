// The rounds in which an install takes its trees (Policy 7.2): the answers, and what is left.
use super::{TreeFile, answers, expect};
use std::test::Fail;

// The lines of words, and the row: their answers.
type RoundRow = (&'static [&'static str], &'static str);

const CONTROL: &str = "/DEBIAN/control";

const TREES: &[TreeFile] = &[
    ("one", CONTROL, "Package: one\nVersion: 1\n"),
    (
        "two",
        CONTROL,
        "Package: two\nVersion: 1\nPre-Depends: one\n",
    ),
    (
        "three",
        CONTROL,
        "Package: three\nVersion: 1\nPre-Depends: two\n",
    ),
    (
        "here",
        CONTROL,
        "Package: here\nVersion: 1\nPre-Depends: there\n",
    ),
    (
        "there",
        CONTROL,
        "Package: there\nVersion: 1\nPre-Depends: here\n",
    ),
];

// What the first needs before its unpack is installed before.
const TWO: RoundRow = (
    &["dpkg_cli install two one", "dpkg_cli list"],
    "state one 1 install ok unpacked
done
state one 1 install ok installed
done
state two 1 install ok unpacked
done
state two 1 install ok installed
done
||0
one 1 installed
two 1 installed
||0
",
);

const AS_GIVEN: RoundRow = (
    &["dpkg_cli install --as-given two one", "dpkg_cli list"],
    "refused two PreDepends one
state one 1 install ok unpacked
done
state one 1 install ok installed
done
||1
one 1 installed
||0
",
);

const CHAIN: RoundRow = (
    &["dpkg_cli install three two one", "dpkg_cli list"],
    "state one 1 install ok unpacked
done
state one 1 install ok installed
done
state two 1 install ok unpacked
done
state two 1 install ok installed
done
state three 1 install ok unpacked
done
state three 1 install ok installed
done
||0
one 1 installed
three 1 installed
two 1 installed
||0
",
);

// Neither can be unpacked before the other.
const CIRCLE: RoundRow = (
    &["dpkg_cli install here there"],
    "refused here PreDepends there
refused there PreDepends here
||1
",
);

const ALONE: RoundRow = (
    &["dpkg_cli install two"],
    "refused two PreDepends one
||1
",
);

const TWICE: RoundRow = (
    &["dpkg_cli install one one"],
    "state one 1 install ok unpacked
done
refused one Twice
state one 1 install ok installed
done
||1
",
);

const ROWS: &[RoundRow] = &[TWO, AS_GIVEN, CHAIN, CIRCLE, ALONE, TWICE];

#[test]
fn rounds_of_an_install(rt: HostRuntime) -> Result<(), Fail> {
    for (lines, row) in ROWS {
        expect(&rt, answers(rt.alloc(), TREES, &[], &[], lines), row)?;
    }
    Ok(())
}

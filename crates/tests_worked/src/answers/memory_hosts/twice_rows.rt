// A tree that is given twice is unpacked once, and refused the second time.
use super::{TreeFile, answers};
use crate::answers::expect;
use std::test::Fail;

const TREES: &[TreeFile] = &[
    ("a", "/DEBIAN/control", "Package: alpha\nVersion: 1.0\n"),
    ("a/", "/DEBIAN/control", "Package: alpha\nVersion: 1.0\n"),
    ("b", "/DEBIAN/control", "Package: bravo\nVersion: 1.0\n"),
];

const ROWS: &[(&str, &str)] = &[
    (
        "dpkg_cli unpack a a",
        "state alpha 1.0 install ok unpacked\ndone\nrefused a Twice\n||1\n",
    ),
    (
        "dpkg_cli unpack a b a/",
        "state alpha 1.0 install ok unpacked\ndone\nstate bravo 1.0 install ok unpacked\ndone\n\
refused a/ Twice\n||1\n",
    ),
    (
        "dpkg_cli unpack none none a",
        "refused none NoControl\nrefused none Twice\nstate alpha 1.0 install ok unpacked\ndone\n||1\n",
    ),
    (
        "dpkg_cli install a a",
        "state alpha 1.0 install ok unpacked\ndone\nrefused a Twice\n\
state alpha 1.0 install ok installed\ndone\n||1\n",
    ),
];

#[test]
fn second_of_two_equal_trees_is_refused(rt: HostRuntime) -> Result<(), Fail> {
    for (line, row) in ROWS {
        expect(&rt, answers(rt.alloc(), TREES, &[], &[], &[*line]), row)?;
    }
    Ok(())
}

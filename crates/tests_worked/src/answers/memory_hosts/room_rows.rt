// An archive for which there is no room is refused at its turn, and what is named beside it is done.
use super::{TreeFile, answers};
use crate::answers::expect;
use std::test::Fail;

const TREES: &[TreeFile] = &[
    ("a", "/DEBIAN/control", "Package: alpha\nVersion: 1.0\n"),
    ("b", "/DEBIAN/control", "Package: bravo\nVersion: 1.0\n"),
];

const ROWS: &[(&str, &str)] = &[
    (
        "dpkg_cli install full.deb a",
        "refused full.deb Declined /var/lib/dpkg/tmp.trees\nstate alpha 1.0 install ok unpacked\ndone\n\
state alpha 1.0 install ok installed\ndone\n||1\n",
    ),
    (
        "dpkg_cli unpack a full.deb b full.deb",
        "state alpha 1.0 install ok unpacked\ndone\nrefused full.deb Declined /var/lib/dpkg/tmp.trees\n\
state bravo 1.0 install ok unpacked\ndone\nrefused full.deb Twice\n||1\n",
    ),
    (
        "dpkg_cli install --dry-run full.deb",
        "dry run\nrefused full.deb Declined /var/lib/dpkg/tmp.trees\n||1\n",
    ),
    (
        "dpkg_cli verify --tree full.deb",
        "refused full.deb Declined /var/lib/dpkg/tmp.trees\n||1\n",
    ),
];

#[test]
fn archive_without_room_is_refused(rt: HostRuntime) -> Result<(), Fail> {
    for (line, row) in ROWS {
        expect(&rt, answers(rt.alloc(), TREES, &[], &[], &[*line]), row)?;
    }
    Ok(())
}

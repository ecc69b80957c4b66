// Lines of the journal, as dpkg-trigger writes them and dpkg reads them, and some by which dpkg fails.
use crate::root::{Thing, root_of};
use std::alloc::{AllocError, Global};
use std::test::Fail;
use trigger_journal::{Request, read_requests};

const ROOT: &[Thing] = &[(
    "/var/lib/dpkg/triggers/Unincorp",
    &[
        "update-all -",
        "/opt/x/y asking:amd64 -",
        "own coizkerra",
        "both - coizkerra",
        "alone",
        "",
        " behind\t blanks",
    ],
)];

// The name of each, and whether we stand on the line, and others.
const REQUESTS: &[(&str, bool, bool)] = &[
    ("update-all", false, true),
    ("/opt/x/y", false, true),
    ("own", true, false),
    ("both", true, true),
    ("behind", false, true),
];

fn requests_of(alloc: Global, things: &[Thing]) -> Result<Vec<Request>, AllocError> {
    let mut host = root_of(alloc, things)?;
    match read_requests(alloc, &mut host) {
        Ok(requests) => Ok(requests),
        Err(_) => Err(AllocError),
    }
}

#[test]
fn requests_are_read(rt: HostRuntime) -> Result<(), Fail> {
    let alloc = rt.alloc();
    let requests = requests_of(alloc, ROOT)?;
    assert_eq!(&rt; requests.len(), REQUESTS.len());
    for (request, (name, ours, others)) in requests.iter().zip(REQUESTS) {
        assert!(&rt; request.name.as_slice() == name.as_bytes());
        assert_eq!(&rt; request.ours, *ours);
        assert_eq!(&rt; request.others, *others);
    }
    assert!(&rt; requests_of(alloc, &[])?.is_empty());
    Ok(())
}

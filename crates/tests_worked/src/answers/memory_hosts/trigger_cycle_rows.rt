// Triggers that scripts ask for while triggers are processed: they are processed too, and packages whose triggers lead to themselves are
// given up.
use super::{expect, file, hosts, path_of};
use host_core::Outcome;
use host_memory::{Ending, Entry, Planned};
use std::alloc::{AllocError, Global};
use std::test::Fail;

// The lines that each call writes into the journal, the lines of words, and the row: their answers and what is read.
type CycleRow = (
    &'static [&'static str],
    &'static [&'static str],
    &'static str,
);

// Each is interested in its own name.
const INSTALLED: &str =
    "write /var/lib/dpkg/status Package: pang\nStatus: install ok installed\nVersion: 1\n\nPackage: ping\nStatus: install ok installed\nVersion: 1\n\nPackage: pong\nStatus: install ok installed\nVersion: 1\n";

const LISTS: &[&str] = &[
    INSTALLED,
    "write /var/lib/dpkg/info/pang.list /.\n",
    "write /var/lib/dpkg/info/pang.triggers interest-noawait pang\n",
    "write /var/lib/dpkg/info/pang.postinst #!/bin/sh\n",
    "write /var/lib/dpkg/info/ping.list /.\n",
    "write /var/lib/dpkg/info/ping.triggers interest-noawait ping\n",
    "write /var/lib/dpkg/info/ping.postinst #!/bin/sh\n",
    "write /var/lib/dpkg/info/pong.list /.\n",
    "write /var/lib/dpkg/info/pong.triggers interest-noawait pong\n",
    "write /var/lib/dpkg/info/pong.postinst #!/bin/sh\n",
];

// One asks for another's trigger: both are called in one command.
const ANOTHER: CycleRow = (
    &["pong -\n", ""],
    &[
        "write /var/lib/dpkg/triggers/Unincorp ping -\n",
        "dpkg_cli configure --triggers-only",
        "dpkg_cli list",
    ],
    "state ping 1 install ok triggers-pending
done
call old ping postinst triggered ping: exit 0
state ping 1 install ok installed
done
state pong 1 install ok triggers-pending
done
call old pong postinst triggered pong: exit 0
state pong 1 install ok installed
done
||0
pang 1 installed
ping 1 installed
pong 1 installed
||0
",
);

// One that asks for its own is given up, until it is configured.
const ITSELF: CycleRow = (
    &["ping -\n", ""],
    &[
        "write /var/lib/dpkg/triggers/Unincorp ping -\n",
        "dpkg_cli configure --triggers-only",
        "dpkg_cli list",
        "dpkg_cli configure ping",
        "read /var/lib/dpkg/triggers/Unincorp",
    ],
    "state ping 1 install ok triggers-pending
done
call old ping postinst triggered ping: exit 0
state ping 1 install ok installed
done
state ping 1 install ok triggers-pending
done
state ping 1 install ok half-configured
failed ping TriggerCycle ping
||1
pang 1 installed
ping 1 half-configured
pong 1 installed
||0
call old ping postinst configure 1: exit 0
state ping 1 install ok installed
done
||0

",
);

// The first of a cycle is given up, once what it asked for has asked for it.
const CYCLE_OF_TWO: CycleRow = (
    &["pong -\n", "ping -\n"],
    &[
        "write /var/lib/dpkg/triggers/Unincorp ping -\n",
        "dpkg_cli configure --triggers-only",
        "dpkg_cli list",
    ],
    "state ping 1 install ok triggers-pending
done
call old ping postinst triggered ping: exit 0
state ping 1 install ok installed
done
state pong 1 install ok triggers-pending
done
call old pong postinst triggered pong: exit 0
state pong 1 install ok installed
done
state ping 1 install ok triggers-pending
done
state ping 1 install ok half-configured
failed ping TriggerCycle ping
||1
pang 1 installed
ping 1 half-configured
pong 1 installed
||0
",
);

const CYCLE_OF_THREE: CycleRow = (
    &["pong -\n", "pang -\n", "ping -\n"],
    &[
        "write /var/lib/dpkg/triggers/Unincorp ping -\n",
        "dpkg_cli configure --triggers-only",
        "dpkg_cli list",
    ],
    "state ping 1 install ok triggers-pending
done
call old ping postinst triggered ping: exit 0
state ping 1 install ok installed
done
state pong 1 install ok triggers-pending
done
call old pong postinst triggered pong: exit 0
state pong 1 install ok installed
done
state pang 1 install ok triggers-pending
done
call old pang postinst triggered pang: exit 0
state pang 1 install ok installed
done
state ping 1 install ok triggers-pending
done
state ping 1 install ok half-configured
failed ping TriggerCycle ping
||1
pang 1 installed
ping 1 half-configured
pong 1 installed
||0
",
);

// Two ask for one that has had its turn: it has one more, for both.
const TWICE: CycleRow = (
    &["", "pang -\n", "pang -\n", ""],
    &[
        "write /var/lib/dpkg/triggers/Unincorp pang -\nping -\npong -\n",
        "dpkg_cli configure --triggers-only",
    ],
    "state pang 1 install ok triggers-pending
done
state ping 1 install ok triggers-pending
done
state pong 1 install ok triggers-pending
done
call old pang postinst triggered pang: exit 0
state pang 1 install ok installed
done
call old ping postinst triggered ping: exit 0
state ping 1 install ok installed
done
state pang 1 install ok triggers-pending
done
call old pong postinst triggered pong: exit 0
state pong 1 install ok installed
done
state pang 1 install ok triggers-pending
done
call old pang postinst triggered pang: exit 0
state pang 1 install ok installed
done
||0
",
);

const ROWS: &[CycleRow] = &[ANOTHER, ITSELF, CYCLE_OF_TWO, CYCLE_OF_THREE, TWICE];

// A call that asks for triggers as dpkg-trigger does, and succeeds.
fn asking(alloc: Global, lines: &str) -> Result<Planned, AllocError> {
    let mut change = Vec::new(alloc);
    if !lines.is_empty() {
        let path = path_of(alloc, "/var/lib/dpkg/triggers/Unincorp")?;
        let node = Some(file(alloc, lines)?);
        change.push(Entry { path, node })?;
    }
    let ending = Ending::Ended(Outcome::Exit(0));
    Ok(Planned { ending, change })
}

// The answers to lines of words over a root whose calls ask for these.
fn asked(alloc: Global, calls: &[&str], lines: &[&str]) -> Result<String, AllocError> {
    let mut text = String::new(alloc);
    let mut hosts = hosts(alloc, &[], &[])?;
    if let Some(host) = &mut hosts.root {
        for call in calls {
            host.plan(asking(alloc, call)?)?;
        }
    }
    hosts.steps(LISTS, &mut text)?;
    hosts.steps(lines, &mut text)?;
    Ok(text)
}

#[test]
fn triggers_that_scripts_ask_for_are_processed(rt: HostRuntime) -> Result<(), Fail> {
    for (calls, lines, row) in ROWS {
        expect(&rt, asked(rt.alloc(), calls, lines), row)?;
    }
    Ok(())
}

// What a host remembers is forgotten once it may be otherwise: a script ran, a directory was made or removed, a file got a second
// name, a fault was told.
use super::{NEW_DIRECTORY, RealHost, fault_text, path_of, shell};
use host_core::{Call, Host, HostFault, Keep, Outcome, Places, RootPath, Script, Side};
use host_files::FilesHost;
use std::alloc::{AllocError, Global};
use std::test::Fail;
use std::{fs, io};
use texts::{Text, Texts};

// One script puts a link to a directory outside in the place of one inside, one removes what was just written, and one makes a
// directory.
const ROOT: &str = "mkdir outside root/taken root/other
echo kept >outside/file
echo one >root/taken/file
echo two >root/other/file
printf '#!/bin/sh\\nmv taken moved\\nln -s ../outside taken\\n' >root/replace
printf '#!/bin/sh\\nrm written.dpkg-inst\\n' >root/remove
printf '#!/bin/sh\\nmkdir grown\\necho three >grown/file\\n' >root/grow
chmod 755 root/replace root/remove root/grow";

fn outcome_text(alloc: Global, outcome: Outcome) -> Result<String, AllocError> {
    match outcome {
        Outcome::Exit(code) => format!(in alloc; "exit {code}"),
        Outcome::Killed => String::from_str(alloc, "killed"),
        Outcome::NotStarted => String::from_str(alloc, "not started"),
    }
}

fn run(alloc: Global, host: &mut RealHost, path: &RootPath) -> Result<Outcome, HostFault> {
    let call = Call {
        side: Side::New,
        package: Text::from_str(alloc, "alpha")?,
        script: Script::Preinst,
        at: path.copy()?,
        args: Texts::new(alloc),
    };
    let places = Places {
        items: Vec::new(alloc),
    };
    host.run(&call, &Keep { places: &places })
}

type Asked = (&'static str, &'static str, &'static str);

fn told(alloc: Global, host: &mut RealHost, asked: Asked) -> Result<String, HostFault> {
    let (word, path, _) = asked;
    match word {
        "run" => Ok(outcome_text(alloc, run(alloc, host, &path_of(alloc, path)?)?)?),
        _ => Ok(String::from_str(alloc, super::told(alloc, host, asked)?)?),
    }
}

// Calls, and what the host answers. Lines of shell change the root beside it.
const CALLS: &[(Asked, &str)] = &[
    (("kind", "/taken/file", ""), "file"),
    (("run", "/replace", ""), "exit 0"),
    (("kind", "/taken/file", ""), "nothing"),
    (("write", "/taken/new.dpkg-inst", ""), "Device"),
    (("kind", "/moved/file", ""), "file"),
    (("make", "/made", ""), "done"),
    (("remove_dir", "/made", "/"), "done"),
    (("make_link", "/made", "other"), "done"),
    (("kind", "/made/file", ""), "nothing"),
    (("write", "/script.dpkg-inst", ""), "done"),
    (("run", "/script.dpkg-inst", ""), "exit 7"),
    (("write", "/written.dpkg-inst", ""), "done"),
    (("run", "/remove", ""), "exit 0"),
    (("sync", "/written.dpkg-inst", "/"), "Device"),
    (("write", "/new.dpkg-inst", ""), "done"),
    (("sync", "/new.dpkg-inst", "/"), "done"),
    (("link", "/new.dpkg-inst", "/second"), "done"),
    (("move", "/new.dpkg-inst", "/second"), "done"),
    (("kind", "/new.dpkg-inst", ""), "nothing"),
    (("kind", "/grown", ""), "nothing"),
    (("kind", "/grown/file", ""), "nothing"),
    (("run", "/grow", ""), "exit 0"),
    (("kind", "/grown/file", ""), "file"),
    (("kind", "/fresh", ""), "nothing"),
    (("kind", "/fresh/file.dpkg-inst", ""), "nothing"),
    (("make", "/fresh", ""), "done"),
    (("write", "/fresh/file.dpkg-inst", ""), "done"),
    (("kind", "/fresh/file.dpkg-inst", ""), "file"),
    (("kind", "/late", ""), "nothing"),
    (
        (
            "shell",
            "mkdir root/late root/later; echo four >root/late/file; echo five >root/later/file",
            "",
        ),
        "",
    ),
    (("kind", "/late/file", ""), "nothing"),
    (("kind", "/later/file", ""), "file"),
    (("write", "/absent/file.dpkg-inst", ""), "Device"),
    (("kind", "/late/file", ""), "file"),
];

fn answer(
    rt: &HostRuntime,
    host: &mut RealHost,
    directory: &str,
    asked: Asked,
) -> io::Result<String> {
    let (word, lines, _) = asked;
    match word {
        "shell" => shell(rt, lines, directory),
        _ => match told(rt.alloc(), host, asked) {
            Ok(answer) => Ok(answer),
            Err(fault) => Ok(String::from_str(rt.alloc(), fault_text(fault))?),
        },
    }
}

fn check(
    rt: &HostRuntime,
    host: &mut RealHost,
    directory: &str,
    asked: Asked,
    row: &str,
) -> Result<(), Fail> {
    let answer = answer(rt, host, directory, asked)?;
    let (word, path, _) = asked;
    match answer.as_str() == row {
        true => Ok(()),
        false => Err(Fail::new(format_args!("{word} {path}: {answer}"))),
    }
}

#[test]
fn what_is_remembered_is_forgotten(rt: HostRuntime) -> Result<(), Fail> {
    let directory = shell(&rt, NEW_DIRECTORY, "/")?;
    let directory = directory.as_str();
    shell(&rt, ROOT, directory)?;
    let root = format!(in rt.alloc(); "{directory}/root")?;
    let mut host = FilesHost::open(rt, root.as_str())?;
    for (asked, row) in CALLS {
        check(&rt, &mut host, directory, *asked, row)?;
    }
    let left = shell(
        &rt,
        "find outside root ! -type d -printf '%p %y\\n' | LC_ALL=C sort",
        directory,
    )?;
    let row = "outside/file f
root/fresh/file.dpkg-inst f
root/grow f
root/grown/file f
root/late/file f
root/later/file f
root/made l
root/moved/file f
root/other/file f
root/remove f
root/replace f
root/script.dpkg-inst f
root/second f
root/taken l
";
    assert_eq!(&rt; left.as_str(), row);
    fs::remove_dir_all(&rt, directory)?;
    Ok(())
}

// The files of interests, by their names.
ghost use Rattle.std.specs.Prelude.{◌≡◌, IfOk, true};
ghost use Rattle.std.specs.Str.{bytes_eq};
ghost use Rattle.texts.specs.PackageNames.{is_package_name};
ghost use Rattle.trigger_files.specs.Places.{is_aside, is_register, paths_name, place};
ghost use Rattle.trigger_journal.specs.Places.{triggers_directory};

use host_core::RootPath;
use std::alloc::{AllocError, Global};
use texts::{Text, package_name};

/// Whether it is the file of the triggers that are paths.
pub(crate) fn is_paths_name(name: &[u8]) -> bool
    ensures { result ≡ bytes_eq name.now paths_name }
{
    name == b"File".as_slice()
}

fn is_aside(name: &[u8]) -> bool
    ensures { result ≡ is_aside name.now }
{
    name.ends_with(b".dpkg-inst") || name.ends_with(b".new")
}

fn is_package_name(name: &[u8]) -> bool
    ensures { result ≡ is_package_name name.now }
{
    match package_name(name) {
        Some(_) => true,
        None => false,
    }
}

/// Whether a file of this name may be one of interests.
pub(crate) fn is_register(name: &Text) -> bool
    ensures { result ≡ is_register name.now }
{
    let name = name.as_str().as_bytes();
    (is_paths_name(name) || is_package_name(name)) && !is_aside(name)
}

/// Where they stand.
pub(crate) fn triggers_directory(alloc: Global) -> Result<RootPath, AllocError>
    ensures { IfOk result (λ path. path ≡ triggers_directory) }
{
    RootPath::from_str(alloc, "/var/lib/dpkg/triggers")
}

/// The place of one.
pub(crate) fn place(alloc: Global, name: &Text) -> Result<RootPath, AllocError>
    requires { is_register «name».now ≡ true }
    ensures { IfOk result (λ path. path ≡ place «name».now) }
{
    let name = name.as_str();
    Ok(RootPath::new(format!(in alloc; "/var/lib/dpkg/triggers/{name}")?))
}

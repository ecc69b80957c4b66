// What an opening does about names with an architecture, before all else.
ghost use Rattle.std.specs.Prelude.{◌≡◌, IfErr, IsTrue, OnOk, false};
ghost use Rattle.std.specs.List.{list_all};
ghost use Rattle.host_core.specs.Host.{AtEachMoment, Needs, Silent};
ghost use Rattle.host_core.specs.Looks.{Looks};
ghost use Rattle.host_core.specs.World.{IsDirectory};
ghost use Rattle.administration.specs.Fault.{CountsAdministration};
ghost use Rattle.administration.specs.Places.{info_path};
ghost use Rattle.info_format.specs.Stage.{AreDamaged, AreDone, IsNaming, IsPlain, is_named, is_plain_name};

use crate::bringing::convert;
use administration::{AdministrationFault, INFO, is_directory};
use host_core::{Host, HostFault, RootPath};
use status_db::NotedDatabase;
use std::alloc::Global;
use texts::Text;

fn has_colon(entry: &[u8]) -> bool
    ensures { result ≡ is_named entry.now }
{
    entry.contains(&b':') || entry == b"format".as_slice()
}

// Whether a name has no architecture, and doesn't tell the format.
fn is_plain_name(entry: &Text) -> bool
    ensures { result ≡ is_plain_name entry.now }
{
    !has_colon(entry.as_str().as_bytes())
}

fn are_plain(entries: &[Text]) -> bool
    ensures { result ≡ list_all is_plain_name entries.now }
{
    entries.iter().all(|entry| is_plain_name(entry))
}

// Whether there may be such names.
pub(crate) fn has_named<H: Host>(host: &mut H, info: &RootPath) -> Result<bool, HostFault>
    requires { info.now ≡ info_path }
    ensures looks { Looks result (λ named w. named ≡ false → IsPlain w) (H.state host.old)
        (H.state host.new) }
{
    let listing = host.list(info)?;
    Ok(listing.bad || !are_plain(listing.names.as_slice()))
}

// By the records that stand. Where they can't be read, that is told later.
fn convert_recorded<H: Host>(alloc: Global, host: &mut H) -> Result<(), AdministrationFault>
    requires info { Needs (H.state host.old) (λ w. IsDirectory (w info_path)) }
    ensures done { IsTrue (H.state host.new).honest
        → OnOk result (AreDone (H.state host.old).world (H.state host.new).world) }
    ensures fault { IsTrue (H.state host.new).honest
        → IfErr result (AreDamaged (H.state host.old).world) }
    ensures any_moment { AtEachMoment IsNaming (H.state host.old) (H.state host.new) }
    ensures silent { Silent (H.state host.old) (H.state host.new) }
    ensures counts { CountsAdministration (H.state host.old) (H.state host.new) result }
{
    match NotedDatabase::open(alloc, host) {
        Ok(database) => convert(alloc, host, &database),
        Err(AdministrationFault::Damaged { .. }) => Ok(()),
        Err(AdministrationFault::Device) => Err(AdministrationFault::Device),
        Err(AdministrationFault::NoMemory) => Err(AdministrationFault::NoMemory),
        Err(AdministrationFault::Declined) => Err(AdministrationFault::Declined),
    }
}

// In the directory.
fn bring_inside<H: Host>(
    alloc: Global,
    host: &mut H,
    info: &RootPath,
) -> Result<(), AdministrationFault>
    requires place { info.now ≡ info_path }
    requires there { Needs (H.state host.old) (λ w. IsDirectory (w info_path)) }
    ensures done { IsTrue (H.state host.new).honest
        → OnOk result (AreDone (H.state host.old).world (H.state host.new).world) }
    ensures fault { IsTrue (H.state host.new).honest
        → IfErr result (AreDamaged (H.state host.old).world) }
    ensures any_moment { AtEachMoment IsNaming (H.state host.old) (H.state host.new) }
    ensures silent { Silent (H.state host.old) (H.state host.new) }
    ensures counts { CountsAdministration (H.state host.old) (H.state host.new) result }
{
    if has_named(host, info)? {
        return convert_recorded(alloc, host);
    }
    Ok(())
}

/// Brings the names in `info/` to format 0 by the records that stand, where any has an architecture.
pub fn bring_names<H: Host>(alloc: Global, host: &mut H) -> Result<(), AdministrationFault>
    ensures done { IsTrue (H.state host.new).honest
        → OnOk result (AreDone (H.state host.old).world (H.state host.new).world) }
    ensures fault { IsTrue (H.state host.new).honest
        → IfErr result (AreDamaged (H.state host.old).world) }
    ensures any_moment { AtEachMoment IsNaming (H.state host.old) (H.state host.new) }
    ensures silent { Silent (H.state host.old) (H.state host.new) }
    ensures counts { CountsAdministration (H.state host.old) (H.state host.new) result }
{
    let info = RootPath::from_str(alloc, INFO)?;
    if is_directory(host, &info)? {
        return bring_inside(alloc, host, &info);
    }
    Ok(())
}

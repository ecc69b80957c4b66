// The control files of the incoming tree, which lie in `tmp.ci` while its unit runs.
ghost use Rattle.std.specs.Prelude.{◌≡◌, IfOk, None, true};
ghost use Rattle.host_core.specs.World.{IsDirectory, IsBare};
ghost use Rattle.host_core.specs.Host.{AtEachMoment, Counts, Leaves, Needs, Silent};
ghost use Rattle.administration.specs.Places.{home_path, tmp_path as tmp_place};
ghost use Rattle.administration.specs.Directories.{IsMade, IsRemoved};
ghost use Rattle.administration.specs.Files.{IsReplaced};
ghost use Rattle.control_members.specs.Names.{is_member_name};
ghost use Rattle.control_members.specs.Members.{AreInOrder, names_of};
ghost use Rattle.control_members.specs.LaidOut.{laid_path, AreLaidOut, IsIncoming, IsLaying};

use crate::member::Member;
use crate::members::Members;
use administration::{INCOMING, make_directory, remove_flat, replace};
use host_core::{Host, HostFault, RootPath};
use std::alloc::{AllocError, Global};
use texts::Text;

// Makes `tmp.ci`, where nothing stands.
fn make_tmp<H: Host>(alloc: Global, host: &mut H) -> Result<(), HostFault>
    requires home { Needs (H.state host.old) (λ w. IsDirectory (w home_path)) }
    requires absent { Needs (H.state host.old) (λ w. w tmp_place ≡ None) }
    ensures made { Leaves result (IsMade tmp_place) (H.state host.old) (H.state host.new) }
    ensures any_moment { AtEachMoment IsLaying (H.state host.old) (H.state host.new) }
    ensures silent { Silent (H.state host.old) (H.state host.new) }
    ensures counts { Counts (H.state host.old) (H.state host.new) result }
{
    let path = RootPath::from_str(alloc, INCOMING)?;
    let _made = make_directory(host, &path)?;
    Ok(())
}

// Where a control file of the incoming tree lies.
fn path_of(alloc: Global, name: &Text) -> Result<RootPath, AllocError>
    requires { is_member_name name.now ≡ true }
    ensures { IfOk result (λ p. p ≡ laid_path name.now) }
{
    let mut text = String::from_str(alloc, "/var/lib/dpkg/tmp.ci/")?;
    text.push_str(name.as_str())?;
    Ok(RootPath::new(text))
}

fn put_incoming<H: Host>(alloc: Global, host: &mut H, member: &Member) -> Result<(), HostFault>
    requires there { Needs (H.state host.old) (λ w. IsDirectory (w tmp_place)) }
    requires incoming { Needs (H.state host.old) IsIncoming }
    ensures put { Leaves result (IsReplaced (laid_path member.now.name) member.now.node)
        (H.state host.old) (H.state host.new) }
    ensures any_moment { AtEachMoment IsLaying (H.state host.old) (H.state host.new) }
    ensures silent { Silent (H.state host.old) (H.state host.new) }
    ensures counts { Counts (H.state host.old) (H.state host.new) result }
{
    let path = path_of(alloc, &member.name)?;
    replace(host, &path, &member.node)
}

fn put_all<H: Host>(alloc: Global, host: &mut H, members: &[Member]) -> Result<(), HostFault>
    requires order { AreInOrder (names_of members.now) }
    requires there { Needs (H.state host.old) (λ w. IsDirectory (w tmp_place)) }
    requires bare { Needs (H.state host.old) (λ w. IsBare w tmp_place) }
    ensures laid { Leaves result (λ old new. AreLaidOut members.now new) (H.state host.old)
        (H.state host.new) }
    ensures any_moment { AtEachMoment IsLaying (H.state host.old) (H.state host.new) }
    ensures silent { Silent (H.state host.old) (H.state host.new) }
    ensures counts { Counts (H.state host.old) (H.state host.new) result }
{
    for member in members {
        put_incoming(alloc, host, member)?;
    }
    Ok(())
}

/// Lays out the control files of the incoming tree in `tmp.ci`, where nothing stands.
pub fn lay_out<H: Host>(alloc: Global, host: &mut H, members: &Members) -> Result<(), HostFault>
    requires home { Needs (H.state host.old) (λ w. IsDirectory (w home_path)) }
    requires absent { Needs (H.state host.old) (λ w. w tmp_place ≡ None) }
    ensures laid { Leaves result (λ old new. AreLaidOut members.now new) (H.state host.old)
        (H.state host.new) }
    ensures any_moment { AtEachMoment IsLaying (H.state host.old) (H.state host.new) }
    ensures silent { Silent (H.state host.old) (H.state host.new) }
    ensures counts { Counts (H.state host.old) (H.state host.new) result }
{
    members.law();
    make_tmp(alloc, host)?;
    put_all(alloc, host, members.as_slice())
}

/// Takes the control files of the incoming tree away with `tmp.ci`.
pub fn clear_away<H: Host>(alloc: Global, host: &mut H, members: &Members) -> Result<(), HostFault>
    requires { Needs (H.state host.old) (AreLaidOut members.now) }
    ensures removed { Leaves result (IsRemoved tmp_place) (H.state host.old) (H.state host.new) }
    ensures any_moment { AtEachMoment IsLaying (H.state host.old) (H.state host.new) }
    ensures silent { Silent (H.state host.old) (H.state host.new) }
    ensures counts { Counts (H.state host.old) (H.state host.new) result }
{
    let incoming = RootPath::from_str(alloc, INCOMING)?;
    let names = members.names(alloc)?;
    remove_flat(host, &incoming, names.as_slice())
}

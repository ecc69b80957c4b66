// The control files that are kept with a package.
ghost use Rattle.std.specs.Prelude.{◌≡◌, IfOk, map};
ghost use Rattle.unpack_plan.specs.Members.{named_member, named_other, AreMembersOf};

use administration::Scripts;
use control_members::{Member, Members};
use package_tree::{OtherFile, OtherFiles};
use std::alloc::{AllocError, Global};

// Each name of another file is that of a member.
fn member_of(other: OtherFile) -> Member
    ensures name { result.name ≡ other.name }
    ensures node { result.node ≡ other.node }
{
    Member {
        name: other.name,
        node: other.node,
    }
}

fn other_members(alloc: Global, others: Vec<OtherFile>) -> Result<Vec<Member>, AllocError>
    ensures { IfOk result
        (λ members. map named_member members.items ≡ map named_other others.items) }
{
    let mut members = Vec::new(alloc);
    for other in others {
        members.push(member_of(other))?;
    }
    Ok(members)
}

/// The scripts of a tree and its other files, moved and not copied.
pub(crate) fn own_members(
    alloc: Global,
    scripts: Scripts,
    others: OtherFiles,
) -> Result<Members, AllocError>
    ensures { IfOk result (AreMembersOf scripts others) }
{
    let others = other_members(alloc, others.into_vec())?;
    let members = Members::of(alloc, scripts, others)?;
    Ok(members)
}

// The journal is written whole.
ghost use Rattle.std.specs.Prelude.{◌≡◌, ◌⊎◌, IfOk, MatchBool, OnOk, false};
ghost use Rattle.administration.specs.Files.{NoDirectory};
ghost use Rattle.administration.specs.Places.{home_path, temporary};
ghost use Rattle.host_core.specs.Host.{AtEachMoment, Counts, Gives, Needs, Silent};
ghost use Rattle.host_core.specs.Looks.{Looks};
ghost use Rattle.host_core.specs.Loss.{IsAnswered};
ghost use Rattle.host_core.specs.World.{IsDirectory};
ghost use Rattle.trigger_journal.specs.Places.{journal_path};
ghost use Rattle.trigger_journal.specs.Writing.{HasText, IsUnwritten, IsWriting, journal_file};

use crate::requests::journal_path;
use administration::{is_directory, make_directory, replace};
use host_core::{Access, Content, Host, HostFault, Node, RootPath};
use std::alloc::{AllocError, Global};

fn journal_file(text: Vec<u8>) -> Node
    ensures { result ≡ journal_file text.items }
{
    Node::File {
        bytes: Content::new(text),
        access: Access::own(0o644),
    }
}

// Whether a directory stands at one of two paths.
fn is_taken<H: Host>(host: &mut H, path: &RootPath, spare: &RootPath) -> Result<bool, HostFault>
    ensures looks { Looks result (λ is w. MatchBool is
        (IsDirectory (w path.now) ⊎ IsDirectory (w spare.now))
        (NoDirectory (w path.now) × NoDirectory (w spare.now))) (H.state host.old)
        (H.state host.new) }
{
    if is_directory(host, path)? {
        return Ok(true);
    }
    is_directory(host, spare)
}

/// Writes the journal with this text, in its directory, which is made where it is missing, and brings that to the disk; or tells that
/// something is in the way.
pub(crate) fn write_text<H: Host>(
    alloc: Global,
    host: &mut H,
    text: Vec<u8>,
) -> Result<bool, HostFault>
    requires home { Needs (H.state host.old) (λ w. IsDirectory (w home_path)) }
    ensures written { Gives result (λ written old new. MatchBool written
        (HasText text.items old new) (IsUnwritten old new)) (H.state host.old)
        (H.state host.new) }
    ensures any_moment { AtEachMoment (IsWriting text.items) (H.state host.old)
        (H.state host.new) }
    ensures on_disk { IfOk result (λ written. MatchBool written
        (IsAnswered (H.state host.old) (H.state host.new)) (Unit {0})) }
    ensures silent { Silent (H.state host.old) (H.state host.new) }
    ensures counts { Counts (H.state host.old) (H.state host.new) result }
{
    let directory = RootPath::from_str(alloc, "/var/lib/dpkg/triggers")?;
    let path = journal_path(alloc)?;
    let spare = path.with_suffix(".dpkg-inst")?;
    if !make_directory(host, &directory)? {
        return Ok(false);
    }
    if is_taken(host, &path, &spare)? {
        return Ok(false);
    }
    let node = journal_file(text);
    replace(host, &path, &node)?;
    host.barrier()?;
    Ok(true)
}

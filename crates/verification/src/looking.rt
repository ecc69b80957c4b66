// How what stands at a place differs from what is known of it.
ghost use Rattle.std.specs.Prelude.{◌≡◌, Some, IfOk, option_map};
ghost use Rattle.std.specs.Str.{bytes_eq};
ghost use Rattle.hex.specs.Hex.{encode_lower};
ghost use Rattle.md5.specs.Md5.{md5};
ghost use Rattle.host_core.specs.Host.{Reads, Silent};
ghost use Rattle.host_core.specs.Looks.{Looks};
ghost use Rattle.verification.specs.Counting.{CountsLooks};
ghost use Rattle.verification.specs.Differences.{difference_at};
ghost use Rattle.verification.specs.Told.{IsTold};

use crate::difference::Difference;
use conffiles::Digest;
use host_core::{Content, Host, HostFault, Kind, Node, RootPath};

fn has_digest(content: &Content, digest: Digest) -> bool
    ensures { result ≡ bytes_eq (encode_lower (md5 content.now)) (encode_lower digest) }
{
    digest.law();
    let own = Digest::of_content(content);
    own.law();
    own == digest
}

fn difference_of(node: &Option<Node>, digest: Digest) -> Option<Difference>
    ensures { result ≡ difference_at node.now (Some (encode_lower digest)) }
{
    match node {
        None => Some(Difference::Missing),
        Some(Node::File { bytes, .. }) => {
            if has_digest(bytes, digest) {
                return None;
            }
            Some(Difference::Bytes)
        }
        Some(Node::Dir { .. }) => Some(Difference::Kind),
        Some(Node::Link { .. }) => Some(Difference::Kind),
    }
}

fn compare<H: Host>(
    host: &mut H,
    place: &RootPath,
    digest: Digest,
) -> Result<Option<Difference>, HostFault>
    ensures looks { Looks result
        (λ d w. d ≡ difference_at (w place.now) (Some (encode_lower digest)))
        (H.state host.old) (H.state host.new) }
{
    let node = host.node(place)?;
    Ok(difference_of(&node, digest))
}

// The bytes of a file are read only where they are known.
fn look<H: Host>(
    host: &mut H,
    place: &RootPath,
    known: Option<Digest>,
) -> Result<Option<Difference>, HostFault>
    ensures looks { Looks result
        (λ d w. d ≡ difference_at (w place.now) (option_map encode_lower known))
        (H.state host.old) (H.state host.new) }
{
    match (host.kind(place)?, known) {
        (None, _) => Ok(Some(Difference::Missing)),
        (Some(_), None) => Ok(None),
        (Some(Kind::File), Some(digest)) => compare(host, place, digest),
        (Some(_), Some(_)) => Ok(Some(Difference::Kind)),
    }
}

/// How what stands at a place differs; that the device failed is told too.
pub(crate) fn find_difference<H: Host>(
    host: &mut H,
    place: &RootPath,
    known: Option<Digest>,
) -> Result<Option<Difference>, HostFault>
    ensures told { IfOk result
        (IsTold place.now (option_map encode_lower known) (H.state host.old) (H.state host.new)) }
    ensures reads { Reads (H.state host.old) (H.state host.new) }
    ensures silent { Silent (H.state host.old) (H.state host.new) }
    ensures counts { CountsLooks (H.state host.old) (H.state host.new) result }
{
    match look(host, place, known) {
        Err(HostFault::Device) => Ok(Some(Difference::Unread)),
        told => told,
    }
}

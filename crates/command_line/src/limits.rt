// How many units may fail.
ghost use Rattle.std.specs.Prelude.{◌≡◌};
ghost use Rattle.command_line.specs.Limits.{fails, is_over, left_behind};

use dpkg_session::Reply;

fn fails(reply: &Reply) -> bool
    ensures { result ≡ fails reply.now }
{
    match reply {
        Reply::Done => false,
        Reply::Refused(_) | Reply::Failed(_) | Reply::Looped(_) | Reply::Broken(_) => true,
    }
}

/// How many may fail behind a unit with this reply.
pub(crate) fn left_behind(left: Option<u32>, reply: &Reply) -> Option<u32>
    ensures { result ≡ left_behind left reply.now }
{
    if !fails(reply) {
        return left;
    }
    match left {
        Some(left) => Some(left.saturating_sub(1)),
        None => None,
    }
}

/// Whether as many have failed as were allowed to.
pub(crate) fn is_over(left: Option<u32>) -> bool
    ensures { result ≡ is_over left }
{
    match left {
        Some(left) => left == 0,
        None => false,
    }
}

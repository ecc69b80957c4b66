// Which package is told of a path.
ghost use Rattle.std.specs.Prelude.{◌≡◌, option_copied};
ghost use Rattle.foretold_changes.specs.Owning.{is_among, other_owner, owner_beside, owner_for, owner_text};

use crate::change::Change;
use file_lists::Listed;
use texts::Text;

fn is_among(owners: &[Listed], name: &Text) -> bool
    ensures { result ≡ is_among owners.now name.now }
{
    owners
        .iter()
        .any(|owner| owner.name.as_str() == name.as_str())
}

fn other_owner<'a>(owners: &'a [Listed], others: &[Listed]) -> Option<&'a Listed>
    ensures { option_copied result ≡ other_owner owners.now others.now }
{
    owners.iter().find(|owner| !is_among(others, &owner.name))
}

fn owner_beside<'a>(owners: &'a [Listed], others: &[Listed]) -> Option<&'a Listed>
    ensures { option_copied result ≡ owner_beside owners.now others.now }
{
    match other_owner(owners, others) {
        Some(owner) => Some(owner),
        None => owners.first(),
    }
}

fn owner_for<'a>(change: Change, before: &'a [Listed], now: &'a [Listed]) -> Option<&'a Listed>
    ensures { option_copied result ≡ owner_for change before.now now.now }
{
    match change {
        Change::Write => owner_beside(now, before),
        Change::Replace => owner_beside(now, before),
        Change::Remove => owner_beside(before, now),
        Change::Unread => match owner_beside(now, before) {
            Some(owner) => Some(owner),
            None => owner_beside(before, now),
        },
    }
}

/// The name of the package, or `-`.
pub(crate) fn owner_text<'a>(change: Change, before: &'a [Listed], now: &'a [Listed]) -> &'a str
    ensures { result.now ≡ owner_text (owner_for change before.now now.now) }
{
    match owner_for(change, before, now) {
        Some(owner) => owner.name.as_str(),
        None => "-",
    }
}

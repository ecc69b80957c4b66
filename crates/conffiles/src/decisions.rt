// What becomes of a conffile, by its digests.
ghost use Rattle.std.specs.Prelude.{◌≡◌, ℕ, List, Option};
ghost use Rattle.conffiles.specs.Decisions.{Row, IsRow, IsOnlyRow, decision_of, answer_of, is_wanted_anew, restored_if};

use crate::digests::Digest;

/// Who wins where both the administrator and the package changed a conffile.
#[derive(Clone, Copy, Debug, PartialEq)]
pub enum Changed {
    /// The administrator's stays: the default.
    Keep,
    /// The package's is installed.
    Install,
}

/// How conffiles are settled that can be settled in more than one way.
#[derive(Clone, Copy, Debug, PartialEq)]
pub struct ConfPolicy {
    pub changed: Changed,
    /// Whether a deleted conffile is installed again.
    pub missing: bool,
}

/// What becomes of the conffile X, whose shipped file lies at `X.dpkg-new`.
#[derive(Clone, Copy, Debug, PartialEq)]
pub enum Decision {
    /// The shipped file takes the place of what is there.
    TakeNew,
    /// The shipped file goes.
    DropNew,
    /// The shipped file becomes `X.dpkg-dist`.
    NewToDist,
    /// A copy of X becomes `X.dpkg-old`, and the shipped file takes its place.
    BackupOld,
    /// Nothing is shipped, and nothing is there.
    Nothing,
    /// X goes.
    Delete,
    /// X becomes `X.dpkg-old`.
    Rename,
}

// Where both were changed.
fn answer(policy: ConfPolicy) -> Decision
    ensures { result ≡ answer_of policy.changed }
{
    match policy.changed {
        Changed::Keep => Decision::NewToDist,
        Changed::Install => Decision::BackupOld,
    }
}

// Whether a deleted conffile is wanted again where the package has another one now.
fn is_wanted_anew(policy: ConfPolicy) -> bool
    ensures { result ≡ is_wanted_anew policy }
{
    match policy.changed {
        Changed::Keep => policy.missing,
        Changed::Install => true,
    }
}

// Where the administrator deleted it.
fn restored(wanted: bool) -> Decision
    ensures { result ≡ restored_if wanted }
{
    if wanted {
        Decision::TakeNew
    } else {
        Decision::DropNew
    }
}

/// What becomes of a conffile with this digest recorded, this one now and this one shipped; none is
/// shipped for a path flagged `remove-on-upgrade`.
pub fn decide(
    recorded: Option<Digest>,
    current: Option<Digest>,
    shipped: Option<Digest>,
    policy: ConfPolicy,
) -> Decision
    ensures { (row : Row) × IsRow row recorded current shipped × (result ≡ decision_of row policy) }
{
    match &(recorded, current, shipped) {
        (None, None, Some(_)) => Decision::TakeNew,
        (None, Some(now), Some(new)) if now == new => Decision::DropNew,
        (None, Some(_), Some(_)) => answer(policy),
        (Some(had), None, Some(new)) if new == had => restored(policy.missing),
        (Some(_), None, Some(_)) => restored(is_wanted_anew(policy)),
        (Some(_), Some(now), Some(new)) if now == new => Decision::DropNew,
        (Some(had), Some(now), Some(_)) if now == had => Decision::TakeNew,
        (Some(had), Some(_), Some(new)) if new == had => Decision::DropNew,
        (Some(_), Some(_), Some(_)) => answer(policy),
        (_, None, None) => Decision::Nothing,
        (Some(had), Some(now), None) if now == had => Decision::Delete,
        (_, Some(_), None) => Decision::Rename,
    }
}

/// Each case falls in exactly one row of the table.
pub fn each_case_has_one_row()
    ensures { (recorded current shipped : Option (List ℕ)) → (row : Row) × IsOnlyRow row recorded
        current shipped }
{}

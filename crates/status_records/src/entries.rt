// The conffiles of a package, as its record tells of them.
ghost use Rattle.std.specs.Prelude.{◌≡◌, IfOk, true};
ghost use Rattle.conffiles.specs.Digests.{IsDigest};
ghost use Rattle.status_records.specs.ConffilePaths.{is_ship_path, is_trimmed, is_conffile_path};
ghost use Rattle.status_records.specs.Digests.{IsDigestOrNone};

use crate::conffile_fields::trim_end;
use conffiles::Digest;
use host_core::ShipPath;
use std::alloc::AllocError;

/// A conffile of a package: the digest of its last version settled, if there is one, whether the
/// package's current version doesn't ship it, and whether an upgrade is to remove it. Its path ends
/// in no blank.
#[derive(Drop)]
pub struct ConffileEntry {
    pub path: ShipPath,
    pub digest: Option<Digest>,
    pub obsolete: bool,
    pub remove_on_upgrade: bool,
    pub ghost conffile: { is_conffile_path path ≡ true },
    pub ghost digested: { ∥ IsDigestOrNone digest ∥₁ },
}

/// A shipped conffile's digest that isn't settled yet.
#[derive(Drop)]
pub struct PendingDigest {
    pub path: ShipPath,
    pub digest: Digest,
    pub ghost conffile: { is_conffile_path path ≡ true },
    pub ghost digested: { ∥ IsDigest digest ∥₁ },
}

// What holds of each such path, and of each digest.
fn path_law(path: &ShipPath)
    ensures { is_ship_path path.now ≡ true }
{
    path.law();
    let _text = path.as_str();
}

fn digest_law(digest: &Option<Digest>)
    ensures { IsDigestOrNone digest.now }
{
    if let Some(digest) = digest {
        digest.law();
    }
}

impl ConffileEntry {
    /// The entry of a conffile; its path ends in no blank.
    pub fn new(
        path: ShipPath,
        digest: Option<Digest>,
        obsolete: bool,
        remove_on_upgrade: bool,
    ) -> ConffileEntry
        requires { is_trimmed path ≡ true }
        ensures path { result.path ≡ path }
        ensures digest { result.digest ≡ digest }
        ensures obsolete { result.obsolete ≡ obsolete }
        ensures remove_on_upgrade { result.remove_on_upgrade ≡ remove_on_upgrade }
    {
        path_law(&path);
        digest_law(&digest);
        ConffileEntry {
            path,
            digest,
            obsolete,
            remove_on_upgrade,
        }
    }

    /// An equal entry, or want of memory.
    pub fn copy(&self) -> Result<ConffileEntry, AllocError>
        ensures { IfOk result (λ e. e ≡ self.now) }
    {
        Ok(ConffileEntry {
            path: self.path.copy()?,
            digest: self.digest,
            obsolete: self.obsolete,
            remove_on_upgrade: self.remove_on_upgrade,
        })
    }
}

impl PendingDigest {
    /// The digest of a shipped conffile; its path ends in no blank.
    pub fn new(path: ShipPath, digest: Digest) -> PendingDigest
        requires { is_trimmed path ≡ true }
        ensures path { result.path ≡ path }
        ensures digest { result.digest ≡ digest }
    {
        path_law(&path);
        digest.law();
        PendingDigest { path, digest }
    }

    /// An equal one, or want of memory.
    pub fn copy(&self) -> Result<PendingDigest, AllocError>
        ensures { IfOk result (λ p. p ≡ self.now) }
    {
        Ok(PendingDigest {
            path: self.path.copy()?,
            digest: self.digest,
        })
    }
}

// A file of `DEBIAN` that is stored as it is.
ghost use Rattle.std.specs.Prelude.{◌≡◌, ◌&&◌, ◌||◌, IfOk, MatchOption, true, false, not};
ghost use Rattle.std.specs.List.{list_all};
ghost use Rattle.host_core.specs.World.{is_file};
ghost use Rattle.package_tree.specs.OtherNames.{is_other_name, is_name_byte, is_taken, is_suffix_name};

use host_core::Node;
use std::alloc::AllocError;
use texts::Text;

/// A file of `DEBIAN` beside the control file, `conffiles`, `list` and the scripts.
#[derive(Drop)]
pub struct OtherFile {
    pub name: Text,
    pub node: Node,
    pub ghost named: { is_other_name name ≡ true },
    pub ghost file: { is_file node ≡ true },
}

// The bytes that such a name has.
fn is_name_byte(b: u8) -> bool
    ensures { result ≡ is_name_byte b }
{
    b.is_ascii_lowercase() || b.is_ascii_digit() || b == b'+' || b == b'-' || b == b'_'
}

fn are_name_bytes(name: &[u8]) -> bool
    ensures { result ≡ list_all is_name_byte name.now }
{
    name.iter().all(|b| is_name_byte(*b))
}

// What the installer reads by this name, or keeps for itself in `info`.
fn is_taken(name: &str) -> bool
    ensures { result ≡ is_taken name.now }
{
    matches!(
        name,
        "control" | "conffiles" | "list" | "preinst" | "postinst" | "prerm" | "postrm"
    )
}

// The end of a name that only the installer writes.
fn is_suffix_name(name: &str) -> bool
    ensures { result ≡ is_suffix_name name.now }
{
    matches!(
        name,
        "dpkg-new" | "dpkg-old" | "dpkg-dist" | "dpkg-tmp" | "dpkg-inst"
    )
}

/// Whether a file of `DEBIAN` by this name is stored.
pub(crate) fn is_other_name(name: &str) -> bool
    ensures { result ≡ is_other_name name.now }
{
    if name.is_empty() || name.len() > 44 || !are_name_bytes(name.as_bytes()) {
        return false;
    }
    !is_taken(name) && !is_suffix_name(name)
}

impl OtherFile {
    /// An equal one, or want of memory.
    pub fn copy(&self) -> Result<OtherFile, AllocError>
        ensures { IfOk result (λ copy. copy ≡ self.now) }
    {
        let name = self.name.copy()?;
        let node = self.node.copy()?;
        Ok(OtherFile { name, node })
    }
}

// The names of the control files that are kept.
ghost use Rattle.std.specs.Prelude.{◌≡◌, IsTrue, ◌↔◌};
ghost use Rattle.std.specs.List.{list_all, list_any};
ghost use Rattle.std.specs.Str.{bytes_eq};
ghost use Rattle.control_members.specs.Names.{is_member_sign, is_member_name, is_script_name, other_uses};

use host_core::Script;
use texts::Text;

fn is_member_sign(byte: u8) -> bool
    ensures { result ≡ is_member_sign byte }
{
    byte.is_ascii_lowercase()
        || byte.is_ascii_digit()
        || byte == b'+'
        || byte == b'-'
        || byte == b'_'
}

fn are_member_signs(name: &[u8]) -> bool
    ensures { result ≡ list_all is_member_sign name.now }
{
    name.iter().all(|byte| is_member_sign(*byte))
}

// The record, the list, and the ends of the installer's own names.
fn has_other_use(name: &str) -> bool
    ensures { result ≡ list_any (bytes_eq name.now) other_uses }
{
    match name {
        "control" | "conffiles" | "list" => true,
        "dpkg-new" | "dpkg-old" | "dpkg-dist" | "dpkg-tmp" | "dpkg-inst" => true,
        _ => false,
    }
}

/// Whether a file of `DEBIAN/` with this name is kept with the package: scripts, `templates`, `config`, `md5sums`,
/// `triggers` and the like.
pub fn is_member_name(name: &str) -> bool
    ensures { result ≡ is_member_name name.now }
{
    name.len() >= 1 && name.len() <= 44 && are_member_signs(name.as_bytes()) && !has_other_use(name)
}

/// Whether it is the name of a script.
pub(crate) fn is_script_name(name: &Text) -> bool
    ensures { result ≡ is_script_name name.now }
{
    name.as_str() == Script::Preinst.name()
        || name.as_str() == Script::Postinst.name()
        || name.as_str() == Script::Prerm.name()
        || name.as_str() == Script::Postrm.name()
}

// How a path differs, and the line of it.
ghost use Rattle.std.specs.Prelude.{◌≡◌, ◌++◌, IfOk, OnOk, string_bytes};
ghost use Rattle.verification.specs.Differences.{difference_line, difference_lines, difference_word};

use host_core::RootPath;
use queries::path_text;
use shown_lines::line;
use std::alloc::{AllocError, Global};
use texts::Text;

/// How what stands at the place of a path differs from what is known of it.
#[derive(Clone, Copy, Debug, PartialEq)]
pub(crate) enum Difference {
    /// Nothing is there.
    Missing,
    /// Something of another kind is there.
    Kind,
    /// A link is there, with another text.
    Target,
    /// A file is there, with other bytes.
    Bytes,
    /// The mode or the owner is another.
    Access,
    /// The device failed at the look.
    Unread,
}

fn difference_word(difference: Difference) -> &'static str
    ensures { result.now ≡ difference_word difference }
{
    match difference {
        Difference::Missing => "missing",
        Difference::Kind => "kind",
        Difference::Target => "target",
        Difference::Bytes => "bytes",
        Difference::Access => "access",
        Difference::Unread => "unread",
    }
}

fn difference_line(
    alloc: Global,
    path: &RootPath,
    name: &Text,
    difference: Difference,
) -> Result<String, AllocError>
    ensures { IfOk result
        (λ printed. string_bytes printed ≡ difference_line path.now name.now difference) }
{
    let word = difference_word(difference);
    let path = path_text(path);
    let name = name.as_str();
    let content = format!(in alloc; "{word} {path} {name}")?;
    line(alloc, content.as_str())
}

/// Adds the line of a path, where something differs.
pub(crate) fn add_difference(
    alloc: Global,
    lines: &mut String,
    path: &RootPath,
    name: &Text,
    difference: Option<Difference>,
) -> Result<(), AllocError>
    ensures { OnOk result (string_bytes lines.new ≡ string_bytes lines.old
        ++ difference_lines path.now name.now difference) }
{
    let Some(difference) = difference else {
        return Ok(());
    };
    let printed = difference_line(alloc, path, name, difference)?;
    lines.push_str(printed.as_str())?;
    Ok(())
}

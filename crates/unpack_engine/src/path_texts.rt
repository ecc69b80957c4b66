// Paths are texts.
ghost use Rattle.std.specs.List.{AllByRecursion};
ghost use Rattle.std.specs.Str.{IsUtf8};

use host_core::RootPath;

// What holds of a path, beside what makes it one.
fn is_text(path: &RootPath)
    ensures { IsUtf8 path.now }
{
    let _ = path.as_str().as_bytes();
}

/// The bytes of each path are those of a text.
pub(crate) fn are_texts(paths: &[RootPath])
    ensures { AllByRecursion IsUtf8 paths.now }
{
    for path in paths {
        is_text(path);
    }
}

// Paths that a package ships are texts.
ghost use Rattle.std.specs.Str.{IsUtf8};
ghost use Rattle.reopening.specs.Trees.{AreTextFiles};

use host_core::ShipPath;
use package_tree::Package;

// What holds of a path, beside what makes it one.
fn is_text(path: &ShipPath)
    ensures { IsUtf8 path.now }
{
    let _ = path.as_str().as_bytes();
}

/// The paths that a package ships are text, as the laws of unpacks ask of trees: so it is of each
/// package in memory.
pub fn ships_texts(incoming: &Package)
    ensures { AreTextFiles incoming.now.files }
{
    for file in incoming.files.as_slice() {
        is_text(&file.path);
    }
}

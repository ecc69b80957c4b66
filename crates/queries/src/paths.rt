// Paths as they are told.
ghost use Rattle.std.specs.Prelude.{◌≡◌, IfOk, string_bytes};
ghost use Rattle.queries.specs.Paths.{path_line, path_text};

use host_core::RootPath;
use shown_lines::line;
use std::alloc::{AllocError, Global};

/// A path as it is told: the root as `/`.
pub fn path_text(path: &RootPath) -> &str
    ensures { result.now ≡ path_text path.now }
{
    match path.as_str() {
        "" => "/",
        path => path,
    }
}

pub(crate) fn path_line(alloc: Global, path: &RootPath) -> Result<String, AllocError>
    ensures { IfOk result (λ printed. string_bytes printed ≡ path_line path.now) }
{
    line(alloc, path_text(path))
}

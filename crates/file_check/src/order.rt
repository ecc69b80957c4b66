// The order in which works are written.
ghost use Rattle.std.specs.Prelude.{◌≡◌};
ghost use Rattle.std.specs.List.{IsDistinct};
ghost use Rattle.std.specs.List.Sorted.{IsPermutation};
ghost use Rattle.package_files.specs.Names.{AllInOrder};
ghost use Rattle.file_check.specs.Ready.{is_one_place};

use package_files::Work;

/// Puts works in the order of their places, in which they are written.
pub fn order_works(works: &mut Vec<Work>)
    ensures same { IsPermutation works.old.items works.new.items }
    ensures order { IsDistinct is_one_place works.old.items → AllInOrder works.new.items }
{
    works.sort_unstable_by(|a, b| a.place.as_str().cmp(b.place.as_str()));
}

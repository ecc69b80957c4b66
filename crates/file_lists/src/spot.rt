// Where a listed path stands.
ghost use Rattle.std.specs.Prelude.{◌≡◌};
ghost use Rattle.file_lists.specs.Index.{list_moved, spot_moved};

/// The number of a list, and the number of a path in it.
#[derive(Clone, Copy, PartialEq, Eq, PartialOrd, Ord)]
pub(crate) struct Spot {
    pub list: usize,
    pub path: usize,
}

fn list_moved(at: usize, count: usize, list: usize) -> usize
    ensures { result ≡ list_moved at count list }
{
    if list < at || count <= list {
        list
    } else {
        list + 1
    }
}

impl Spot {
    /// The spot once a list has come to this place among so many.
    pub(crate) fn moved(&self, at: usize, count: usize) -> Spot
        ensures { result ≡ spot_moved at count self.now }
    {
        Spot {
            list: list_moved(at, count, self.list),
            path: self.path,
        }
    }
}

// The index by the keys of places: where paths stand that may have one.
ghost use Rattle.std.specs.Prelude.{◌≡◌, ◌<◌, ◌%◌, ℕ, List, IfOk, OnOk, Contains, length, map};
ghost use Rattle.host_core.specs.Paths.{Path};
ghost use Rattle.aliases.specs.Aliases.{resolved};
ghost use Rattle.file_lists.specs.declared.spot.Spot.{Spot as ASpot};
ghost use Rattle.file_lists.specs.Index.{path_number, row_of, row_for, spot_of, spot_moved, HasRoom, IsNumbered, KeepsRows, IsComplete};

use crate::paths::PackageList;
use crate::spot::Spot;
use aliases::Aliases;
use host_core::RootPath;
use std::alloc::{AllocError, Global};
use std::marker::Model;

#[derive(Drop)]
struct Row {
    spots: Vec<Spot>,
}

impl Model for Row {
    ghost Value = { List ASpot };

    ghost view = { λ r. r.spots.items };
}

/// Where listed paths stand, in rows by the bytes of their keys: a path's key is its place where
/// nothing is diverted. The index has no texts, and a spot may stand in its row still where another
/// path is now.
#[derive(Drop)]
pub(crate) struct Index {
    rows: Vec<Row>,
    aliases: Aliases,
}

impl Model for Index {
    ghost use Rattle.std.specs.Prelude.{◌<◌, length};
    ghost use Rattle.file_lists.specs.Index.{Keyed};

    ghost Value = { Keyed };

    ghost view = { λ i. record { rows = i.rows.items; aliases = i.aliases } };

    ghost invariant = { λ i. 0 < length i.rows.items };
}

fn move_spots(spots: &mut Vec<Spot>, at: usize, count: usize)
    ensures { spots.new.items ≡ map (spot_moved at count) spots.old.items }
{
    for spot in spots.iter_mut() {
        *spot = spot.moved(at, count);
    }
}

impl Row {
    fn make_room(&mut self, at: usize, count: usize)
        ensures { self.new ≡ map (spot_moved at count) self.old }
    {
        move_spots(&mut self.spots, at, count);
    }

    // Takes a spot once, where spots are taken in their order.
    fn take(&mut self, spot: Spot) -> Result<(), AllocError>
        ensures kept { (s : ASpot) → Contains self.old s → Contains self.new s }
        ensures there { OnOk result (Contains self.new spot) }
    {
        if let Some(last) = self.spots.last() {
            if *last == spot {
                return Ok(());
            }
        }
        self.spots.push(spot)?;
        Ok(())
    }
}

fn path_number(text: &[u8]) -> usize
    ensures { result ≡ path_number text.now }
{
    let mut number: usize = 0;
    for byte in text {
        number = (number * 16777619 + *byte as usize) % 4294967296;
    }
    number
}

fn empty_rows(alloc: Global, count: usize) -> Result<Vec<Row>, AllocError>
    ensures { IfOk result (λ rows. length rows.items ≡ count) }
{
    let mut rows = Vec::new(alloc);
    for _row in 0..count {
        rows.push(Row {
            spots: Vec::new(alloc),
        })?;
    }
    Ok(rows)
}

fn make_room(rows: &mut Vec<Row>, at: usize, count: usize)
    ensures { rows.new.items ≡ map (map (spot_moved at count)) rows.old.items }
{
    for row in rows.iter_mut() {
        row.make_room(at, count);
    }
}

// How many spots stand in these rows.
fn count_spots(rows: &[Row]) -> usize {
    let mut count: usize = 0;
    for row in rows {
        count = count.saturating_add(row.spots.len());
    }
    count
}

// How many paths are listed.
fn count_paths(lists: &[PackageList]) -> usize {
    let mut count: usize = 0;
    for list in lists {
        count = count.saturating_add(list.paths.as_slice().len());
    }
    count
}

impl Index {
    // The number of a key's row.
    fn row_number(&self, key: &RootPath) -> usize
        ensures row { result ≡ path_number key.now % length self.now.rows }
        ensures within { result < length self.now.rows }
    {
        path_number(key.as_str().as_bytes()) % self.rows.len()
    }

    // The number of the row of a path's key. Nothing is allocated for a path that is its own key.
    fn row_number_for(&self, path: &RootPath) -> Result<usize, AllocError>
        ensures row { IfOk result
            (λ n. n ≡ path_number (resolved self.now.aliases path.now) % length self.now.rows) }
        ensures within { IfOk result (λ n. n < length self.now.rows) }
    {
        if self.aliases.is_free(path.as_str()) {
            return Ok(self.row_number(path));
        }
        Ok(self.row_number(&self.aliases.resolve_path(path)?))
    }

    // Enters a path that stands at a spot.
    fn enter(&mut self, path: &RootPath, spot: Spot) -> Result<(), AllocError>
        ensures kept { KeepsRows self.old self.new }
        ensures there { OnOk result (Contains (row_for self.new path.now) spot) }
    {
        let at = self.row_number_for(path)?;
        self.rows[at].take(spot)
    }

    /// Enters the paths of the list of a number.
    pub(crate) fn enter_all(&mut self, paths: &[RootPath], slot: usize) -> Result<(), AllocError>
        ensures kept { KeepsRows self.old self.new }
        ensures there { OnOk result
            ((number : ℕ) (path : Path) → IsNumbered paths.now number path
            → Contains (row_for self.new path) (spot_of slot number)) }
    {
        for number in 0..paths.len() {
            let spot = Spot {
                list: slot,
                path: number,
            };
            self.enter(&paths[number], spot)?;
        }
        Ok(())
    }

    /// The lists from a place on stand one higher; there were so many lists.
    pub(crate) fn make_room(&mut self, at: usize, count: usize)
        ensures { HasRoom at count self.old self.new }
    {
        make_room(&mut self.rows, at, count);
    }

    /// The index of these lists.
    pub(crate) fn of_lists(
        alloc: Global,
        aliases: &Aliases,
        lists: &[PackageList],
    ) -> Result<Index, AllocError>
        ensures aliases { IfOk result (λ index. index.aliases ≡ aliases.now) }
        ensures complete { IfOk result (λ index. IsComplete index lists.now) }
    {
        let mut index = Index {
            rows: empty_rows(alloc, count_paths(lists) / 2 + 1)?,
            aliases: aliases.copy()?,
        };
        for slot in 0..lists.len() {
            index.enter_all(lists[slot].paths.as_slice(), slot)?;
        }
        Ok(index)
    }

    /// Whether so many spots stand in a row that another index of the same lists is worth its time.
    pub(crate) fn is_crowded(&self) -> bool {
        count_spots(self.rows.as_slice()) / 8 > self.rows.len()
    }

    /// The aliases by which its keys were made.
    pub(crate) fn aliases(&self) -> &Aliases
        ensures { result.now ≡ self.now.aliases }
    {
        &self.aliases
    }

    /// Where paths stand that may have a key.
    pub(crate) fn row(&self, key: &RootPath) -> &[Spot]
        ensures { result.now ≡ row_of self.now.rows key.now }
    {
        self.rows[self.row_number(key)].spots.as_slice()
    }
}

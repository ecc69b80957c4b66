// The packages that bear a name.
ghost use Rattle.std.specs.Prelude.{◌≡◌, ◌<◌, ℕ, List, [], map, OnOk};
ghost use Rattle.std.specs.List.{Contains};
ghost use Rattle.relation_index.specs.Moves.{moved_up, moved_down};

use std::alloc::{AllocError, Global};
use std::marker::Model;

/// The packages that bear a name, by their numbers.
#[derive(Drop)]
pub(crate) struct Row {
    numbers: Vec<usize>,
}

impl Model for Row {
    ghost Value = { List ℕ };

    ghost view = { λ r. r.numbers.items };
}

fn moved_up(at: usize, count: usize, number: usize) -> usize
    ensures { result ≡ moved_up at count number }
{
    if number < at || count <= number {
        number
    } else {
        number + 1
    }
}

fn moved_down(at: usize, number: usize) -> usize
    ensures { result ≡ moved_down at number }
{
    if at < number { number - 1 } else { number }
}

fn move_up(numbers: &mut Vec<usize>, at: usize, count: usize)
    ensures { numbers.new.items ≡ map (moved_up at count) numbers.old.items }
{
    for number in numbers.iter_mut() {
        *number = moved_up(at, count, *number);
    }
}

fn move_down(numbers: &mut Vec<usize>, at: usize)
    ensures { numbers.new.items ≡ map (moved_down at) numbers.old.items }
{
    for number in numbers.iter_mut() {
        *number = moved_down(at, *number);
    }
}

impl Row {
    pub(crate) fn new(alloc: Global) -> Self
        ensures { result ≡ [] }
    {
        Row {
            numbers: Vec::new(alloc),
        }
    }

    /// Enters a package that may stand there. Numbers that come in order are not looked for.
    pub(crate) fn enter(&mut self, number: usize) -> Result<(), AllocError>
        ensures kept { OnOk result ((x : ℕ) → Contains self.old x → Contains self.new x) }
        ensures entered { OnOk result (Contains self.new number) }
    {
        let is_next = self.numbers.last().is_none_or(|last| *last < number);
        if is_next || !self.numbers.contains(&number) {
            self.numbers.push(number)?;
        }
        Ok(())
    }

    pub(crate) fn as_slice(&self) -> &[usize]
        ensures { result.now ≡ self.now }
    {
        self.numbers.as_slice()
    }

    /// The packages from this number on stand one higher; there were so many packages.
    pub(crate) fn make_room(&mut self, at: usize, count: usize)
        ensures { self.new ≡ map (moved_up at count) self.old }
    {
        move_up(&mut self.numbers, at, count);
    }

    /// The packages behind this number stand one lower.
    pub(crate) fn close_gap(&mut self, at: usize)
        ensures { self.new ≡ map (moved_down at) self.old }
    {
        move_down(&mut self.numbers, at);
    }
}

pub(crate) fn make_room(rows: &mut Vec<Row>, at: usize, count: usize)
    ensures { rows.new.items ≡ map (map (moved_up at count)) rows.old.items }
{
    for row in rows.iter_mut() {
        row.make_room(at, count);
    }
}

pub(crate) fn close_gap(rows: &mut Vec<Row>, at: usize)
    ensures { rows.new.items ≡ map (map (moved_down at)) rows.old.items }
{
    for row in rows.iter_mut() {
        row.close_gap(at);
    }
}

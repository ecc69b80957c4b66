// The place of a name among values in name order.
ghost use Rattle.std.specs.Prelude.{◌≡◌, ◌↔◌, IsTrue, MatchBool, IfSome, IfNone, Contains};
ghost use Rattle.name_tables.specs.Order.{AreInOrder, IsBefore, IsPlaceOf, IsThere, names_of};

use crate::named::Named;
use std::cmp::Ordering;
use texts::Text;

// Whether a value's name stands before another.
fn is_before<T: Named>(value: &T, name: &[u8]) -> bool
    ensures { IsTrue result ↔ IsBefore (T.called value.now) name.now }
{
    value.name().as_str().as_bytes().cmp(name) == Ordering::Less
}

// How many values stand before a name, found by halves.
fn search<T: Named>(values: &[T], name: &[u8]) -> usize
    requires { AreInOrder T.called values.now }
    ensures { IsPlaceOf T.called values.now name.now result }
{
    let mut low = 0;
    let mut high = values.len();
    while low < high {
        let middle = low + (high - low) / 2;
        if is_before(&values[middle], name) {
            low = middle + 1;
        } else {
            high = middle;
        }
    }
    low
}

/// How many values stand before a name, found by halves.
pub fn place_of<T: Named>(values: &[T], name: &Text) -> usize
    requires { AreInOrder T.called values.now }
    ensures { IsPlaceOf T.called values.now name.now result }
{
    search(values, name.as_str().as_bytes())
}

/// Whether the value that stands there is of this name.
pub fn is_there<T: Named>(values: &[T], name: &Text, at: usize) -> bool
    ensures { MatchBool result (IsThere T.called values.now name.now at)
        (IsThere T.called values.now name.now at → ⊥) }
{
    at < values.len() && values[at].name().is(name)
}

// Whether a value is of this name.
fn is_of<T: Named>(value: &T, name: &[u8]) -> bool
    ensures { IsTrue result ↔ (T.called value.now ≡ name.now) }
{
    value.name().as_str().as_bytes() == name
}

fn stands_at<T: Named>(values: &[T], name: &[u8], at: usize) -> bool
    ensures { MatchBool result (IsThere T.called values.now name.now at)
        (IsThere T.called values.now name.now at → ⊥) }
{
    at < values.len() && is_of(&values[at], name)
}

/// Where the value of a name stands, found by halves.
pub fn find<T: Named>(values: &[T], name: &[u8]) -> Option<usize>
    requires { AreInOrder T.called values.now }
    ensures some { IfSome result (IsThere T.called values.now name.now) }
    ensures none { IfNone result (Contains (names_of T.called values.now) name.now → ⊥) }
{
    let at = search(values, name);
    if stands_at(values, name, at) {
        return Some(at);
    }
    None
}

/// Whether the values stand in name order, each name once.
pub fn are_in_order<T: Named>(values: &[T]) -> bool
    ensures { MatchBool result (AreInOrder T.called values.now)
        (AreInOrder T.called values.now → ⊥) }
{
    for at in 1..values.len() {
        if !is_before(&values[at - 1], values[at].name().as_str().as_bytes()) {
            return false;
        }
    }
    true
}

//! Where the column of a name stands: where it is likely to stand is tried first.
ghost use Rattle.std.specs.Prelude.{◌≡◌, true, Some, slice_get};
ghost use Rattle.col_writer.specs.Places.{names_of, ArePlaced, IsPlaceOf};

use std::collections::BTreeMap;

// The place of a name: the one behind the last that was found, the first, the last one once more,
// or else that by the order of the names.
#[inline]
pub(super) fn place_of<C>(
    columns: &[(String, C)],
    places: &BTreeMap<String, usize>,
    last: usize,
    name: &str,
) -> Option<usize>
    requires { ArePlaced (names_of columns.now) places.now }
    ensures { IsPlaceOf (names_of columns.now) name.now result }
{
    let next = last.wrapping_add(1);
    if is_at(columns, next, name) {
        return Some(next);
    }
    if is_at(columns, 0, name) {
        return Some(0);
    }
    if is_at(columns, last, name) {
        return Some(last);
    }
    places.get(name).copied()
}

// Whether the name stands at a place.
#[inline]
fn is_at<C>(columns: &[(String, C)], at: usize, name: &str) -> bool
    ensures { result ≡ true → slice_get (names_of columns.now) at ≡ Some name.now }
{
    match columns.get(at) {
        Some((key, _)) => key.as_str() == name,
        None => false,
    }
}

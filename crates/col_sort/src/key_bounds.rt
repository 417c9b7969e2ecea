//! The least and the greatest key, as columns state them: a hint, which no contract speaks of.
ghost use Rattle.std.specs.Prelude.{◌≡◌, ◌<◌, ◌^◌, length};
ghost use Rattle.col_sort_rows.specs.Keys.{no_rows};

use crate::key_of::KeyOf;
use col_column::Column;
use col_common::RowId;
use col_sort_rows::{KeyedRows, SortKey};
use col_values::ColumnValues;
use std::alloc::Global;

/// The keys of the least and of the greatest value that a column states, where it has values.
pub(crate) fn stated_bounds<T, V, K, M>(column: &Column<T, V>, keys: &M) -> Option<(K, K)>
where
    T: PartialOrd + Copy,
    V: ColumnValues<T>,
    M: KeyOf<T, K>,
{
    if column.values().num_vals() == 0 {
        return None;
    }
    let least = keys.key_of(column.min_value());
    Some((least, keys.key_of(column.max_value())))
}

/// The bounds of all that lies within these or those.
pub(crate) fn joined_bounds<K: SortKey>(
    these: Option<(K, K)>,
    those: Option<(K, K)>,
) -> Option<(K, K)> {
    match (these, those) {
        (Some(these), Some(those)) => Some((these.0.min(those.0), these.1.max(those.1))),
        (Some(these), None) => Some(these),
        (None, those) => those,
    }
}

/// No rows, with a hint of the least and the greatest key and of how many rows segments have.
pub(crate) fn rows_between<K: SortKey>(
    alloc: Global,
    bounds: Option<(K, K)>,
    counts: &[RowId],
) -> KeyedRows<K>
    requires { length counts.now < 2 ^ 32 }
    ensures { result ≡ no_rows }
{
    match bounds {
        Some((least, greatest)) => {
            KeyedRows::with_bounds(
                alloc,
                least,
                greatest,
                counts.len() as u32,
                most_rows(counts),
            )
        }
        None => KeyedRows::new(alloc),
    }
}

// The greatest of the counts.
fn most_rows(counts: &[RowId]) -> RowId {
    let mut most = 0;
    for &count in counts {
        most = count.max(most);
    }
    most
}

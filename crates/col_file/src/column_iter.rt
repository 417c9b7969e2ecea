//! The columns of a file, one after another.
ghost use Rattle.std.specs.Prelude.{◌≡◌, map};
ghost use Rattle.col_file.specs.Handles.{listed};

use crate::columnar_keys::ColumnarKeys;
use crate::dynamic_column_handle::DynamicColumnHandle;
use std::marker::Model;

/// The columns of a file, by name, then by the type's code: each name with its handle. Contracts
/// see those that are left.
#[derive(Drop)]
pub struct ColumnIter<'a> {
    keys: &'a ColumnarKeys,
    next: usize,
}

impl<'a> Model for ColumnIter<'a> {
    ghost use Rattle.std.specs.Prelude.{ℕ, ◌≤◌, List, map, drop, length};
    ghost use Rattle.col_file.specs.Handles.{Handle, listed};

    ghost Value = { List (List ℕ × Handle) };

    ghost view = { λ s. map listed (drop s.next s.keys.now.entries) };

    ghost invariant = { λ s. s.next ≤ length s.keys.now.entries };
}

impl<'a> ColumnIter<'a> {
    pub(crate) fn new(keys: &'a ColumnarKeys) -> ColumnIter<'a>
        ensures { result ≡ map listed keys.now.entries }
    {
        ColumnIter { keys, next: 0 }
    }
}

impl<'a> Iterator for ColumnIter<'a> {
    ghost use Rattle.std.specs.Iterator.{YieldsFirstBy, item_count};

    type Item = (&'a str, DynamicColumnHandle);

    ghost next_gives = { YieldsFirstBy (λ p. (p.0.now, p.1)) (λ left. left) };

    ghost remaining = { item_count (λ left. left) };

    fn next(&mut self) -> Option<(&'a str, DynamicColumnHandle)> {
        let keys = self.keys;
        if self.next == keys.num_columns() {
            return None;
        }
        let at = self.next;
        self.next = at + 1;
        Some((keys.name_at(at), keys.handle_at(at)))
    }
}

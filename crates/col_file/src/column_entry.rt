//! An entry of a file: the key of a column, and its place.
ghost use Rattle.std.specs.Prelude.{◌≡◌, ◌≤◌};

use col_keys::ColumnKey;
use std::cmp::Ordering;

// A key, and where its column's bytes start and end.
#[derive(Drop)]
pub(crate) struct ColumnEntry {
    pub(crate) key: ColumnKey,
    pub(crate) start: u64,
    pub(crate) end: u64,
    ghost ordered: { start ≤ «end» },
}

impl ColumnEntry {
    ghost use Rattle.std.specs.Ordering.{nat_cmp};
    ghost use Rattle.std.specs.Cmp.Lexicographic.{slice_cmp};
    ghost use Rattle.std.specs.Prelude.{string_bytes, length, take};

    // How the name compares.
    pub(crate) fn compare_name(&self, name: &str) -> Ordering
        ensures { result ≡ slice_cmp nat_cmp (string_bytes self.now.key.name) name.now }
    {
        self.key.name.as_str().cmp(name)
    }

    // How the front of the name compares, as many bytes as there are to compare with.
    pub(crate) fn compare_front(&self, front: &[u8]) -> Ordering
        ensures { result
            ≡ slice_cmp nat_cmp (take (length front.now) (string_bytes self.now.key.name))
            front.now }
    {
        let name = self.key.name.as_bytes();
        if name.len() <= front.len() {
            return name.cmp(front);
        }
        name[..front.len()].cmp(front)
    }
}

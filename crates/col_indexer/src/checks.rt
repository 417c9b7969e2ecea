//! Whether lists make up an index.
ghost use Rattle.std.specs.Prelude.{◌≡◌, ◌+◌, ◌==◌, ◌&&◌, ◌^◌, ◌↔◌, ◌∷◌, [], IsTrue, nat_eq, length};
ghost use Rattle.std.specs.List.{starts_with};
ghost use Rattle.col_common.specs.Ascending.{is_rising, are_below};
ghost use Rattle.col_indexer.specs.Spelling.{AreRowsOf32, AreOffsetsOf32};

use crate::serialize::{
    SerializableColumnIndex, SerializableMultivalueIndex, SerializableOptionalIndex,
};
use col_common::{Iterable, RowId};

// More than any start offset.
const OFFSETS_END: u64 = 1 << 32;

impl SerializableOptionalIndex<'_> {
    ghost use Rattle.col_indexer.specs.Written.{set_of};

    // Whether the rows rise and stay below their count.
    fn are_rows(&self) -> bool
        ensures { IsTrue result ↔ AreRowsOf32 (set_of self.now) }
    {
        rises_below(&self.non_null_row_ids, u64::from(self.num_rows))
    }
}

impl SerializableMultivalueIndex<'_> {
    ghost use Rattle.col_indexer.specs.Written.{row_offsets_of};

    // Whether the rows rise and stay below their count, and the start offsets are theirs.
    fn are_offsets(&self) -> bool
        ensures { IsTrue result ↔ AreOffsetsOf32 (row_offsets_of self.now) }
    {
        if !self.doc_ids_with_values.are_rows() {
            return false;
        }
        if !begins_with_zero(&self.start_offsets) {
            return false;
        }
        if !rises_below(&self.start_offsets, OFFSETS_END) {
            return false;
        }
        has_one_more(
            &self.start_offsets,
            &self.doc_ids_with_values.non_null_row_ids,
        )
    }
}

impl SerializableColumnIndex<'_> {
    ghost use Rattle.col_indexer.specs.Spelling.{IsIndex};
    ghost use Rattle.col_indexer.specs.Written.{index_of};

    /// Whether rows rise and stay below their count, and start offsets are theirs, as those who
    /// write it ask. The lists are walked once or twice.
    pub fn is_index(&self) -> bool
        ensures { IsTrue result ↔ IsIndex (index_of self.now) }
    {
        match self {
            SerializableColumnIndex::Full => true,
            SerializableColumnIndex::Optional(rows) => rows.are_rows(),
            SerializableColumnIndex::Multivalued(index) => index.are_offsets(),
        }
    }
}

// Whether the items of a list rise and stay below a bound.
fn rises_below<I: Iterable<RowId>>(list: &I, bound: u64) -> bool
    ensures { result ≡ (is_rising (I.items list.now) && are_below bound (I.items list.now)) }
{
    let mut at = list.walk();
    let mut next = 0;
    while let Some(item) = list.next(&mut at) {
        let number = u64::from(item);
        if number < next {
            return false;
        }
        if number >= bound {
            return false;
        }
        next = number + 1;
    }
    true
}

// Whether a list begins with 0.
#[tactic(auto, using(crate::proofs::CheckLemmas::zero_first))]
fn begins_with_zero<I: Iterable<RowId>>(list: &I) -> bool
    ensures { result ≡ starts_with nat_eq (I.items list.now) (0 ∷ []) }
{
    let mut at = list.walk();
    match list.next(&mut at) {
        Some(first) => first == 0,
        None => false,
    }
}

// Whether a list has one item more than another.
fn has_one_more<I: Iterable<RowId>, J: Iterable<RowId>>(list: &I, other: &J) -> bool
    ensures { result ≡ (length (I.items list.now) == length (J.items other.now) + 1) }
{
    let mut at = list.walk();
    let mut other_at = other.walk();
    while let Some(_other) = other.next(&mut other_at) {
        let Some(_item) = list.next(&mut at) else {
            return false;
        };
    }
    let Some(_last) = list.next(&mut at) else {
        return false;
    };
    match list.next(&mut at) {
        Some(_item) => false,
        None => true,
    }
}

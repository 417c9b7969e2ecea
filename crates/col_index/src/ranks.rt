//! What an index keeps beside a list of its rows to rank them.
ghost use Rattle.std.specs.Prelude.{length};
ghost use Rattle.std.specs.Prelude.{IfOk};
ghost use Rattle.col_common.specs.Decoding.{Decodes};
ghost use Rattle.col_numbers.specs.Readers.{list_of};
ghost use Rattle.col_index.specs.Ranks.{AreRanks};
ghost use Rattle.col_index.specs.RankedRows.{AreRankedRows};
ghost use Rattle.col_index.specs.Sets.{set_by};

use crate::rank_buckets::RankBuckets;
use crate::rank_words::RankWords;
use crate::rising::are_rising_rows;
use col_common::{ColumnarError, RowId};
use col_numbers::U64Values;
use col_values::ColumnValues;
use std::alloc::Global;

/// How many rows there are for each row with a value where these still get bits.
const MAX_ROWS_APART: u64 = 64;

/// How many rows there are where their list may be as short as it likes.
const MAX_FREE_ROWS: u32 = 1 << 20;

/// How many rows with a value a byte of their list may stand for, where there are more.
const MAX_ROWS_A_BYTE: u64 = 8;

/// What an index keeps beside a list of its rows: bits and two parts, or, where few rows have a
/// value, no bits and small parts. A list on a line has few bytes for any number of rows: where
/// these are many, it gets two parts alone, so that memory stays in proportion to the bytes.
#[derive(Drop)]
pub(crate) struct Ranks {
    pub words: RankWords,
    pub buckets: RankBuckets,
}

impl Ranks {
    /// The ranks of rows in a list of so many bytes, if they rise and stay below the count.
    pub(crate) fn from_rows(
        alloc: Global,
        num_rows: RowId,
        rows: &U64Values,
        num_bytes: usize,
    ) -> Result<Ranks, ColumnarError>
        ensures rows { Decodes (λ ranks. record { num_rows = num_rows; rows = list_of rows.now })
            result (set_by num_rows (list_of rows.now)) }
        ensures bits { IfOk result (λ ranks. AreRanks (list_of rows.now)
            ranks.words.words.items ranks.words.before.items) }
        ensures parts { IfOk result (λ ranks. AreRankedRows
            (record { num_rows = num_rows; rows = list_of rows.now }) ranks.buckets) }
    {
        if !has_bytes(num_rows, rows.num_vals(), num_bytes) {
            return Ranks::of_halves(alloc, num_rows, rows);
        }
        if u64::from(num_rows) <= MAX_ROWS_APART * u64::from(rows.num_vals()) {
            let words = RankWords::from_rows(alloc, num_rows, rows)?;
            let buckets = RankBuckets::of_halves(alloc, num_rows, rows)?;
            return Ok(Ranks { words, buckets });
        }
        let words = RankWords::empty(alloc);
        let buckets = RankBuckets::from_rows(alloc, num_rows, rows)?;
        Ok(Ranks { words, buckets })
    }
    // The same with two parts alone.
    fn of_halves(alloc: Global, num_rows: RowId, rows: &U64Values) -> Result<Ranks, ColumnarError>
        ensures rows { Decodes (λ ranks. record { num_rows = num_rows; rows = list_of rows.now })
            result (set_by num_rows (list_of rows.now)) }
        ensures bits { IfOk result (λ ranks. AreRanks (list_of rows.now)
            ranks.words.words.items ranks.words.before.items) }
        ensures parts { IfOk result (λ ranks. AreRankedRows
            (record { num_rows = num_rows; rows = list_of rows.now }) ranks.buckets) }
    {
        // That there are as many rows as 32 bits can tell is known of their count.
        let _count = rows.num_vals();
        if !are_rising_rows(num_rows, rows) {
            return Err(ColumnarError::InvalidData);
        }
        let words = RankWords::empty(alloc);
        let buckets = RankBuckets::of_halves(alloc, num_rows, rows)?;
        Ok(Ranks { words, buckets })
    }
}

// Whether a list has bytes for so many rows with a value, or there are few rows.
fn has_bytes(num_rows: RowId, num_vals: u32, num_bytes: usize) -> bool {
    num_rows <= MAX_FREE_ROWS || u64::from(num_vals) / MAX_ROWS_A_BYTE <= num_bytes as u64
}

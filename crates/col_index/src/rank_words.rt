//! Rows as bits with ranks.
ghost use Rattle.std.specs.Prelude.{◌≡◌, ◌≤◌, ◌<◌, ◌*◌, ◌/◌, ◌^◌, true, nat_lt, [], length, replicate};
ghost use Rattle.std.specs.Prelude.{IfOk, List, ℕ};
ghost use Rattle.col_common.specs.Decoding.{Decodes};
ghost use Rattle.col_common.specs.Flags.{flag_at};
ghost use Rattle.col_common.specs.Ascending.{is_rising};
ghost use Rattle.col_numbers.specs.Readers.{list_of};
ghost use Rattle.col_index.specs.Sets.{is_row_list, set_by};
ghost use Rattle.col_index.specs.Ranks.{AreCounts, AreRanks, HasFlags, ones_below};

use crate::rising::rising_row;
use col_common::{ColumnarError, RowId};
use col_numbers::U64Values;
use col_values::ColumnValues;
use std::alloc::{AllocError, Global};

/// The rows of a word.
pub const WORD_BITS: u32 = 64;

/// A bit for each row, which is set where it has a value, and for each word of bits how many are
/// set before it.
#[derive(Drop)]
pub struct RankWords {
    pub words: Vec<u64>,
    pub before: Vec<u32>,
}

impl RankWords {
    /// No bits.
    pub fn empty(alloc: Global) -> RankWords
        ensures words { result.words.items ≡ [] }
        ensures before { result.before.items ≡ [] }
    {
        RankWords {
            words: Vec::new(alloc),
            before: Vec::new(alloc),
        }
    }

    /// The bits of rows, if these rise and stay below the count.
    pub fn from_rows(
        alloc: Global,
        num_rows: RowId,
        rows: &U64Values,
    ) -> Result<RankWords, ColumnarError>
        ensures rows { Decodes (λ ranks. record { num_rows = num_rows; rows = list_of rows.now })
            result (set_by num_rows (list_of rows.now)) }
        ensures ranks { IfOk result (λ ranks.
            AreRanks (list_of rows.now) ranks.words.items ranks.before.items) }
        ensures room { IfOk result (λ ranks. num_rows ≤ 64 * length ranks.words.items) }
    {
        let mut words = vec![in alloc; 0; num_rows.div_ceil(WORD_BITS) as usize]?;
        if !set_rows(num_rows, rows, &mut words) {
            return Err(ColumnarError::InvalidData);
        }
        let before = count_before(alloc, &words)?;
        Ok(RankWords { words, before })
    }

    /// The same once more.
    pub fn try_clone(&self, alloc: Global) -> Result<RankWords, AllocError>
        ensures words { IfOk result (λ ranks. ranks.words.items ≡ self.now.words.items) }
        ensures before { IfOk result (λ ranks. ranks.before.items ≡ self.now.before.items) }
    {
        Ok(RankWords {
            words: Vec::from_clones(alloc, &self.words)?,
            before: Vec::from_clones(alloc, &self.before)?,
        })
    }

    /// Whether there is a bit for a row.
    #[inline(always)]
    pub fn reaches(&self, row: RowId) -> bool
        ensures { result ≡ nat_lt row (64 * length self.now.words.items) }
    {
        ((row / WORD_BITS) as usize) < self.words.len()
    }

    /// How many rows before a row have a value.
    #[inline(always)]
    pub fn rank(&self, row: RowId) -> RowId
        requires long { length self.now.before.items ≡ length self.now.words.items }
        requires row { row < 64 * length self.now.words.items }
        requires fits { ones_below self.now.words.items self.now.before.items row < 2 ^ 32 }
        ensures { result ≡ ones_below self.now.words.items self.now.before.items row }
    {
        let at = (row / WORD_BITS) as usize;
        let below = self.words[at] & ((1 << (row % WORD_BITS)) - 1);
        self.before[at] + below.count_ones()
    }

    /// Whether a row has a value.
    #[inline(always)]
    pub fn holds(&self, row: RowId) -> bool
        requires { row < 64 * length self.now.words.items }
        ensures { result ≡ flag_at self.now.words.items row }
    {
        (self.words[(row / WORD_BITS) as usize] >> (row % WORD_BITS)) & 1 == 1
    }
}

// Sets the bits of rows as far as they rise and stay below the count; whether all of them do.
fn set_rows(num_rows: RowId, rows: &U64Values, words: &mut [u64]) -> bool
    requires room { num_rows ≤ 64 * length words.old }
    requires clear { words.old ≡ replicate (length words.old) 0 }
    ensures rows { result ≡ is_row_list num_rows (list_of rows.now) }
    ensures flags { result ≡ true → HasFlags (list_of rows.now) words.new }
{
    let mut next = 0;
    for at in 0..rows.num_vals() {
        let Some(row) = rising_row(num_rows, next, rows, at) else {
            return false;
        };
        words[(row / WORD_BITS) as usize] |= 1 << (row % WORD_BITS);
        next = row + 1;
    }
    true
}

// How many bits are set before each word: where they are those of rows, how many of these stand
// before it.
pub(crate) fn count_before(alloc: Global, words: &[u64]) -> Result<Vec<u32>, AllocError>
    requires { length words.now ≤ 2 ^ 26 }
    ensures { IfOk result (λ before. (rows : List ℕ) → is_rising rows ≡ true
        → HasFlags rows words.now → AreCounts rows 64 (length words.now) before.items) }
{
    let mut before = Vec::with_capacity(alloc, words.len())?;
    let mut count = 0u64;
    for word in words {
        before.push(count as u32)?;
        count += u64::from(word.count_ones());
    }
    Ok(before)
}

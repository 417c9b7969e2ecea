//! Codes in place of numbers.
ghost use Rattle.std.specs.Prelude.{◌≡◌, ◌≤◌, length, drop};
ghost use Rattle.col_common.specs.Decoding.{Decodes};
ghost use Rattle.col_model.specs.Stats.{least_of, greatest_of};
ghost use Rattle.col_model.specs.AddressList.{code_count, coded_number};
ghost use Rattle.col_compact.specs.Coded.{coded_list};
ghost use Rattle.col_compact.specs.Hits.{hit_at};

use crate::compact_space::CompactHit;
use crate::decompressor::CompactSpaceDecompressor;
use bytes::Bytes;
use col_common::{ColumnarError, Iterable, RowId, Walk};
use col_values::{ColumnValues, Found, Rows};
use std::alloc::Global;
use std::marker::Model;

/// A list of numbers, seen as its codes.
#[derive(Drop)]
pub struct CompactSpaceU64Accessor {
    pub(crate) list: CompactSpaceDecompressor,
}

impl Model for CompactSpaceU64Accessor {
    ghost use Rattle.col_compact.specs.Coded.{Coded};

    ghost Value = { Coded };

    ghost view = { λ s. s.list };
}

impl CompactSpaceU64Accessor {
    /// Reads a list's codes and their footer.
    pub fn open(alloc: Global, bytes: Bytes) -> Result<CompactSpaceU64Accessor, ColumnarError>
        ensures { Decodes (λ list. list) result (coded_list bytes) }
    {
        Ok(CompactSpaceU64Accessor {
            list: CompactSpaceDecompressor::open(alloc, bytes)?,
        })
    }

    /// The number that a code stands for.
    pub fn compact_to_u128(&self, compact: u32) -> u128
        requires first { 1 ≤ compact }
        requires last { compact ≤ code_count self.now.ranges }
        ensures { result ≡ coded_number self.now.ranges compact }
    {
        self.list.compact_to_u128(compact)
    }

    /// The code of a number, else of the next one that a range has.
    pub fn u128_to_next_compact(&self, value: u128) -> CompactHit
        ensures { result ≡ hit_at self.now.ranges value }
    {
        self.list.u128_to_next_compact(value)
    }

    /// The greatest code that a number may have.
    pub fn max_code(&self) -> u32
        ensures { result ≡ code_count self.now.ranges }
    {
        self.list.max_code()
    }
}

impl ColumnValues<u64> for CompactSpaceU64Accessor {
    ghost values = { λ list. list.codes };

    ghost IsLeast = { λ list v. v ≡ least_of list.codes };

    ghost IsGreatest = { λ list v. v ≡ greatest_of list.codes };

    fn num_vals(&self) -> u32 {
        self.list.count()
    }

    #[inline(always)]
    fn get_val(&self, idx: u32) -> u64 {
        u64::from(self.list.get_compact(idx))
    }

    fn min_value(&self) -> u64 {
        let (least, _greatest) = self.list.code_bounds();
        u64::from(least)
    }

    fn max_value(&self) -> u64 {
        let (_least, greatest) = self.list.code_bounds();
        u64::from(greatest)
    }

    fn get_row_ids_between(&self, low: u64, high: u64, rows: Rows, hits: &mut Vec<RowId>) -> Found {
        self.list.get_row_ids_by_codes(low..=high, rows, hits)
    }
}

impl Iterable<u64> for CompactSpaceU64Accessor {
    ghost items = { λ list. list.codes };

    ghost stands = { λ list w. w.place ≤ length list.codes };

    ghost left = { λ list w. drop w.place list.codes };

    fn walk(&self) -> Walk {
        self.iter().walk()
    }

    #[inline]
    fn next(&self, at: &mut Walk) -> Option<u64> {
        self.iter().next(at)
    }
}

//! Lists of numbers, read in place behind their codes.
ghost use Rattle.std.specs.Prelude.{◌≡◌, ℕ, ◌<◌, ◌≤◌, ◌+◌, length, drop, slice_get, Some, true};
ghost use Rattle.std.specs.Int.{is_in_range};
ghost use Rattle.std.specs.List.{list_all};
ghost use Rattle.std.specs.Range.{range_inclusive_start, range_inclusive_end};
ghost use Rattle.col_common.specs.Ascending.{is_rising};
ghost use Rattle.col_common.specs.Decoding.{Decodes};
ghost use Rattle.col_common.specs.Replacing.{Replaces};
ghost use Rattle.col_model.specs.Stats.{least_of, greatest_of};
ghost use Rattle.col_model.specs.AddressList.{coded_values, code_count, coded_number};
ghost use Rattle.col_values.specs.Codes.{number_cmp};
ghost use Rattle.col_values.specs.Values.{hits_between};
ghost use Rattle.col_compact.specs.Coded.{coded_list, numbers_of, NumbersRise};
ghost use Rattle.col_compact.specs.Hits.{hit_at};

use crate::codec_params::IPCodecParams;
use crate::coded::read_list;
use crate::compact_space::CompactHit;
use crate::packed_codes::{PackedCodes, find_numbers};
use bytes::Bytes;
use col_common::{ColumnarError, Iterable, RowId, Steps, Walk};
use col_values::{ColumnValues, Found, Rows};
use std::alloc::Global;
use std::marker::{Brand, Model};
use std::ops::{Range, RangeInclusive};
use std::sync::ledger::{Blank, Ledger};

/// A list of numbers that is read in place. A contract sees its ranges and the codes of its
/// numbers.
#[derive(Drop)]
pub struct CompactSpaceDecompressor {
    data: Bytes,
    params: IPCodecParams,
}

impl Model for CompactSpaceDecompressor {
    ghost use Rattle.col_compact.specs.Coded.{Coded, coded_in, IsReader};

    ghost Value = { Coded };

    ghost view = { λ s. coded_in s.params s.data };

    ghost invariant = { λ s. IsReader s.params s.data };
}

impl CompactSpaceDecompressor {
    /// Reads a list's codes and their footer.
    pub fn open(alloc: Global, bytes: Bytes) -> Result<CompactSpaceDecompressor, ColumnarError>
        ensures codes { Decodes (λ list. list) result (coded_list bytes) }
        ensures numbers { Decodes numbers_of result (coded_values bytes) }
    {
        let (params, len) = read_list(alloc, bytes.as_slice())?;
        params.codes_have_their_width();
        let mut data = bytes;
        data.truncate(len);
        Ok(CompactSpaceDecompressor { data, params })
    }

    /// The number at an index.
    #[inline(always)]
    pub fn get(&self, idx: u32) -> u128
        requires { idx < length self.now.codes }
        ensures { slice_get (numbers_of self.now) idx ≡ Some result }
    {
        let code = self.get_compact(idx);
        self.params.compact_to_u128(code)
    }

    /// The code of the number at an index.
    #[inline(always)]
    pub fn get_compact(&self, idx: u32) -> u32
        requires { idx < length self.now.codes }
        ensures value { slice_get self.now.codes idx ≡ Some result }
        ensures first { 1 ≤ result }
        ensures last { result ≤ code_count self.now.ranges }
    {
        self.params.bit_unpacker().get(idx, self.data.as_slice()) as u32
    }

    /// The least number, 0 of none.
    pub fn min_value(&self) -> u128
        ensures { result ≡ least_of (numbers_of self.now) }
    {
        self.params.min_value()
    }

    /// The greatest number, 0 of none.
    pub fn max_value(&self) -> u128
        ensures { result ≡ greatest_of (numbers_of self.now) }
    {
        self.params.max_value()
    }

    // How many numbers there are.
    pub(crate) fn count(&self) -> u32
        ensures { result ≡ length self.now.codes }
    {
        self.params.num_vals()
    }

    /// The least and the greatest code, 0 without numbers.
    pub fn code_bounds(&self) -> (u32, u32)
        ensures least { result.0 ≡ least_of self.now.codes }
        ensures greatest { result.1 ≡ greatest_of self.now.codes }
    {
        self.params.codes_have_their_width();
        if self.params.num_vals() == 0 {
            return (0, 0);
        }
        (1, self.params.max_code())
    }

    /// The greatest code that a number may have.
    pub fn max_code(&self) -> u32
        ensures { result ≡ code_count self.now.ranges }
    {
        self.params.max_code()
    }

    /// That a greater code stands for a greater number.
    pub fn numbers_rise(&self)
        ensures { NumbersRise self.now.ranges }
    {
        self.params.codes_have_their_width();
    }

    /// The number that a code stands for.
    pub fn compact_to_u128(&self, compact: u32) -> u128
        requires first { 1 ≤ compact }
        requires last { compact ≤ code_count self.now.ranges }
        ensures { result ≡ coded_number self.now.ranges compact }
    {
        self.params.compact_to_u128(compact)
    }

    /// The code of a number, else of the next one that a range has.
    pub fn u128_to_next_compact(&self, value: u128) -> CompactHit
        ensures { result ≡ hit_at self.now.ranges value }
    {
        self.params.u128_to_next_compact(value)
    }

    /// The positions in a range whose numbers are from the first to the last, ascending. Both ends
    /// become codes, each by a step.
    pub fn get_row_ids_counted<L: Ledger>(
        &self,
        value_range: RangeInclusive<u128>,
        row_ids: Range<RowId>,
        hits: &mut Vec<RowId>,
        steps: &mut Steps<L>,
    ) -> Result<(), ColumnarError>
        ensures ok { Replaces result hits.new.items
            (hits_between number_cmp (numbers_of self.now) (range_inclusive_start value_range)
            (range_inclusive_end value_range) row_ids.start row_ids.end) }
        ensures rises { is_rising hits.new.items ≡ true }
        ensures steps { steps.new ≤ steps.old + 2 }
    {
        let (low, high) = value_range.into_inner();
        let codes = self.params.counted_codes::<L>();
        find_numbers(
            &self.packed_codes(),
            &codes,
            low,
            high,
            row_ids,
            hits,
            steps,
        )
    }

    // The same by codes.
    pub(crate) fn get_row_ids_by_codes(
        &self,
        codes: RangeInclusive<u64>,
        row_ids: Range<RowId>,
        hits: &mut Vec<RowId>,
    ) -> Result<(), ColumnarError>
        ensures ok { Replaces result hits.new.items
            (hits_between number_cmp self.now.codes (range_inclusive_start codes)
            (range_inclusive_end codes) row_ids.start row_ids.end) }
        ensures rises { is_rising hits.new.items ≡ true }
    {
        self.packed_codes().find(codes, row_ids, hits)
    }

    // The packed codes of the numbers.
    fn packed_codes(&self) -> PackedCodes<'_>
        ensures value { result ≡ self.now.codes }
        ensures codes { list_all (is_in_range 1 (code_count self.now.ranges)) self.now.codes
            ≡ true }
    {
        PackedCodes::new(
            self.params.bit_unpacker(),
            self.data.as_slice(),
            self.params.num_vals(),
        )
    }
}

// The same where steps count in a new ledger.
fn find_row_ids<L: Ledger>(
    list: &CompactSpaceDecompressor,
    value_range: RangeInclusive<u128>,
    row_ids: Range<RowId>,
    hits: &mut Vec<RowId>,
    blank: Blank,
) -> Result<(), ColumnarError>
    requires name { blank.name ≡ L.name }
    requires parts { blank.parts ≡ L.parts }
    requires some { 0 < blank.parts }
    ensures { Replaces result hits.new.items
        (hits_between number_cmp (numbers_of list.now) (range_inclusive_start value_range)
        (range_inclusive_end value_range) row_ids.start row_ids.end) }
{
    let mut steps = Steps::<L>::new(blank);
    list.get_row_ids_counted(value_range, row_ids, hits, &mut steps)
}

impl ColumnValues<u128> for CompactSpaceDecompressor {
    ghost values = { numbers_of };

    ghost IsLeast = { λ list v. v ≡ least_of (numbers_of list) };

    ghost IsGreatest = { λ list v. v ≡ greatest_of (numbers_of list) };

    fn num_vals(&self) -> u32 {
        self.params.num_vals()
    }

    #[inline(always)]
    fn get_val(&self, idx: u32) -> u128 {
        self.get(idx)
    }

    fn min_value(&self) -> u128 {
        CompactSpaceDecompressor::min_value(self)
    }

    fn max_value(&self) -> u128 {
        CompactSpaceDecompressor::max_value(self)
    }

    fn get_row_ids_between(
        &self,
        low: u128,
        high: u128,
        rows: Rows,
        hits: &mut Vec<RowId>,
    ) -> Found {
        find_row_ids::<Brand>(self, low..=high, rows, hits, Blank::new(1))
    }
}

impl Iterable<u128> for CompactSpaceDecompressor {
    ghost items = { numbers_of };

    ghost stands = { λ list w. w.place ≤ length (numbers_of list) };

    ghost left = { λ list w. drop w.place (numbers_of list) };

    fn walk(&self) -> Walk {
        self.iter().walk()
    }

    #[inline]
    fn next(&self, at: &mut Walk) -> Option<u128> {
        self.iter().next(at)
    }
}

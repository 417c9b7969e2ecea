//! The packed codes of a list, and the lookup that is lent nothing else.
ghost use Rattle.std.specs.Prelude.{◌≡◌, ◌≤◌, ◌+◌, map, true};
ghost use Rattle.std.specs.Int.{is_in_range};
ghost use Rattle.std.specs.List.{list_all};
ghost use Rattle.std.specs.Range.{range_inclusive_start, range_inclusive_end};
ghost use Rattle.col_bits.specs.Packed.{items};
ghost use Rattle.col_common.specs.Ascending.{is_rising};
ghost use Rattle.col_common.specs.Replacing.{Replaces};
ghost use Rattle.col_model.specs.AddressList.{code_count, coded_number};
ghost use Rattle.col_values.specs.Codes.{number_cmp};
ghost use Rattle.col_values.specs.Values.{hits_between};

use crate::counted_codes::CountedCodes;
use col_bits::BitUnpacker;
use col_common::{ColumnarError, RowId, Steps};
use col_values::{Found, Rows};
use std::marker::Model;
use std::ops::{Range, RangeInclusive};
use std::sync::ledger::Ledger;

/// The packed codes of a list. A contract sees the codes.
#[derive(Drop)]
pub(crate) struct PackedCodes<'a> {
    bit_unpacker: BitUnpacker,
    bytes: &'a [u8],
    count: u32,
}

impl<'a> Model for PackedCodes<'a> {
    ghost use Rattle.std.specs.Prelude.{List, ℕ};
    ghost use Rattle.col_bits.specs.Packed.{items};

    ghost Value = { List ℕ };

    ghost view = { λ p. items p.bytes.now p.bit_unpacker 0 p.count };
}

impl<'a> PackedCodes<'a> {
    /// So many codes that stand in bytes.
    pub(crate) fn new(bit_unpacker: BitUnpacker, bytes: &'a [u8], count: u32) -> PackedCodes<'a>
        ensures { result ≡ items bytes.now bit_unpacker 0 count }
    {
        PackedCodes {
            bit_unpacker,
            bytes,
            count,
        }
    }

    /// The positions in a range whose codes are from the first to the last, ascending.
    pub fn find(&self, codes: RangeInclusive<u64>, rows: Rows, hits: &mut Vec<RowId>) -> Found
        ensures ok { Replaces result hits.new.items
            (hits_between number_cmp self.now (range_inclusive_start codes)
            (range_inclusive_end codes) rows.start rows.end) }
        ensures rises { is_rising hits.new.items ≡ true }
    {
        let ids = rows.start..rows.end.min(self.count);
        let found = self
            .bit_unpacker
            .get_ids_for_value_range(codes, ids, self.bytes, hits);
        match found {
            Ok(()) => Ok(()),
            Err(_) => Err(ColumnarError::OutOfMemory),
        }
    }
}

/// The positions in a range whose numbers are from `low` to `high`, ascending. Only `codes` turns
/// numbers into codes or codes into numbers, and each turn is a step of `steps`: no other ledger is
/// its own.
pub(crate) fn find_numbers<L: Ledger>(
    packed: &PackedCodes<'_>,
    codes: &CountedCodes<'_, L>,
    low: u128,
    high: u128,
    row_ids: Range<RowId>,
    hits: &mut Vec<RowId>,
    steps: &mut Steps<L>,
) -> Result<(), ColumnarError>
    requires { list_all (is_in_range 1 (code_count codes.now)) packed.now ≡ true }
    ensures ok { Replaces result hits.new.items
        (hits_between number_cmp (map (coded_number codes.now) packed.now) low high
        row_ids.start row_ids.end) }
    ensures rises { is_rising hits.new.items ≡ true }
    ensures steps { steps.new ≤ steps.old + 2 }
{
    packed.find(codes.codes_between(low, high, steps), row_ids, hits)
}

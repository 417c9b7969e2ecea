//! The bytes of ranges, and of what is said of numbers behind their codes.
ghost use Rattle.std.specs.Prelude.{◌≡◌, ◌++◌, ◌∷◌, List, ℕ, Some};
ghost use Rattle.std.specs.List.{flat_map};
ghost use Rattle.col_common.specs.Serializing.{Serializes};
ghost use Rattle.col_common.specs.VInt.{vint_bytes};
ghost use Rattle.col_model.specs.AddressList.{ranges_at, address_footer_at};
ghost use Rattle.col_compact.specs.Mapped.{IsSpace, ranges_of};
ghost use Rattle.col_compact.specs.Written.{pairs_of, pair_bytes, ranges_bytes, footer_bytes};

use crate::codec_params::IPCodecParams;
use crate::compact_space::CompactSpace;
use crate::kept_range::KeptRange;
use col_common::{ColumnarError, Sink, VInt, VIntU128, serialize_bytes};

// How many bytes at the front of a footer are 0.
const FLAGS_LEN: usize = 8;

impl CompactSpace {
    /// Adds the count of the ranges, and for each how far it starts above the end before it, and
    /// how far it reaches.
    pub fn serialize<K: Sink>(&self, sink: &mut K) -> Result<(), ColumnarError>
        ensures ok { Serializes (K.seen sink.old) (K.seen sink.new) result (ranges_bytes self.now) }
        // What was added reads back, whatever follows.
        ensures again { (rest : List ℕ) →
            ranges_at (ranges_bytes self.now ++ rest) ≡ Some (self.now, rest) }
    {
        let ranges = self.ranges_mapping.as_slice();
        VInt(ranges.len() as u64).serialize(sink)?;
        serialize_ranges(ranges, sink)
    }
}

// Adds the ranges.
fn serialize_ranges<K: Sink>(ranges: &[KeptRange], sink: &mut K) -> Result<(), ColumnarError>
    requires { IsSpace ranges.now }
    ensures { Serializes (K.seen sink.old) (K.seen sink.new) result
        (flat_map pair_bytes (pairs_of 0 (ranges_of ranges.now))) }
{
    let mut before = 0;
    for range in ranges {
        let range = range.get();
        serialize_pair(range.start - before, range.end - range.start, sink)?;
        before = range.end;
    }
    Ok(())
}

// Adds two numbers.
fn serialize_pair<K: Sink>(first: u128, second: u128, sink: &mut K) -> Result<(), ColumnarError>
    ensures { Serializes (K.seen sink.old) (K.seen sink.new) result
        (vint_bytes first ++ vint_bytes second) }
{
    VIntU128(first).serialize(sink)?;
    VIntU128(second).serialize(sink)
}

impl IPCodecParams {
    /// Adds the bytes of the parameters.
    pub fn serialize<K: Sink>(&self, sink: &mut K) -> Result<(), ColumnarError>
        ensures ok { Serializes (K.seen sink.old) (K.seen sink.new) result (footer_bytes self.now) }
        // What was added reads back, whatever follows.
        ensures again { (rest : List ℕ) →
            address_footer_at (footer_bytes self.now ++ rest) ≡ Some (self.now, rest) }
    {
        let space = &self.compact_space;
        space.footers_are_read_back(self.num_vals);
        serialize_footer(
            space,
            space.min_value(),
            space.max_value(),
            self.num_vals,
            self.bit_unpacker.bit_width(),
            sink,
        )
    }
}

/// Adds a footer.
pub(crate) fn serialize_footer<K: Sink>(
    compact_space: &CompactSpace,
    min_value: u128,
    max_value: u128,
    num_vals: u32,
    num_bits: u8,
    sink: &mut K,
) -> Result<(), ColumnarError>
    ensures { Serializes (K.seen sink.old) (K.seen sink.new) result (footer_bytes (record {
      least = min_value;
      greatest = max_value;
      count = num_vals;
      code_width = num_bits;
      ranges = compact_space.now;
    })) }
{
    serialize_bytes(sink, &[0; FLAGS_LEN])?;
    serialize_pair(min_value, max_value, sink)?;
    serialize_counts(compact_space, num_vals, num_bits, sink)
}

// What follows the bounds.
fn serialize_counts<K: Sink>(
    compact_space: &CompactSpace,
    num_vals: u32,
    num_bits: u8,
    sink: &mut K,
) -> Result<(), ColumnarError>
    ensures { Serializes (K.seen sink.old) (K.seen sink.new) result
        (vint_bytes num_vals ++ (num_bits ∷ ranges_bytes compact_space.now)) }
{
    VIntU128(u128::from(num_vals)).serialize(sink)?;
    serialize_space(compact_space, num_bits, sink)
}

// What follows the count.
fn serialize_space<K: Sink>(
    compact_space: &CompactSpace,
    num_bits: u8,
    sink: &mut K,
) -> Result<(), ColumnarError>
    ensures { Serializes (K.seen sink.old) (K.seen sink.new) result
        (num_bits ∷ ranges_bytes compact_space.now) }
{
    serialize_bytes(sink, &[num_bits])?;
    compact_space.serialize(sink)
}

//! Values by position, by the steps that are packed.
ghost use Rattle.std.specs.Prelude.{◌≡◌, ◌<◌, ◌+◌, ◌*◌, ◌^◌, length, map, Some};
ghost use Rattle.std.specs.List.{AllByRecursion};
ghost use Rattle.col_bits.specs.Packed.{item};

use crate::column_stats::ColumnStats;
use col_bits::BitUnpacker;

/// The values at positions: what doesn't change is read before the loop.
pub(crate) fn read_vals(
    stats: &ColumnStats,
    bit_unpacker: BitUnpacker,
    bytes: &[u8],
    indexes: &[u32],
    output: &mut [u64],
)
    requires fit { AllByRecursion (λ i. stats.now.min_value
        + stats.now.gcd * item bytes.now bit_unpacker i < 2 ^ 64) indexes.now }
    requires alike { length indexes.now ≡ length output.old }
    ensures { output.new ≡ map (λ i. stats.now.min_value
        + stats.now.gcd * item bytes.now bit_unpacker i) indexes.now }
{
    let ColumnStats { gcd, min_value, .. } = *stats;
    for at in 0..indexes.len() {
        output[at] = min_value + gcd * bit_unpacker.get(indexes[at], bytes);
    }
}

/// The same, each found.
pub(crate) fn find_vals(
    stats: &ColumnStats,
    bit_unpacker: BitUnpacker,
    bytes: &[u8],
    indexes: &[u32],
    output: &mut [Option<u64>],
)
    requires fit { AllByRecursion (λ i. stats.now.min_value
        + stats.now.gcd * item bytes.now bit_unpacker i < 2 ^ 64) indexes.now }
    requires alike { length indexes.now ≡ length output.old }
    ensures { output.new ≡ map (λ i. Some (stats.now.min_value
        + stats.now.gcd * item bytes.now bit_unpacker i)) indexes.now }
{
    let ColumnStats { gcd, min_value, .. } = *stats;
    for at in 0..indexes.len() {
        output[at] = Some(min_value + gcd * bit_unpacker.get(indexes[at], bytes));
    }
}

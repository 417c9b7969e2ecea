//! Blocks of values on their way into packed lists.
ghost use Rattle.std.specs.Prelude.{◌≡◌, ◌<◌, ◌≤◌, ◌^◌, ◌++◌, length, take, drop, min, OnOk};
ghost use Rattle.col_common.specs.Ascending.{AreBelow};
ghost use Rattle.col_model.specs.Codecs.{steps_above};
ghost use Rattle.col_codecs.specs.ColumnStats.{stats_seen, IsAbove};
ghost use Rattle.std.specs.List.{AllByRecursion};
ghost use Rattle.col_bits.specs.Packed.{packed_bytes};

use crate::column_stats::ColumnStats;
use col_bits::BitPacker;
use col_common::{Iterable, U64_NUM_BYTES, Walk};
use col_model::BLOCK_SIZE;
use std::alloc::AllocError;

/// How many values a block has, as a count of rows; the last one may have fewer.
pub const BLOCK_LEN: u32 = BLOCK_SIZE as u32;

/// The most bytes of a packed block.
pub const MAX_BLOCK_NUM_BYTES: usize = BLOCK_SIZE * U64_NUM_BYTES;

/// Turns values into how many divisors each lies above the least.
pub fn take_steps(stats: &ColumnStats, vals: &mut [u64])
    requires { AllByRecursion (IsAbove (stats_seen stats.now)) vals.old }
    ensures { vals.new ≡ steps_above (stats_seen stats.now) vals.old }
{
    let ColumnStats { gcd, min_value, .. } = *stats;
    if gcd == 1 {
        for at in 0..vals.len() {
            vals[at] -= min_value;
        }
    } else {
        for at in 0..vals.len() {
            vals[at] = (vals[at] - min_value) / gcd;
        }
    }
}

/// Appends the packed list of a block's values.
pub fn pack_block(vals: &[u64], num_bits: u8, output: &mut Vec<u8>) -> Result<(), AllocError>
    requires width { num_bits ≤ 64 }
    requires small { AreBelow (2 ^ num_bits) vals.now }
    ensures { OnOk result (output.new.items ≡ output.old.items ++ packed_bytes num_bits vals.now) }
{
    let mut packer = BitPacker::new();
    for value in vals {
        packer.write(*value, num_bits, output)?;
    }
    packer.close(output)
}

/// Takes the next values of a walk, as many as there are and the block has room for, and says how
/// many.
pub fn take_block<I: Iterable<u64>>(vals: &I, at: &mut Walk, block: &mut [u64]) -> usize
    requires { I.stands vals.now at.old }
    ensures stands { I.stands vals.now at.new }
    ensures count { result ≡ min (length block.old) (length (I.left vals.now at.old)) }
    ensures taken { take result block.new ≡ take result (I.left vals.now at.old) }
    ensures left { I.left vals.now at.new ≡ drop result (I.left vals.now at.old) }
{
    let mut taken = 0;
    while taken < block.len() {
        let Some(value) = vals.next(at) else {
            break;
        };
        block[taken] = value;
        taken += 1;
    }
    taken
}

//! Lists in blocks, read in place.
ghost use Rattle.std.specs.Prelude.{◌≡◌, ◌≤◌, ◌+◌, ◌*◌, ◌%◌, ◌^◌, map, length, drop, take, IfOk};
ghost use Rattle.std.specs.List.{range_with_len};
ghost use Rattle.col_common.specs.Decoding.{Decodes};
ghost use Rattle.col_codecs.specs.ColumnStats.{stats_seen, IsPossible};
ghost use Rattle.col_codecs.specs.Header.{list_by};
ghost use Rattle.col_model.specs.Codecs.{block_size};
ghost use Rattle.col_codecs.specs.BlockBounds.{Enclose};
ghost use Rattle.col_codecs.specs.Blocks.{item_of, items_in, step_in, step_of, IsReader};

use super::block::{Block, place_blocks, read_blocks};
use crate::block_bounds::Bounds;
use crate::bounded_items::{BoundedItems, find_ids, read_bounds};
use crate::column_stats::ColumnStats;
use crate::packing::BLOCK_LEN;
use bytes::Bytes;
use col_common::{ColumnarError, Iterable, RowId, Walk, split_by_second};
use col_values::{ColumnValues, Found, Rows};
use std::alloc::{AllocError, Global};
use std::marker::Model;

/// A list in blocks that is read in place.
#[derive(Drop)]
pub struct BlockwiseLinearReader {
    data: Bytes,
    blocks: Vec<Block>,
    stats: ColumnStats,
    // The bounds of each 1,024 items.
    bounds: Vec<Bounds>,
}

impl Model for BlockwiseLinearReader {
    ghost use Rattle.std.specs.Prelude.{List, ℕ};
    ghost use Rattle.col_codecs.specs.ColumnStats.{stats_seen};
    ghost use Rattle.col_codecs.specs.BlockBounds.{Enclose};
    ghost use Rattle.col_codecs.specs.Blocks.{item_of, step_of, items_in, IsReader};

    ghost Value = { List ℕ };

    ghost view = { λ r. items_in (stats_seen r.stats) r.blocks.items r.data };

    ghost invariant = { λ r. IsReader (stats_seen r.stats) r.blocks.items r.data
        × Enclose r.bounds.items
        (λ i. item_of (stats_seen r.stats) (step_of r.blocks.items r.data i)) r.stats.num_rows };
}

impl BlockwiseLinearReader {
    /// Opens the blocks behind statistics, which must be those of the list.
    pub fn open(
        alloc: Global,
        stats: ColumnStats,
        bytes: Bytes,
    ) -> Result<BlockwiseLinearReader, ColumnarError>
        requires { IsPossible (stats_seen stats) }
        ensures { Decodes (λ list. list) result (list_by 2 (stats_seen stats) bytes) }
    {
        let (blocks, bounds, len) = read_list(alloc, &stats, bytes.as_slice())?;
        let mut data = bytes;
        data.truncate(len);
        Ok(BlockwiseLinearReader {
            data,
            blocks,
            stats,
            bounds,
        })
    }

    /// The same list once more, which shares its bytes.
    pub fn try_clone(&self, alloc: Global) -> Result<BlockwiseLinearReader, AllocError>
        ensures { IfOk result (λ r. r ≡ self.now) }
    {
        Ok(BlockwiseLinearReader {
            data: self.data.slice(..)?,
            blocks: self.blocks.to_vec(alloc)?,
            stats: self.stats,
            bounds: self.bounds.to_vec(alloc)?,
        })
    }
}

// The blocks of a list behind statistics, which must be its own, the bounds of its items, and how
// many bytes the offsets take.
fn read_list(
    alloc: Global,
    stats: &ColumnStats,
    bytes: &[u8],
) -> Result<(Vec<Block>, Vec<Bounds>, usize), ColumnarError>
    ensures list { Decodes
        (λ r. items_in (stats_seen stats.now) r.0.items (take r.2 bytes.now)) result
        (list_by 2 (stats_seen stats.now) bytes.now) }
    ensures reader { IfOk result
        (λ r. IsReader (stats_seen stats.now) r.0.items (take r.2 bytes.now)) }
    ensures bounds { IfOk result (λ r. Enclose r.1.items
        (λ i. item_of (stats_seen stats.now) (step_of r.0.items (take r.2 bytes.now) i))
        stats.now.num_rows) }
{
    let Some((data, lines)) = split_by_second(bytes) else {
        return Err(ColumnarError::InvalidData);
    };
    let mut blocks = read_blocks(alloc, stats.num_rows.div_ceil(BLOCK_LEN), lines)?;
    if !place_blocks(stats.num_rows, &mut blocks, data) {
        return Err(ColumnarError::InvalidData);
    }
    let items = ItemsInBlocks {
        stats: *stats,
        blocks: &blocks,
        bytes: data,
    };
    let (found, bounds) = read_bounds(alloc, &items, stats.num_rows)?;
    if !found.is_same(stats) {
        return Err(ColumnarError::InvalidData);
    }
    Ok((blocks, bounds, data.len()))
}

impl ColumnValues<u64> for BlockwiseLinearReader {
    ghost use Rattle.std.specs.Prelude.{◌≡◌, ◌<◌};
    ghost use Rattle.col_model.specs.Stats.{least_of, greatest_of};

    ghost values = { λ r. r };

    ghost IsLeast = { λ r v. v ≡ least_of r };

    ghost IsGreatest = { λ r v. v ≡ greatest_of r };

    #[inline(always)]
    fn num_vals(&self) -> u32 {
        self.stats.num_rows
    }

    #[inline(always)]
    fn get_val(&self, idx: u32) -> u64 {
        let block = &self.blocks[(idx / BLOCK_LEN) as usize];
        let step = block.step_at(idx % BLOCK_LEN, self.data.as_slice());
        self.stats
            .min_value
            .wrapping_add(self.stats.gcd.wrapping_mul(step))
    }

    fn min_value(&self) -> u64 {
        self.stats.min_value
    }

    fn max_value(&self) -> u64 {
        self.stats.max_value
    }

    fn get_range(&self, start: u64, output: &mut [u64]) {
        // That there are fewer than 2 ^ 32 values is known of the count.
        let _count = self.stats.num_rows;
        let items = ItemsInBlocks {
            stats: self.stats,
            blocks: &self.blocks,
            bytes: self.data.as_slice(),
        };
        items.read(start as u32, output);
    }

    fn get_row_ids_between(&self, low: u64, high: u64, rows: Rows, hits: &mut Vec<RowId>) -> Found {
        let ids = rows.start..rows.end.min(self.stats.num_rows);
        let items = ItemsInBlocks {
            stats: self.stats,
            blocks: &self.blocks,
            bytes: self.data.as_slice(),
        };
        find_ids(&items, &self.bounds, low, high, ids, hits)
    }
}

impl Iterable<u64> for BlockwiseLinearReader {
    ghost items = { λ r. r };

    ghost stands = { λ r w. w.place ≤ length r };

    ghost left = { λ r w. drop w.place r };

    fn walk(&self) -> Walk {
        self.iter().walk()
    }

    #[inline]
    fn next(&self, at: &mut Walk) -> Option<u64> {
        self.iter().next(at)
    }
}

// The items of a list.
#[derive(Clone, Copy)]
struct ItemsInBlocks<'a> {
    stats: ColumnStats,
    blocks: &'a [Block],
    bytes: &'a [u8],
}

impl BoundedItems for ItemsInBlocks<'_> {
    ghost use Rattle.std.specs.Prelude.{◌≡◌, length};
    ghost use Rattle.col_model.specs.Codecs.{block_count};
    ghost use Rattle.col_codecs.specs.ColumnStats.{stats_seen};
    ghost use Rattle.col_codecs.specs.Blocks.{item_of, step_of, AreWithin};

    ghost item = { λ r i. item_of (stats_seen r.stats) (step_of r.blocks.now r.bytes.now i) };

    ghost count = { λ r. r.stats.num_rows };

    ghost IsWhole = { λ r. (length r.blocks.now ≡ block_count r.stats.num_rows)
        × AreWithin r.blocks.now r.bytes.now };

    // Block by block.
    fn read(&self, start: u32, output: &mut [u64]) {
        let mut filled = 0;
        while filled < output.len() {
            let idx = start + filled as u32;
            let place = idx % BLOCK_LEN;
            let len = (output.len() - filled).min((BLOCK_LEN - place) as usize);
            let block = self.blocks[(idx / BLOCK_LEN) as usize];
            let part = &mut output[filled..filled + len];
            read_part(
                self.stats.min_value,
                self.stats.gcd,
                block,
                place,
                self.bytes,
                part,
            );
            filled += len;
        }
    }
}

// Reads a block's items from a place on.
fn read_part(least: u64, divisor: u64, block: Block, place: u32, bytes: &[u8], output: &mut [u64])
    requires start { block.start ≤ length bytes.now }
    requires place { place + length output.old ≤ block_size }
    ensures { output.new ≡ map (λ i. (least + divisor * step_in block bytes.now i) % 2 ^ 64)
        (range_with_len place (length output.old)) }
{
    block
        .bit_unpacker
        .get_range(place, &bytes[block.start..], output);
    if divisor == 1 {
        return block.line.raised_by(least).add_to(place, output);
    }
    block.line.add_to(place, output);
    take_items(least, divisor, output);
}

// Turns steps into the items that lie so many divisors above the least, modulo 2^64.
fn take_items(least: u64, divisor: u64, steps: &mut [u64])
    ensures { steps.new ≡ map (λ k. (least + divisor * k) % 2 ^ 64) steps.old }
{
    for at in 0..steps.len() {
        steps[at] = least.wrapping_add(divisor.wrapping_mul(steps[at]));
    }
}

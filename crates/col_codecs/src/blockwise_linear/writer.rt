//! Writes lists in blocks, each with a line of its own.
ghost use Rattle.std.specs.Prelude.{◌≡◌, ◌++◌, [], length, map, OnOk};
ghost use Rattle.std.specs.Int.{w64, to_le_bytes};
ghost use Rattle.col_common.specs.Serializing.{Serializes};
ghost use Rattle.col_model.specs.Stats.{stats_of};
ghost use Rattle.col_model.specs.U64List.{joined_lists};
ghost use Rattle.col_model.specs.Codecs.{
  blocks_of,
  blockwise_body,
  lines_bytes,
  packed_block,
  params_bytes,
  block_line,
  steps_above,
};
ghost use Rattle.col_codecs.specs.ColumnStats.{stats_seen};
ghost use Rattle.col_codecs.specs.Blocks.{IsBlock};

use super::offsets::train_offsets;
use crate::column_stats::ColumnStats;
use crate::packing::{BLOCK_LEN, MAX_BLOCK_NUM_BYTES, pack_block, take_block, take_steps};
use col_common::{Buffer, ColumnarError, Iterable, Sink, serialize_bytes};
use col_model::BLOCK_SIZE;
use std::alloc::Global;

/// Adds statistics, the list's blocks, their lines, and the length of the lines.
#[tactic(auto, unfolding(col_model::specs::Codecs::blockwise_body))]
pub fn serialize_behind_codec<I: Iterable<u64>, K: Sink>(
    alloc: Global,
    stats: &ColumnStats,
    vals: &I,
    sink: &mut K,
) -> Result<(), ColumnarError>
    requires { stats_seen stats.now ≡ stats_of (I.items vals.now) }
    ensures { Serializes (K.seen sink.old) (K.seen sink.new) result
        (blockwise_body (I.items vals.now)) }
{
    // That the greatest value has 64 bits is known where it is read.
    let _greatest = stats.max_value;
    stats.serialize(sink)?;
    let mut lines = Buffer::new(alloc);
    serialize_packed(alloc, stats, vals, &mut lines, sink)?;
    serialize_lines(lines.as_slice(), sink)
}

// Adds lines, and their length.
fn serialize_lines<K: Sink>(lines: &[u8], sink: &mut K) -> Result<(), ColumnarError>
    ensures { Serializes (K.seen sink.old) (K.seen sink.new) result
        (lines.now ++ to_le_bytes w64 (length lines.now)) }
{
    serialize_bytes(sink, lines)?;
    serialize_bytes(sink, &(lines.len() as u64).to_le_bytes())
}

// Adds a list's packed blocks, and gathers their lines.
fn serialize_packed<I: Iterable<u64>, K: Sink>(
    alloc: Global,
    stats: &ColumnStats,
    vals: &I,
    lines: &mut Buffer,
    sink: &mut K,
) -> Result<(), ColumnarError>
    requires stats { stats_seen stats.now ≡ stats_of (I.items vals.now) }
    requires empty { lines.old ≡ [] }
    ensures packed { Serializes (K.seen sink.old) (K.seen sink.new) result
        (joined_lists (map packed_block
        (blocks_of (steps_above (stats_seen stats.now) (I.items vals.now))))) }
    ensures lines { OnOk result (lines.new ≡
        lines_bytes (blocks_of (steps_above (stats_seen stats.now) (I.items vals.now)))) }
{
    let mut block = [0; BLOCK_SIZE];
    let mut packed = Vec::with_capacity(alloc, MAX_BLOCK_NUM_BYTES)?;
    let mut at = vals.walk();
    for _block_id in 0..stats.num_rows.div_ceil(BLOCK_LEN) {
        let taken = take_block(vals, &mut at, &mut block);
        serialize_block(stats, &mut block[..taken], &mut packed, lines, sink)?;
    }
    Ok(())
}

// Adds a block, packed, and its line to the lines.
fn serialize_block<K: Sink>(
    stats: &ColumnStats,
    vals: &mut [u64],
    packed: &mut Vec<u8>,
    lines: &mut Buffer,
    sink: &mut K,
) -> Result<(), ColumnarError>
    requires { IsBlock (stats_seen stats.now) vals.old }
    ensures packed { Serializes (K.seen sink.old) (K.seen sink.new) result
        (packed_block (steps_above (stats_seen stats.now) vals.old)) }
    ensures line { OnOk result (lines.new ≡ lines.old
        ++ params_bytes (block_line (steps_above (stats_seen stats.now) vals.old))) }
{
    take_steps(stats, vals);
    let params = train_offsets(vals);
    params.serialize(lines)?;
    packed.clear();
    pack_block(vals, params.offset_width, packed)?;
    serialize_bytes(sink, packed)
}

//! Blocks of a list: their lines, and where their packed offsets begin.
ghost use Rattle.std.specs.Prelude.{◌≡◌, ◌≤◌, true, map, length};
ghost use Rattle.col_common.specs.Decoding.{Decodes};
ghost use Rattle.col_model.specs.Items.{are_blocks};
ghost use Rattle.col_codecs.specs.Blocks.{block_params, lines_of, ArePlaced};

use crate::line::Line;
use crate::linear_params::LinearParams;
use crate::packing::BLOCK_LEN;
use col_bits::{BitUnpacker, is_packed};
use col_common::{BYTE_BITS, ColumnarError};
use std::alloc::Global;

// The fewest bytes of a line: slope, intercept and width.
const MIN_LINE_NUM_BYTES: usize = 3;

/// A block: its line, the width of the offsets from it, and where these begin in the data.
#[derive(Clone, Copy)]
pub struct Block {
    pub line: Line,
    pub bit_unpacker: BitUnpacker,
    pub start: usize,
}

impl Block {
    ghost use Rattle.col_codecs.specs.Blocks.{step_in};

    /// The step at a place.
    #[inline(always)]
    pub fn step_at(&self, at: u32, data: &[u8]) -> u64
        requires { self.now.start ≤ length «data».now }
        ensures { result ≡ step_in self.now «data».now at }
    {
        self.line
            .eval(at)
            .wrapping_add(self.bit_unpacker.get(at, &data[self.start..]))
    }
}

/// So many lines and nothing else, each of a block that isn't placed yet.
pub fn read_blocks(alloc: Global, count: u32, lines: &[u8]) -> Result<Vec<Block>, ColumnarError>
    ensures { Decodes (λ bs. map block_params bs.items) result (lines_of count lines.now) }
{
    if lines.len() / MIN_LINE_NUM_BYTES < count as usize {
        return Err(ColumnarError::InvalidData);
    }
    let mut blocks = Vec::with_capacity(alloc, count as usize)?;
    let mut lines = lines;
    for _block_id in 0..count {
        let Some((params, rest)) = LinearParams::read(lines) else {
            return Err(ColumnarError::InvalidData);
        };
        blocks.push(Block {
            line: params.line,
            bit_unpacker: BitUnpacker::new(params.offset_width),
            start: 0,
        })?;
        lines = rest;
    }
    if !lines.is_empty() {
        return Err(ColumnarError::InvalidData);
    }
    Ok(blocks)
}

/// Places blocks one behind another, and says whether the data is just these, so many values.
pub fn place_blocks(num_vals: u32, blocks: &mut [Block], data: &[u8]) -> bool
    ensures params { map block_params blocks.new ≡ map block_params blocks.old }
    ensures packed { result ≡ are_blocks num_vals (map block_params blocks.old) «data».now }
    ensures placed { result ≡ true → ArePlaced num_vals blocks.new «data».now }
{
    let mut left = num_vals;
    let mut start = 0;
    for at in 0..blocks.len() {
        let len = left.min(BLOCK_LEN);
        let mut block = blocks[at];
        let num_bits = len as usize * block.bit_unpacker.bit_width() as usize;
        let num_bytes = num_bits.div_ceil(BYTE_BITS as usize);
        if num_bytes > data.len() - start {
            return false;
        }
        if !is_packed(&data[start..start + num_bytes], num_bits) {
            return false;
        }
        block.start = start;
        blocks[at] = block;
        start += num_bytes;
        left -= len;
    }
    start == data.len()
}

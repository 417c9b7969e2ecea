//! Lists of which something else is packed, a block at a time.
ghost use Rattle.std.specs.Prelude.{◌≡◌, ◌≤◌, ◌+◌, ◌^◌, length};
ghost use Rattle.col_common.specs.Serializing.{Serializes};
ghost use Rattle.col_model.specs.Codecs.{block_size};
ghost use Rattle.col_codecs.specs.Turning.{ArePackable, packed_by_position};

use crate::packing::{MAX_BLOCK_NUM_BYTES, pack_block, take_block};
use col_common::{ColumnarError, Iterable, Sink, serialize_bytes};
use col_model::BLOCK_SIZE;
use std::alloc::Global;

/// Turns values into what is packed of them.
pub trait Turn {
    ghost use Rattle.std.specs.Prelude.{◌≡◌, ◌≤◌, ◌+◌, ◌^◌, ℕ, length};
    ghost use Rattle.std.specs.List.{AllByRecursion};
    ghost use Rattle.col_codecs.specs.Turning.{by_position};

    /// What is packed of a value, by its position.
    ghost turned: { Self → ℕ × ℕ → ℕ };

    /// The values that can be turned.
    ghost Takes: { Self → ℕ → Type 0 };

    /// Turns values from a position on.
    fn turn(&self, start: u32, vals: &mut [u64])
        requires takes { AllByRecursion (Takes self.now) vals.old }
        requires count { start + length vals.old ≤ 2 ^ 32 }
        ensures { vals.new ≡ by_position (turned self.now) start vals.old };
}

/// Adds a list, turned and packed, a block at a time.
pub fn serialize_turned<T: Turn, I: Iterable<u64>, K: Sink>(
    alloc: Global,
    turn: &T,
    num_bits: u8,
    vals: &I,
    sink: &mut K,
) -> Result<(), ColumnarError>
    requires width { num_bits ≤ 64 }
    requires packable { ArePackable (T.Takes turn.now) (T.turned turn.now) num_bits 0
        (I.items vals.now) }
    ensures { Serializes (K.seen sink.old) (K.seen sink.new) result
        (packed_by_position (T.turned turn.now) num_bits 0 (I.items vals.now)) }
{
    let mut block = [0; BLOCK_SIZE];
    let mut packed = Vec::with_capacity(alloc, MAX_BLOCK_NUM_BYTES)?;
    serialize_blocks(turn, num_bits, vals, &mut block, &mut packed, sink)
}

// The same in a block's room.
fn serialize_blocks<T: Turn, I: Iterable<u64>, K: Sink>(
    turn: &T,
    num_bits: u8,
    vals: &I,
    block: &mut [u64],
    packed: &mut Vec<u8>,
    sink: &mut K,
) -> Result<(), ColumnarError>
    requires width { num_bits ≤ 64 }
    requires packable { ArePackable (T.Takes turn.now) (T.turned turn.now) num_bits 0
        (I.items vals.now) }
    requires room { length block.old ≡ block_size }
    ensures { Serializes (K.seen sink.old) (K.seen sink.new) result
        (packed_by_position (T.turned turn.now) num_bits 0 (I.items vals.now)) }
{
    let mut start = 0;
    let mut at = vals.walk();
    'values: loop {
        let taken = take_block(vals, &mut at, block);
        if taken == 0 {
            return Ok(());
        }
        serialize_block(turn, num_bits, start, &mut block[..taken], packed, sink)?;
        start += taken as u32;
    }
}

// Adds values from a position on, turned and packed.
fn serialize_block<T: Turn, K: Sink>(
    turn: &T,
    num_bits: u8,
    start: u32,
    vals: &mut [u64],
    packed: &mut Vec<u8>,
    sink: &mut K,
) -> Result<(), ColumnarError>
    requires width { num_bits ≤ 64 }
    requires packable { ArePackable (T.Takes turn.now) (T.turned turn.now) num_bits start vals.old }
    ensures { Serializes (K.seen sink.old) (K.seen sink.new) result
        (packed_by_position (T.turned turn.now) num_bits start vals.old) }
{
    turn.turn(start, vals);
    packed.clear();
    pack_block(vals, num_bits, packed)?;
    serialize_bytes(sink, packed)
}

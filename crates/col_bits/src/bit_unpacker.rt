//! Reads numbers of one width in bits, and looks up those of a range.
ghost use Rattle.std.specs.Prelude.{◌≡◌, ℕ, ◌+◌, ◌-◌, ◌*◌, ◌/◌, ◌^◌, ◌<◌, ◌≤◌};
ghost use Rattle.std.specs.Prelude.{List, length, slice_index};
ghost use Rattle.std.specs.Prelude.{◌↔◌, ◌++◌, [], IsTrue, true, OnOk, OnErr, take};
ghost use Rattle.std.specs.Int.{is_in_range};
ghost use Rattle.std.specs.Range.{range_inclusive_start, range_inclusive_end};
ghost use Rattle.col_common.specs.Ascending.{is_rising};
ghost use Rattle.col_bits.specs.Packed.{is_width, item, items, ids_between, packed};
ghost use Rattle.col_bits.specs.Places.{IsForBlocks};

use crate::bitpacker::MAX_SMALL_WIDTH;
use crate::const_width::{
    AskedBlocks, BLOCK_LEN, GROUP_LEN, read_groups_by_width, write_ids_by_width,
};
use crate::words::{WORD_BITS, word_at};
use col_common::U64_NUM_BYTES;
use std::alloc::AllocError;
use std::marker::Model;
use std::ops::{Range, RangeInclusive};

// How many ids are tested before those that were found are appended.
const ID_BLOCK_LEN: u32 = 1024;

const ID_BLOCK_SIZE: usize = ID_BLOCK_LEN as usize;

// Which ids are asked for: those from `start` up to `end` with a number from `low` to `high`.
#[derive(Clone, Copy)]
struct Asked {
    low: u64,
    high: u64,
    start: u32,
    end: u32,
}

/// Reads numbers of one width.
#[derive(Clone, Copy)]
pub struct BitUnpacker {
    num_bits: u32,
    mask: u64,
}

impl Model for BitUnpacker {
    ghost Value = { ℕ };

    ghost view = { λ s. s.num_bits };

    ghost invariant = { λ s. (s.mask ≡ 2 ^ s.num_bits - 1) × IsTrue (is_width s.num_bits) };

    ghost inverse = { λ w. record { num_bits = w; mask = 2 ^ w - 1 } };
}

impl BitUnpacker {
    /// A reader of numbers of this width.
    pub fn new(num_bits: u8) -> BitUnpacker
        requires { IsTrue (is_width num_bits) }
        ensures { result ≡ num_bits }
    {
        let num_bits = u32::from(num_bits);
        let mask = if num_bits == WORD_BITS {
            u64::MAX
        } else {
            (1u64 << num_bits) - 1
        };
        BitUnpacker { num_bits, mask }
    }

    /// The width of the numbers, in bits.
    pub fn bit_width(&self) -> u8
        ensures { result ≡ self.now }
    {
        self.num_bits as u8
    }

    /// The number at an index, where what is past the end of the bytes counts as 0.
    #[inline(always)]
    pub fn get(&self, idx: u32, data: &[u8]) -> u64
        ensures value { result ≡ item «data».now self.now idx }
        // Item `idx` of the packed list, where the bytes are one of n items.
        ensures packed { (n : ℕ) (items : List ℕ) → idx < n →
            packed «data».now self.now n ≡ Some items → slice_index items idx ≡ result }
    {
        self.item_at::<false>(idx, data)
    }

    /// Writes the numbers from an index on, where what is past the end of the bytes counts as 0.
    pub fn get_range(&self, start: u32, data: &[u8], output: &mut [u64])
        requires { start + length output.old ≤ 2 ^ 32 }
        ensures { output.new ≡ items «data».now self.now start (length output.old) }
    {
        let len = output.len();
        if !self.is_padded(start as u64 + len as u64, data) {
            self.read::<false>(start, data, output, 0, len);
        } else if self.num_bits > MAX_SMALL_WIDTH {
            self.read::<true>(start, data, output, 0, len);
        } else {
            self.read_in_groups(start, data, output);
        }
    }

    /// Puts there which of the ids have a number from the first to the last of the range,
    /// ascending.
    #[tactic(auto, using(crate::proofs::ItemLemmas::ids_rise))]
    pub fn get_ids_for_value_range(
        &self,
        value_range: RangeInclusive<u64>,
        ids: Range<u32>,
        data: &[u8],
        positions: &mut Vec<u32>,
    ) -> Result<(), AllocError>
        ensures ok { OnOk result (positions.new.items ≡ ids_between «data».now self.now
            (range_inclusive_start value_range) (range_inclusive_end value_range)
            ids.start (ids.end - ids.start)) }
        ensures rises { OnOk result (is_rising positions.new.items ≡ true) }
        // Where memory is wanting, none are there.
        ensures none { OnErr result (positions.new.items ≡ []) }
    {
        let (low, high) = value_range.into_inner();
        positions.clear();
        let mut block = [0; ID_BLOCK_SIZE];
        let mut from = ids.start;
        while from < ids.end {
            let to = from + (ids.end - from).min(ID_BLOCK_LEN - from % ID_BLOCK_LEN);
            if let Err(wanting) = self.push_ids(low, high, from..to, data, &mut block, positions) {
                positions.clear();
                return Err(wanting);
            }
            from = to;
        }
        Ok(())
    }

    /// Appends which of the ids have a number between the ends, ascending. They are first put into
    /// `block`, which has a place for each id.
    pub fn push_ids(
        &self,
        low: u64,
        high: u64,
        ids: Range<u32>,
        data: &[u8],
        block: &mut [u32],
        positions: &mut Vec<u32>,
    ) -> Result<(), AllocError>
        requires order { ids.start ≤ ids.end }
        requires room { ids.end - ids.start ≤ length block.old }
        ensures ok { OnOk result (positions.new.items ≡ positions.old.items
            ++ ids_between «data».now self.now low high ids.start (ids.end - ids.start)) }
        ensures kept { OnErr result (positions.new.items ≡ positions.old.items) }
    {
        let asked = Asked {
            low,
            high,
            start: ids.start,
            end: ids.end,
        };
        let found = self.write_ids(asked, data, block, 0);
        positions.extend_from_slice(&block[..found])
    }

    // Writes those that are asked for from place `at` on, and says where they end.
    fn write_ids(&self, asked: Asked, data: &[u8], output: &mut [u32], at: usize) -> usize
        requires order { asked.start ≤ asked.end }
        requires room { at + (asked.end - asked.start) ≤ length output.old }
        ensures within { result ≤ length output.old }
        ensures front { take result output.new ≡ take at output.old ++ ids_between «data».now
            self.now asked.low asked.high asked.start (asked.end - asked.start) }
    {
        if !self.is_padded(asked.end as u64, data) {
            return self.write_ids_by::<false>(asked, data, output, at);
        }
        if self.is_for_blocks(asked.low, asked.high, asked.start) {
            return self.write_ids_in_blocks(asked, data, output, at);
        }
        self.write_ids_by::<true>(asked, data, output, at)
    }

    // The same, by blocks as far as they go.
    fn write_ids_in_blocks(&self, asked: Asked, data: &[u8], output: &mut [u32], at: usize) -> usize
        requires blocks { IsForBlocks self.now asked.low asked.high asked.start }
        requires order { asked.start ≤ asked.end }
        requires room { at + (asked.end - asked.start) ≤ length output.old }
        requires padded { asked.end * self.now / 8 + 8 ≤ length «data».now }
        ensures within { result ≤ length output.old }
        ensures front { take result output.new ≡ take at output.old ++ ids_between «data».now
            self.now asked.low asked.high asked.start (asked.end - asked.start) }
    {
        let count = asked.end - asked.start;
        let most = asked.high.min(u32::MAX.into());
        let blocks = AskedBlocks {
            low: asked.low as u32,
            span: (most - asked.low) as u32,
            start: asked.start,
            count,
        };
        let kept = write_ids_by_width(self.num_bits, blocks, data, output, at);
        let rest = Asked {
            start: asked.start + count / BLOCK_LEN * BLOCK_LEN,
            ..asked
        };
        self.write_ids_by::<true>(rest, data, output, kept)
    }

    // The same, with no branch on what a number is.
    fn write_ids_by<const PADDED: bool>(
        &self,
        asked: Asked,
        data: &[u8],
        output: &mut [u32],
        at: usize,
    ) -> usize
        requires order { asked.start ≤ asked.end }
        requires room { at + (asked.end - asked.start) ≤ length output.old }
        requires padded { IsTrue PADDED → asked.end * self.now / 8 + 8 ≤ length «data».now }
        ensures within { result ≤ length output.old }
        ensures front { take result output.new ≡ take at output.old ++ ids_between «data».now
            self.now asked.low asked.high asked.start (asked.end - asked.start) }
    {
        let Asked {
            low,
            high,
            start,
            end,
        } = asked;
        if low > high {
            return at;
        }
        let unpacker = *self;
        let mut kept = at;
        for id in start..end {
            let value = unpacker.item_at::<PADDED>(id, data);
            output[kept] = id;
            kept += is_within(value, low, high) as usize;
        }
        kept
    }

    // Writes the numbers from an index on up to place `to`, where those up to `from` are there.
    fn read<const PADDED: bool>(
        &self,
        start: u32,
        data: &[u8],
        output: &mut [u64],
        from: usize,
        to: usize,
    )
        requires order { from ≤ to }
        requires room { to ≤ length output.old }
        requires indexes { start + to ≤ 2 ^ 32 }
        requires padded { IsTrue PADDED →
            (start + to) * self.now / 8 + 8 ≤ length «data».now }
        requires so_far { take from output.old ≡ items «data».now self.now start from }
        ensures { take to output.new ≡ items «data».now self.now start to }
    {
        let unpacker = *self;
        for i in from..to {
            output[i] = unpacker.item_at::<PADDED>(start + i as u32, data);
        }
    }

    // Writes the numbers from an index on, by groups as far as they go.
    fn read_in_groups(&self, start: u32, data: &[u8], output: &mut [u64])
        requires narrow { self.now ≤ 56 }
        requires indexes { start + length output.old ≤ 2 ^ 32 }
        requires padded { (start + length output.old) * self.now / 8 + 8 ≤ length «data».now }
        ensures { take (length output.old) output.new ≡
            items «data».now self.now start (length output.old) }
    {
        let len = output.len();
        let head = (GROUP_LEN - start as usize % GROUP_LEN) % GROUP_LEN;
        if len < head {
            return self.read::<true>(start, data, output, 0, len);
        }
        self.read::<true>(start, data, output, 0, head);
        let group = (start as usize + head) / GROUP_LEN;
        let groups = (len - head) / GROUP_LEN;
        read_groups_by_width(self.num_bits, group, data, output, head, groups);
        self.read::<true>(start, data, output, head + GROUP_LEN * groups, len);
    }

    // Whether ids from `start` on go in blocks: where numbers and the lower end have 32 bits.
    fn is_for_blocks(&self, low: u64, high: u64, start: u32) -> bool
        ensures { IsTrue result → IsForBlocks self.now low high start }
    {
        self.num_bits <= 32 && start % 8 == 0 && low <= high && low <= u32::MAX.into()
    }

    // Whether the eight bytes of a load are there for each number below an index.
    fn is_padded(&self, end: u64, data: &[u8]) -> bool
        requires { end ≤ 2 ^ 32 }
        ensures { IsTrue result ↔ end * self.now / 8 + 8 ≤ length «data».now }
    {
        end as usize * self.num_bits as usize / 8 + U64_NUM_BYTES <= data.len()
    }

    // The number at an index. PADDED says that the eight bytes of its load are there.
    #[inline(always)]
    fn item_at<const PADDED: bool>(&self, idx: u32, data: &[u8]) -> u64
        requires { IsTrue PADDED → idx * self.now / 8 + 8 ≤ length «data».now }
        ensures { result ≡ item «data».now self.now idx }
    {
        let from = idx as usize * self.num_bits as usize;
        (word_at::<PADDED>(data, from / 8) >> (from % 8)) & self.mask
    }
}

// Whether a value is one from `low` to `high`, by how far it lies above `low`.
#[inline(always)]
fn is_within(value: u64, low: u64, high: u64) -> bool
    requires { low ≤ high }
    ensures { result ≡ is_in_range low high value }
{
    value.wrapping_sub(low) <= high - low
}

//! Packs numbers of one width in bits, one behind another, the lowest bits first.
ghost use Rattle.std.specs.Prelude.{◌≡◌, ◌+◌, ◌*◌, ◌^◌, ◌<◌, ◌≤◌, length, OnOk, OnErr};
ghost use Rattle.std.specs.Int.{div_ceil};
ghost use Rattle.col_bits.specs.Packed.{number_of, width};
ghost use Rattle.col_bits.specs.Packing.{Held, nothing_held, bits_of, count_of, AddsBytes};

use crate::words::{WORD_BITS, above};
use col_common::BYTE_BITS;
use std::alloc::AllocError;
use std::marker::Model;

// The widest numbers that are always read by one load of eight bytes.
pub(crate) const MAX_SMALL_WIDTH: u32 = 56;

/// The width of numbers up to `n`: its binary digits where these are at most 56, else 64.
pub fn compute_num_bits(n: u64) -> u8
    ensures { result ≡ width n }
{
    let digits = WORD_BITS - n.leading_zeros();
    if digits <= MAX_SMALL_WIDTH {
        digits as u8
    } else {
        WORD_BITS as u8
    }
}

/// Packs numbers, one behind another, the lowest bits first.
#[derive(Drop)]
pub struct BitPacker {
    mini_buffer: u64,
    mini_buffer_written: u32,
}

impl Model for BitPacker {
    ghost Value = { Held };

    ghost view = { λ s. record { number = s.mini_buffer; count = s.mini_buffer_written } };

    ghost invariant = { λ s. (s.mini_buffer_written < 64)
        × (s.mini_buffer < 2 ^ s.mini_buffer_written) };
}

impl BitPacker {
    /// A packer that holds no bits.
    pub fn new() -> BitPacker
        ensures { result ≡ nothing_held }
    {
        BitPacker {
            mini_buffer: 0,
            mini_buffer_written: 0,
        }
    }

    /// Appends the bits of a number.
    #[inline(always)]
    pub fn write(&mut self, val: u64, num_bits: u8, output: &mut Vec<u8>) -> Result<(), AllocError>
        requires width { num_bits ≤ 64 }
        requires small { val < 2 ^ num_bits }
        // The number's bits stand above those that were there.
        ensures bits { OnOk result (bits_of self.new output.new.items ≡
            bits_of self.old output.old.items + val * 2 ^ count_of self.old output.old.items) }
        ensures count { OnOk result (count_of self.new output.new.items ≡
            count_of self.old output.old.items + num_bits) }
        ensures bytes { OnOk result (AddsBytes output.old.items output.new.items) }

        // Where memory is wanting, nothing changes.
        ensures kept { OnErr result ((self.new ≡ self.old)
            × (output.new.items ≡ output.old.items)) }
    {
        let filled = self.mini_buffer_written;
        let word = self.mini_buffer | (val << filled);
        let written = filled + u32::from(num_bits);
        if written < WORD_BITS {
            self.mini_buffer = word;
            self.mini_buffer_written = written;
            return Ok(());
        }
        output.extend_from_slice(&word.to_le_bytes())?;
        self.mini_buffer = above(val, WORD_BITS - filled);
        self.mini_buffer_written = written - WORD_BITS;
        Ok(())
    }

    /// Appends the bytes of the bits that are held, where spare bits are 0.
    pub fn close(&mut self, output: &mut Vec<u8>) -> Result<(), AllocError>
        // The bytes are the bits that were there, in as few bytes as take them.
        ensures bits { OnOk result (number_of 256 output.new.items ≡
            bits_of self.old output.old.items) }
        ensures count { OnOk result (length output.new.items ≡
            div_ceil (count_of self.old output.old.items) 8) }
        ensures bytes { OnOk result (AddsBytes output.old.items output.new.items) }
        ensures held { OnOk result (self.new ≡ nothing_held) }

        // Where memory is wanting, nothing changes.
        ensures kept { OnErr result ((self.new ≡ self.old)
            × (output.new.items ≡ output.old.items)) }
    {
        let bytes = self.mini_buffer.to_le_bytes();
        let len = self.mini_buffer_written.div_ceil(BYTE_BITS) as usize;
        output.extend_from_slice(&bytes[..len])?;
        self.mini_buffer = 0;
        self.mini_buffer_written = 0;
        Ok(())
    }
}

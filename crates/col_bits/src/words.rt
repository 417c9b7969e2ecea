//! Words of 64 bits from any byte of a slice.

ghost use Rattle.std.specs.Prelude.{◌≡◌, ◌+◌, ◌*◌, ◌/◌, ◌%◌, ◌^◌, ◌≤◌, length, slice_index, IsTrue};
ghost use Rattle.col_bits.specs.Packed.{number_of};

use col_common::U64_NUM_BYTES;

// The bits of a word.
pub(crate) const WORD_BITS: u32 = 64;

// The 64 bits from byte `at` on.
#[inline(always)]
pub(crate) fn word(bytes: &[u8], at: usize) -> u64
    requires { at + 8 ≤ length bytes.now }
    ensures { result ≡ number_of 256 bytes.now / 2 ^ (8 * at) % 2 ^ 64 }
{
    u64::from_le_bytes([
        bytes[at],
        bytes[at + 1],
        bytes[at + 2],
        bytes[at + 3],
        bytes[at + 4],
        bytes[at + 5],
        bytes[at + 6],
        bytes[at + 7],
    ])
}

// A byte, and past the end 0.
fn byte_or_zero(bytes: &[u8], at: usize) -> u8
    ensures { result ≡ slice_index bytes.now at }
{
    match bytes.get(at) {
        Some(byte) => *byte,
        None => 0,
    }
}

// The 64 bits from byte `at` on, where those past the end are 0.
#[cold]
#[inline(never)]
fn last_word(bytes: &[u8], at: usize) -> u64
    requires { at + 8 ≤ usize.MAX }
    ensures { result ≡ number_of 256 bytes.now / 2 ^ (8 * at) % 2 ^ 64 }
{
    // A list of width 0 has no bytes at all.
    if bytes.len() <= at {
        return 0;
    }
    u64::from_le_bytes([
        byte_or_zero(bytes, at),
        byte_or_zero(bytes, at + 1),
        byte_or_zero(bytes, at + 2),
        byte_or_zero(bytes, at + 3),
        byte_or_zero(bytes, at + 4),
        byte_or_zero(bytes, at + 5),
        byte_or_zero(bytes, at + 6),
        byte_or_zero(bytes, at + 7),
    ])
}

// The 64 bits from byte `at` on, where those past the end are 0. PADDED says that none is past it.
#[inline(always)]
pub(crate) fn word_at<const PADDED: bool>(bytes: &[u8], at: usize) -> u64
    requires fits { at + 8 ≤ usize.MAX }
    requires padded { IsTrue PADDED → at + 8 ≤ length bytes.now }
    ensures { result ≡ number_of 256 bytes.now / 2 ^ (8 * at) % 2 ^ 64 }
{
    if PADDED || at + U64_NUM_BYTES <= bytes.len() {
        word(bytes, at)
    } else {
        last_word(bytes, at)
    }
}

// The bits from place `from` on.
#[inline(always)]
pub(crate) fn above(value: u64, from: u32) -> u64
    requires { from ≤ 64 }
    ensures { result ≡ value / 2 ^ from }
{
    if from == WORD_BITS { 0 } else { value >> from }
}

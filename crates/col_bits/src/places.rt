//! Writes the places of bits that are set, by a row of places for each byte.
ghost use Rattle.std.specs.Prelude.{◌≡◌, ◌+◌, ◌%◌, ◌^◌, ◌<◌, ◌≤◌, length, ◌++◌, take, map};
ghost use Rattle.std.specs.Int.RustNames.{count_ones};
ghost use Rattle.col_bits.specs.Places.{set_places, row};

use std::simd::prelude::*;

// The bits of a byte.
const BYTE_LEN: u32 = 8;

// How many values a byte has.
const BYTE_VALUES: u64 = 256;

// The bytes of a word.
const WORD_LEN: u32 = 8;

// The most bits that are written with no loop.
const MAX_FEW: u32 = 2;

// For each byte the places of its bits that are set, ascending, and then zeros.
static ROWS: [[u8; 8]; 256] = [
    [0, 0, 0, 0, 0, 0, 0, 0],
    [0, 0, 0, 0, 0, 0, 0, 0],
    [1, 0, 0, 0, 0, 0, 0, 0],
    [0, 1, 0, 0, 0, 0, 0, 0],
    [2, 0, 0, 0, 0, 0, 0, 0],
    [0, 2, 0, 0, 0, 0, 0, 0],
    [1, 2, 0, 0, 0, 0, 0, 0],
    [0, 1, 2, 0, 0, 0, 0, 0],
    [3, 0, 0, 0, 0, 0, 0, 0],
    [0, 3, 0, 0, 0, 0, 0, 0],
    [1, 3, 0, 0, 0, 0, 0, 0],
    [0, 1, 3, 0, 0, 0, 0, 0],
    [2, 3, 0, 0, 0, 0, 0, 0],
    [0, 2, 3, 0, 0, 0, 0, 0],
    [1, 2, 3, 0, 0, 0, 0, 0],
    [0, 1, 2, 3, 0, 0, 0, 0],
    [4, 0, 0, 0, 0, 0, 0, 0],
    [0, 4, 0, 0, 0, 0, 0, 0],
    [1, 4, 0, 0, 0, 0, 0, 0],
    [0, 1, 4, 0, 0, 0, 0, 0],
    [2, 4, 0, 0, 0, 0, 0, 0],
    [0, 2, 4, 0, 0, 0, 0, 0],
    [1, 2, 4, 0, 0, 0, 0, 0],
    [0, 1, 2, 4, 0, 0, 0, 0],
    [3, 4, 0, 0, 0, 0, 0, 0],
    [0, 3, 4, 0, 0, 0, 0, 0],
    [1, 3, 4, 0, 0, 0, 0, 0],
    [0, 1, 3, 4, 0, 0, 0, 0],
    [2, 3, 4, 0, 0, 0, 0, 0],
    [0, 2, 3, 4, 0, 0, 0, 0],
    [1, 2, 3, 4, 0, 0, 0, 0],
    [0, 1, 2, 3, 4, 0, 0, 0],
    [5, 0, 0, 0, 0, 0, 0, 0],
    [0, 5, 0, 0, 0, 0, 0, 0],
    [1, 5, 0, 0, 0, 0, 0, 0],
    [0, 1, 5, 0, 0, 0, 0, 0],
    [2, 5, 0, 0, 0, 0, 0, 0],
    [0, 2, 5, 0, 0, 0, 0, 0],
    [1, 2, 5, 0, 0, 0, 0, 0],
    [0, 1, 2, 5, 0, 0, 0, 0],
    [3, 5, 0, 0, 0, 0, 0, 0],
    [0, 3, 5, 0, 0, 0, 0, 0],
    [1, 3, 5, 0, 0, 0, 0, 0],
    [0, 1, 3, 5, 0, 0, 0, 0],
    [2, 3, 5, 0, 0, 0, 0, 0],
    [0, 2, 3, 5, 0, 0, 0, 0],
    [1, 2, 3, 5, 0, 0, 0, 0],
    [0, 1, 2, 3, 5, 0, 0, 0],
    [4, 5, 0, 0, 0, 0, 0, 0],
    [0, 4, 5, 0, 0, 0, 0, 0],
    [1, 4, 5, 0, 0, 0, 0, 0],
    [0, 1, 4, 5, 0, 0, 0, 0],
    [2, 4, 5, 0, 0, 0, 0, 0],
    [0, 2, 4, 5, 0, 0, 0, 0],
    [1, 2, 4, 5, 0, 0, 0, 0],
    [0, 1, 2, 4, 5, 0, 0, 0],
    [3, 4, 5, 0, 0, 0, 0, 0],
    [0, 3, 4, 5, 0, 0, 0, 0],
    [1, 3, 4, 5, 0, 0, 0, 0],
    [0, 1, 3, 4, 5, 0, 0, 0],
    [2, 3, 4, 5, 0, 0, 0, 0],
    [0, 2, 3, 4, 5, 0, 0, 0],
    [1, 2, 3, 4, 5, 0, 0, 0],
    [0, 1, 2, 3, 4, 5, 0, 0],
    [6, 0, 0, 0, 0, 0, 0, 0],
    [0, 6, 0, 0, 0, 0, 0, 0],
    [1, 6, 0, 0, 0, 0, 0, 0],
    [0, 1, 6, 0, 0, 0, 0, 0],
    [2, 6, 0, 0, 0, 0, 0, 0],
    [0, 2, 6, 0, 0, 0, 0, 0],
    [1, 2, 6, 0, 0, 0, 0, 0],
    [0, 1, 2, 6, 0, 0, 0, 0],
    [3, 6, 0, 0, 0, 0, 0, 0],
    [0, 3, 6, 0, 0, 0, 0, 0],
    [1, 3, 6, 0, 0, 0, 0, 0],
    [0, 1, 3, 6, 0, 0, 0, 0],
    [2, 3, 6, 0, 0, 0, 0, 0],
    [0, 2, 3, 6, 0, 0, 0, 0],
    [1, 2, 3, 6, 0, 0, 0, 0],
    [0, 1, 2, 3, 6, 0, 0, 0],
    [4, 6, 0, 0, 0, 0, 0, 0],
    [0, 4, 6, 0, 0, 0, 0, 0],
    [1, 4, 6, 0, 0, 0, 0, 0],
    [0, 1, 4, 6, 0, 0, 0, 0],
    [2, 4, 6, 0, 0, 0, 0, 0],
    [0, 2, 4, 6, 0, 0, 0, 0],
    [1, 2, 4, 6, 0, 0, 0, 0],
    [0, 1, 2, 4, 6, 0, 0, 0],
    [3, 4, 6, 0, 0, 0, 0, 0],
    [0, 3, 4, 6, 0, 0, 0, 0],
    [1, 3, 4, 6, 0, 0, 0, 0],
    [0, 1, 3, 4, 6, 0, 0, 0],
    [2, 3, 4, 6, 0, 0, 0, 0],
    [0, 2, 3, 4, 6, 0, 0, 0],
    [1, 2, 3, 4, 6, 0, 0, 0],
    [0, 1, 2, 3, 4, 6, 0, 0],
    [5, 6, 0, 0, 0, 0, 0, 0],
    [0, 5, 6, 0, 0, 0, 0, 0],
    [1, 5, 6, 0, 0, 0, 0, 0],
    [0, 1, 5, 6, 0, 0, 0, 0],
    [2, 5, 6, 0, 0, 0, 0, 0],
    [0, 2, 5, 6, 0, 0, 0, 0],
    [1, 2, 5, 6, 0, 0, 0, 0],
    [0, 1, 2, 5, 6, 0, 0, 0],
    [3, 5, 6, 0, 0, 0, 0, 0],
    [0, 3, 5, 6, 0, 0, 0, 0],
    [1, 3, 5, 6, 0, 0, 0, 0],
    [0, 1, 3, 5, 6, 0, 0, 0],
    [2, 3, 5, 6, 0, 0, 0, 0],
    [0, 2, 3, 5, 6, 0, 0, 0],
    [1, 2, 3, 5, 6, 0, 0, 0],
    [0, 1, 2, 3, 5, 6, 0, 0],
    [4, 5, 6, 0, 0, 0, 0, 0],
    [0, 4, 5, 6, 0, 0, 0, 0],
    [1, 4, 5, 6, 0, 0, 0, 0],
    [0, 1, 4, 5, 6, 0, 0, 0],
    [2, 4, 5, 6, 0, 0, 0, 0],
    [0, 2, 4, 5, 6, 0, 0, 0],
    [1, 2, 4, 5, 6, 0, 0, 0],
    [0, 1, 2, 4, 5, 6, 0, 0],
    [3, 4, 5, 6, 0, 0, 0, 0],
    [0, 3, 4, 5, 6, 0, 0, 0],
    [1, 3, 4, 5, 6, 0, 0, 0],
    [0, 1, 3, 4, 5, 6, 0, 0],
    [2, 3, 4, 5, 6, 0, 0, 0],
    [0, 2, 3, 4, 5, 6, 0, 0],
    [1, 2, 3, 4, 5, 6, 0, 0],
    [0, 1, 2, 3, 4, 5, 6, 0],
    [7, 0, 0, 0, 0, 0, 0, 0],
    [0, 7, 0, 0, 0, 0, 0, 0],
    [1, 7, 0, 0, 0, 0, 0, 0],
    [0, 1, 7, 0, 0, 0, 0, 0],
    [2, 7, 0, 0, 0, 0, 0, 0],
    [0, 2, 7, 0, 0, 0, 0, 0],
    [1, 2, 7, 0, 0, 0, 0, 0],
    [0, 1, 2, 7, 0, 0, 0, 0],
    [3, 7, 0, 0, 0, 0, 0, 0],
    [0, 3, 7, 0, 0, 0, 0, 0],
    [1, 3, 7, 0, 0, 0, 0, 0],
    [0, 1, 3, 7, 0, 0, 0, 0],
    [2, 3, 7, 0, 0, 0, 0, 0],
    [0, 2, 3, 7, 0, 0, 0, 0],
    [1, 2, 3, 7, 0, 0, 0, 0],
    [0, 1, 2, 3, 7, 0, 0, 0],
    [4, 7, 0, 0, 0, 0, 0, 0],
    [0, 4, 7, 0, 0, 0, 0, 0],
    [1, 4, 7, 0, 0, 0, 0, 0],
    [0, 1, 4, 7, 0, 0, 0, 0],
    [2, 4, 7, 0, 0, 0, 0, 0],
    [0, 2, 4, 7, 0, 0, 0, 0],
    [1, 2, 4, 7, 0, 0, 0, 0],
    [0, 1, 2, 4, 7, 0, 0, 0],
    [3, 4, 7, 0, 0, 0, 0, 0],
    [0, 3, 4, 7, 0, 0, 0, 0],
    [1, 3, 4, 7, 0, 0, 0, 0],
    [0, 1, 3, 4, 7, 0, 0, 0],
    [2, 3, 4, 7, 0, 0, 0, 0],
    [0, 2, 3, 4, 7, 0, 0, 0],
    [1, 2, 3, 4, 7, 0, 0, 0],
    [0, 1, 2, 3, 4, 7, 0, 0],
    [5, 7, 0, 0, 0, 0, 0, 0],
    [0, 5, 7, 0, 0, 0, 0, 0],
    [1, 5, 7, 0, 0, 0, 0, 0],
    [0, 1, 5, 7, 0, 0, 0, 0],
    [2, 5, 7, 0, 0, 0, 0, 0],
    [0, 2, 5, 7, 0, 0, 0, 0],
    [1, 2, 5, 7, 0, 0, 0, 0],
    [0, 1, 2, 5, 7, 0, 0, 0],
    [3, 5, 7, 0, 0, 0, 0, 0],
    [0, 3, 5, 7, 0, 0, 0, 0],
    [1, 3, 5, 7, 0, 0, 0, 0],
    [0, 1, 3, 5, 7, 0, 0, 0],
    [2, 3, 5, 7, 0, 0, 0, 0],
    [0, 2, 3, 5, 7, 0, 0, 0],
    [1, 2, 3, 5, 7, 0, 0, 0],
    [0, 1, 2, 3, 5, 7, 0, 0],
    [4, 5, 7, 0, 0, 0, 0, 0],
    [0, 4, 5, 7, 0, 0, 0, 0],
    [1, 4, 5, 7, 0, 0, 0, 0],
    [0, 1, 4, 5, 7, 0, 0, 0],
    [2, 4, 5, 7, 0, 0, 0, 0],
    [0, 2, 4, 5, 7, 0, 0, 0],
    [1, 2, 4, 5, 7, 0, 0, 0],
    [0, 1, 2, 4, 5, 7, 0, 0],
    [3, 4, 5, 7, 0, 0, 0, 0],
    [0, 3, 4, 5, 7, 0, 0, 0],
    [1, 3, 4, 5, 7, 0, 0, 0],
    [0, 1, 3, 4, 5, 7, 0, 0],
    [2, 3, 4, 5, 7, 0, 0, 0],
    [0, 2, 3, 4, 5, 7, 0, 0],
    [1, 2, 3, 4, 5, 7, 0, 0],
    [0, 1, 2, 3, 4, 5, 7, 0],
    [6, 7, 0, 0, 0, 0, 0, 0],
    [0, 6, 7, 0, 0, 0, 0, 0],
    [1, 6, 7, 0, 0, 0, 0, 0],
    [0, 1, 6, 7, 0, 0, 0, 0],
    [2, 6, 7, 0, 0, 0, 0, 0],
    [0, 2, 6, 7, 0, 0, 0, 0],
    [1, 2, 6, 7, 0, 0, 0, 0],
    [0, 1, 2, 6, 7, 0, 0, 0],
    [3, 6, 7, 0, 0, 0, 0, 0],
    [0, 3, 6, 7, 0, 0, 0, 0],
    [1, 3, 6, 7, 0, 0, 0, 0],
    [0, 1, 3, 6, 7, 0, 0, 0],
    [2, 3, 6, 7, 0, 0, 0, 0],
    [0, 2, 3, 6, 7, 0, 0, 0],
    [1, 2, 3, 6, 7, 0, 0, 0],
    [0, 1, 2, 3, 6, 7, 0, 0],
    [4, 6, 7, 0, 0, 0, 0, 0],
    [0, 4, 6, 7, 0, 0, 0, 0],
    [1, 4, 6, 7, 0, 0, 0, 0],
    [0, 1, 4, 6, 7, 0, 0, 0],
    [2, 4, 6, 7, 0, 0, 0, 0],
    [0, 2, 4, 6, 7, 0, 0, 0],
    [1, 2, 4, 6, 7, 0, 0, 0],
    [0, 1, 2, 4, 6, 7, 0, 0],
    [3, 4, 6, 7, 0, 0, 0, 0],
    [0, 3, 4, 6, 7, 0, 0, 0],
    [1, 3, 4, 6, 7, 0, 0, 0],
    [0, 1, 3, 4, 6, 7, 0, 0],
    [2, 3, 4, 6, 7, 0, 0, 0],
    [0, 2, 3, 4, 6, 7, 0, 0],
    [1, 2, 3, 4, 6, 7, 0, 0],
    [0, 1, 2, 3, 4, 6, 7, 0],
    [5, 6, 7, 0, 0, 0, 0, 0],
    [0, 5, 6, 7, 0, 0, 0, 0],
    [1, 5, 6, 7, 0, 0, 0, 0],
    [0, 1, 5, 6, 7, 0, 0, 0],
    [2, 5, 6, 7, 0, 0, 0, 0],
    [0, 2, 5, 6, 7, 0, 0, 0],
    [1, 2, 5, 6, 7, 0, 0, 0],
    [0, 1, 2, 5, 6, 7, 0, 0],
    [3, 5, 6, 7, 0, 0, 0, 0],
    [0, 3, 5, 6, 7, 0, 0, 0],
    [1, 3, 5, 6, 7, 0, 0, 0],
    [0, 1, 3, 5, 6, 7, 0, 0],
    [2, 3, 5, 6, 7, 0, 0, 0],
    [0, 2, 3, 5, 6, 7, 0, 0],
    [1, 2, 3, 5, 6, 7, 0, 0],
    [0, 1, 2, 3, 5, 6, 7, 0],
    [4, 5, 6, 7, 0, 0, 0, 0],
    [0, 4, 5, 6, 7, 0, 0, 0],
    [1, 4, 5, 6, 7, 0, 0, 0],
    [0, 1, 4, 5, 6, 7, 0, 0],
    [2, 4, 5, 6, 7, 0, 0, 0],
    [0, 2, 4, 5, 6, 7, 0, 0],
    [1, 2, 4, 5, 6, 7, 0, 0],
    [0, 1, 2, 4, 5, 6, 7, 0],
    [3, 4, 5, 6, 7, 0, 0, 0],
    [0, 3, 4, 5, 6, 7, 0, 0],
    [1, 3, 4, 5, 6, 7, 0, 0],
    [0, 1, 3, 4, 5, 6, 7, 0],
    [2, 3, 4, 5, 6, 7, 0, 0],
    [0, 2, 3, 4, 5, 6, 7, 0],
    [1, 2, 3, 4, 5, 6, 7, 0],
    [0, 1, 2, 3, 4, 5, 6, 7],
];

// The row of a byte.
#[inline(always)]
fn row_of(byte: u8) -> u8x8
    ensures { result ≡ row byte }
{
    u8x8::from_array(ROWS[byte as usize])
}

// The row of a byte, counted from `base`.
#[inline(always)]
fn row_from(byte: u8, base: u32) -> u32x8
    ensures { result ≡ map (λ p. (p + base) % 2 ^ 32) (row byte) }
{
    row_of(byte).cast::<u32>() + u32x8::splat(base)
}

// Writes eight numbers from place `at` on.
#[inline(always)]
fn write_eight(row: u32x8, output: &mut [u32], at: usize)
    requires room { at + 8 ≤ length output.old }
    requires eight { length row ≡ 8 }
    ensures { take (at + 8) output.new ≡ take at output.old ++ row }
{
    row.copy_to_slice(&mut output[at..]);
}

// Writes the places of a byte's bits that are set, counted from `base`, from place `at` on, and
// says where they end.
#[inline(always)]
fn write_byte_places(byte: u8, base: u32, output: &mut [u32], at: usize) -> usize
    requires fits { base + 8 ≤ 2 ^ 32 }
    requires room { at + 8 ≤ length output.old }
    ensures within { result ≡ at + length (set_places 8 base byte) }
    ensures front { take result output.new ≡ take at output.old ++ set_places 8 base byte }
{
    write_eight(row_from(byte, base), output, at);
    at + byte.count_ones() as usize
}

// The same of at most two bits of a word: two places are written, with no branch on how many they
// are.
#[inline(always)]
fn write_few_places(bits: u64, base: u32, output: &mut [u32], at: usize) -> usize
    requires few { count_ones bits ≤ 2 }
    requires fits { base + 64 ≤ 2 ^ 32 }
    requires room { at + 64 ≤ length output.old }
    ensures within { result ≡ at + length (set_places 64 base bits) }
    ensures front { take result output.new ≡ take at output.old ++ set_places 64 base bits }
{
    output[at] = base.wrapping_add(bits.trailing_zeros());
    let later = bits & bits.wrapping_sub(1);
    output[at + 1] = base.wrapping_add(later.trailing_zeros());
    at + bits.count_ones() as usize
}

// The same of a word, by its bytes.
#[inline(always)]
fn write_many_places(bits: u64, base: u32, output: &mut [u32], at: usize) -> usize
    requires fits { base + 64 ≤ 2 ^ 32 }
    requires room { at + 64 ≤ length output.old }
    ensures within { result ≡ at + length (set_places 64 base bits) }
    ensures front { take result output.new ≡ take at output.old ++ set_places 64 base bits }
{
    let mut end = at;
    for k in 0..WORD_LEN {
        let byte = ((bits >> (BYTE_LEN * k)) % BYTE_VALUES) as u8;
        end = write_byte_places(byte, base + BYTE_LEN * k, output, end);
    }
    end
}

// Writes the places of the bits that are set, counted from `base`, from place `at` on, and says
// where they end. It may write up to 64 places behind that.
#[inline(always)]
pub(crate) fn write_set_places(bits: u64, base: u32, output: &mut [u32], at: usize) -> usize
    requires fits { base + 64 ≤ 2 ^ 32 }
    requires room { at + 64 ≤ length output.old }
    ensures within { result ≡ at + length (set_places 64 base bits) }
    ensures front { take result output.new ≡ take at output.old ++ set_places 64 base bits }
{
    if bits.count_ones() <= MAX_FEW {
        write_few_places(bits, base, output, at)
    } else {
        write_many_places(bits, base, output, at)
    }
}

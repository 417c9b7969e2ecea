//! Which of 64 packed numbers lie in a range, compared where they stand: four numbers' bytes are
//! brought into four lanes, each number up by the 0 to 7 bits by which it stands above its first
//! byte, and the ends of the range are moved up alike.
ghost use Rattle.std.specs.Prelude.{◌≡◌, ◌+◌, ◌-◌, ◌*◌, ◌/◌, ◌%◌, ◌^◌, ◌<◌, ◌≤◌};
ghost use Rattle.std.specs.Prelude.{length, ◌++◌, map, IsTrue};
ghost use Rattle.std.specs.Int.{is_in_range};
ghost use Rattle.std.specs.List.{range_with_len};
ghost use Rattle.std.specs.Simd.Lanes.{mask_l};
ghost use Rattle.col_bits.specs.Packed.{number_of, item, items};
ghost use Rattle.col_bits.specs.Places.{is_raised_width};

use std::simd::prelude::*;

// The 32 bits from the first byte of each of four numbers of a block, of which number `from` is the
// first, where byte `start` is the block's first.
#[inline(always)]
fn words_of<const W: usize>(data: &[u8], start: usize, from: usize) -> u32x4
    requires width { IsTrue (is_raised_width W) }
    requires from { from ≤ 60 }
    requires room { start + from * W / 8 + 16 ≤ length «data».now }
    ensures { result ≡ map (λ k. number_of 256 «data».now / 2 ^ (8 * (start + k * W / 8)) % 2 ^ 32)
        (range_with_len from 4) }
{
    let first = from * W / 8;
    let b = ((from + 1) * W / 8 - first) as u8;
    let c = ((from + 2) * W / 8 - first) as u8;
    let d = ((from + 3) * W / 8 - first) as u8;
    let places = u8x16::from_array([
        0,
        1,
        2,
        3,
        b,
        b + 1,
        b + 2,
        b + 3,
        c,
        c + 1,
        c + 2,
        c + 3,
        d,
        d + 1,
        d + 2,
        d + 3,
    ]);
    let bytes = u8x16::from_slice(&data[start + first..]);
    u32x4::from_le_bytes(bytes.swizzle_dyn_within::<16>(places))
}

// A number, moved up as each of four numbers of a block stands.
#[inline(always)]
fn raised<const W: usize>(number: u32, from: usize) -> u32x4
    requires width { IsTrue (is_raised_width W) }
    requires from { from ≤ 60 }
    requires small { number < 2 ^ W }
    ensures { result ≡ map (λ k. number * 2 ^ (k * W % 8)) (range_with_len from 4) }
{
    u32x4::from_array([
        number << (from * W % 8),
        number << ((from + 1) * W % 8),
        number << ((from + 2) * W % 8),
        number << ((from + 3) * W % 8),
    ])
}

// How far each of four numbers of a block lies above `low`, modulo 2^32, where both are moved up.
#[inline(always)]
fn above<const W: usize>(data: &[u8], group: usize, from: usize, low: u32) -> u32x4
    requires width { IsTrue (is_raised_width W) }
    requires from { from ≤ 60 }
    requires group { group < 2 ^ 32 }
    requires small { low < 2 ^ W }
    requires room { group * W + from * W / 8 + 16 ≤ length «data».now }
    ensures { result ≡ map (λ k. (item «data».now W (8 * group + k) * 2 ^ (k * W % 8)
        + (2 ^ 32 - low * 2 ^ (k * W % 8))) % 2 ^ 32) (range_with_len from 4) }
{
    let words = words_of::<W>(data, group * W, from);
    (words & raised::<W>(((1u64 << W) - 1) as u32, from)) - raised::<W>(low, from)
}

// Twice four lanes as eight.
#[inline(always)]
fn join_4(front: u32x4, back: u32x4) -> u32x8
    ensures { result ≡ front ++ back }
{
    front.shuffle(back, [0, 1, 2, 3, 4, 5, 6, 7])
}

// Twice eight lanes as sixteen.
#[inline(always)]
fn join_8(front: u32x8, back: u32x8) -> u32x16
    ensures { result ≡ front ++ back }
{
    front.shuffle(back, [0, 1, 2, 3, 4, 5, 6, 7, 8, 9, 10, 11, 12, 13, 14, 15])
}

// Which of sixteen numbers of a block lie from `low` to `low + span`: a bit for each, the first the
// lowest.
#[inline(always)]
fn hits_of_16<const W: usize>(data: &[u8], group: usize, from: usize, low: u32, span: u32) -> u64
    requires width { IsTrue (is_raised_width W) }
    requires from { from ≤ 48 }
    requires group { group < 2 ^ 32 }
    requires range { low + span < 2 ^ W }
    requires room { (group + 8) * W + 16 ≤ length «data».now }
    ensures value { result ≡ mask_l (map
        (λ k. is_in_range low (low + span) (item «data».now W (8 * group + k)))
        (range_with_len from 16)) }
    ensures small { result < 2 ^ 16 }
{
    let front = join_4(
        above::<W>(data, group, from, low),
        above::<W>(data, group, from + 4, low),
    );
    let back = join_4(
        above::<W>(data, group, from + 8, low),
        above::<W>(data, group, from + 12, low),
    );
    let front_span = join_4(raised::<W>(span, from), raised::<W>(span, from + 4));
    let back_span = join_4(raised::<W>(span, from + 8), raised::<W>(span, from + 12));
    join_8(front, back)
        .simd_le(join_8(front_span, back_span))
        .to_bitmask()
}

// Which of 64 numbers, from a group's first on, lie from `low` to `low + span`: a bit for each, the
// first the lowest.
#[inline(always)]
pub(crate) fn hits_in_place<const W: usize>(data: &[u8], group: usize, low: u32, span: u32) -> u64
    requires width { IsTrue (is_raised_width W) }
    requires group { group < 2 ^ 32 }
    requires range { low + span < 2 ^ W }
    requires room { (group + 8) * W + 16 ≤ length «data».now }
    ensures { result ≡ mask_l (map (is_in_range low (low + span))
        (items «data».now W (8 * group) 64)) }
{
    let a = hits_of_16::<W>(data, group, 0, low, span);
    let b = hits_of_16::<W>(data, group, 16, low, span);
    let c = hits_of_16::<W>(data, group, 32, low, span);
    let d = hits_of_16::<W>(data, group, 48, low, span);
    a + (b << 16) + (c << 32) + (d << 48)
}

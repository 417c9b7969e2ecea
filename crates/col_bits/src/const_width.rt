//! Packed lists of a width that the compiler knows: read by groups of eight, compared by blocks of
//! 64.
ghost use Rattle.std.specs.Prelude.{◌≡◌, ◌+◌, ◌-◌, ◌*◌, ◌/◌, ◌%◌, ◌^◌, ◌<◌, ◌≤◌};
ghost use Rattle.std.specs.Prelude.{length, ◌++◌, map, take, nat_le, IsTrue};
ghost use Rattle.std.specs.Int.{is_in_range};
ghost use Rattle.std.specs.Simd.Lanes.{mask_l};
ghost use Rattle.col_bits.specs.Packed.{item, items, ids_between};
ghost use Rattle.col_bits.specs.Places.{is_raised_width};

use crate::in_place::hits_in_place;
use crate::places::write_set_places;
use crate::words::word;
use std::simd::prelude::*;

// How many numbers take whole bytes, whatever their width.
pub(crate) const GROUP_LEN: usize = 8;

// How many groups are compared at once.
const GROUPS: usize = 8;

// How many numbers are compared at once.
const LANES: usize = 64;

// The same, as a count of ids.
pub(crate) const BLOCK_LEN: u32 = 64;

// The bytes of a load of four numbers.
const LOAD_LEN: usize = 16;

// The widths whose numbers are decoded faster than they are compared where they stand.
const ONE_BYTE: usize = 8;

const TWO_BYTES: usize = 16;

// The greatest widths at which a number has at most 32 bits together with those below it in its
// first byte: of all widths, of even ones, and of multiples of four.
const MAX_RAISED_WIDTH: usize = 25;

const MAX_EVEN_WIDTH: usize = 26;

const MAX_FOURFOLD_WIDTH: usize = 28;

// Number `k` of a group.
#[inline(always)]
fn in_group<const W: usize>(data: &[u8], group: usize, k: usize) -> u64
    requires width { W ≤ 56 }
    requires place { k < 8 }
    requires room { (group + 1) * W + 8 ≤ length «data».now }
    ensures value { result ≡ item «data».now W (8 * group + k) }
    ensures small { W ≤ 32 → result < 2 ^ 32 }
{
    let bit = k * W;
    (word(data, group * W + bit / 8) >> (bit % 8)) & ((1u64 << W) - 1)
}

// Decodes the numbers of as many groups as are compared at once.
#[inline(always)]
fn decode<const W: usize>(group: usize, data: &[u8], block: &mut [u32; LANES])
    requires width { W ≤ 32 }
    requires group { group < 2 ^ 32 }
    requires room { (group + 8) * W + 8 ≤ length «data».now }
    ensures { block.new ≡ items «data».now W (8 * group) 64 }
{
    for g in 0..GROUPS {
        for k in 0..GROUP_LEN {
            block[GROUP_LEN * g + k] = in_group::<W>(data, group + g, k) as u32;
        }
    }
}

// How far each lane lies above `low`, modulo 2^32.
#[inline(always)]
fn above(lanes: u32x64, low: u32) -> u32x64
    ensures { result ≡ map (λ v. (v + (2 ^ 32 - low)) % 2 ^ 32) lanes }
{
    lanes - u32x64::splat(low)
}

// The numbers as lanes.
#[inline(always)]
fn lanes_of(block: &[u32; LANES]) -> u32x64
    ensures { result ≡ block.now }
{
    u32x64::from_slice(block)
}

// Which lanes are at most `span`: a bit for each, the first the lowest.
#[inline(always)]
fn at_most(lanes: u32x64, span: u32) -> u64
    ensures { result ≡ mask_l (map (λ v. nat_le v span) lanes) }
{
    lanes.simd_le(u32x64::splat(span)).to_bitmask()
}

// Which numbers lie from `low` to `low + span`: a bit for each, the first the lowest.
#[inline(always)]
fn hits_of(block: &[u32; LANES], low: u32, span: u32) -> u64
    requires { low + span < 2 ^ 32 }
    ensures { result ≡ mask_l (map (is_in_range low (low + span)) block.now) }
{
    at_most(above(lanes_of(block), low), span)
}

// The greatest number of a width.
#[inline(always)]
fn greatest<const W: usize>() -> u32
    requires width { W ≤ 32 }
    ensures { result ≡ 2 ^ W - 1 }
{
    ((1u64 << W) - 1) as u32
}

// Whether each number has at most 32 bits together with those below it in its first byte.
#[inline(always)]
fn is_raised_width<const W: usize>() -> bool
    ensures { result ≡ is_raised_width W }
{
    W <= MAX_RAISED_WIDTH || W == MAX_EVEN_WIDTH || W == MAX_FOURFOLD_WIDTH
}

// Whether the numbers of a block are compared where they stand: of such a width, and with a load of
// bytes behind.
#[inline(always)]
fn is_in_place<const W: usize>(group: usize, data: &[u8]) -> bool
    requires width { W ≤ 32 }
    requires group { group < 2 ^ 32 }
    ensures { IsTrue result → IsTrue (is_raised_width W)
        × ((group + 8) * W + 16 ≤ length «data».now) }
{
    let is_whole = W == ONE_BYTE || W == TWO_BYTES;
    is_raised_width::<W>() && !is_whole && (group + GROUPS) * W + LOAD_LEN <= data.len()
}

// Which of 64 numbers, from a group's first on, lie from `low` to `low + span`: a bit for each, the
// first the lowest. Where they are decoded, it is into `block`.
#[inline(always)]
fn block_hits<const W: usize>(
    data: &[u8],
    group: usize,
    low: u32,
    span: u32,
    block: &mut [u32; LANES],
) -> u64
    requires width { W ≤ 32 }
    requires group { group < 2 ^ 32 }
    requires range { low + span < 2 ^ W }
    requires room { (group + 8) * W + 8 ≤ length «data».now }
    ensures { result ≡ mask_l (map (is_in_range low (low + span))
        (items «data».now W (8 * group) 64)) }
{
    if is_in_place::<W>(group, data) {
        return hits_in_place::<W>(data, group, low, span);
    }
    decode::<W>(group, data, block);
    hits_of(block, low, span)
}

// Which ids are asked for: those of `count` from `start` on with a number from `low` to
// `low + span`.
#[derive(Clone, Copy)]
pub(crate) struct AskedBlocks {
    pub low: u32,
    pub span: u32,
    pub start: u32,
    pub count: u32,
}

// Writes those that are asked for, as many as whole blocks go into the count, from place `at` on,
// and says where they end.
fn write_ids_of<const W: usize>(
    asked: AskedBlocks,
    data: &[u8],
    output: &mut [u32],
    at: usize,
) -> usize
    requires width { W ≤ 32 }
    requires range { asked.low + asked.span < 2 ^ 32 }
    requires aligned { asked.start % 8 ≡ 0 }
    requires fits { asked.start + asked.count < 2 ^ 32 }
    requires padded { (asked.start + asked.count) * W / 8 + 8 ≤ length «data».now }
    requires room { at + asked.count ≤ length output.old }
    ensures within { result ≤ at + asked.count / 64 * 64 }
    ensures front { take result output.new ≡ take at output.old ++ ids_between «data».now W
        asked.low (asked.low + asked.span) asked.start (asked.count / 64 * 64) }
{
    let AskedBlocks {
        low,
        span,
        start,
        count,
    } = asked;
    if low > greatest::<W>() {
        return at;
    }
    let span = span.min(greatest::<W>() - low);
    let mut block = [0; LANES];
    let mut kept = at;
    for word in 0..count / BLOCK_LEN {
        let base = start + word * BLOCK_LEN;
        let group = base as usize / GROUP_LEN;
        let hits = block_hits::<W>(data, group, low, span, &mut block);
        kept = write_set_places(hits, base, output, kept);
    }
    kept
}

// The same for a width that is known when it runs.
pub(crate) fn write_ids_by_width(
    num_bits: u32,
    asked: AskedBlocks,
    data: &[u8],
    output: &mut [u32],
    at: usize,
) -> usize
    requires width { num_bits ≤ 32 }
    requires range { asked.low + asked.span < 2 ^ 32 }
    requires aligned { asked.start % 8 ≡ 0 }
    requires fits { asked.start + asked.count < 2 ^ 32 }
    requires padded { (asked.start + asked.count) * num_bits / 8 + 8 ≤ length «data».now }
    requires room { at + asked.count ≤ length output.old }
    ensures within { result ≤ at + asked.count / 64 * 64 }
    ensures front { take result output.new ≡ take at output.old ++ ids_between «data».now num_bits
        asked.low (asked.low + asked.span) asked.start (asked.count / 64 * 64) }
{
    match num_bits {
        0 => write_ids_of::<0>(asked, data, output, at),
        1 => write_ids_of::<1>(asked, data, output, at),
        2 => write_ids_of::<2>(asked, data, output, at),
        3 => write_ids_of::<3>(asked, data, output, at),
        4 => write_ids_of::<4>(asked, data, output, at),
        5 => write_ids_of::<5>(asked, data, output, at),
        6 => write_ids_of::<6>(asked, data, output, at),
        7 => write_ids_of::<7>(asked, data, output, at),
        8 => write_ids_of::<8>(asked, data, output, at),
        9 => write_ids_of::<9>(asked, data, output, at),
        10 => write_ids_of::<10>(asked, data, output, at),
        11 => write_ids_of::<11>(asked, data, output, at),
        12 => write_ids_of::<12>(asked, data, output, at),
        13 => write_ids_of::<13>(asked, data, output, at),
        14 => write_ids_of::<14>(asked, data, output, at),
        15 => write_ids_of::<15>(asked, data, output, at),
        16 => write_ids_of::<16>(asked, data, output, at),
        17 => write_ids_of::<17>(asked, data, output, at),
        18 => write_ids_of::<18>(asked, data, output, at),
        19 => write_ids_of::<19>(asked, data, output, at),
        20 => write_ids_of::<20>(asked, data, output, at),
        21 => write_ids_of::<21>(asked, data, output, at),
        22 => write_ids_of::<22>(asked, data, output, at),
        23 => write_ids_of::<23>(asked, data, output, at),
        24 => write_ids_of::<24>(asked, data, output, at),
        25 => write_ids_of::<25>(asked, data, output, at),
        26 => write_ids_of::<26>(asked, data, output, at),
        27 => write_ids_of::<27>(asked, data, output, at),
        28 => write_ids_of::<28>(asked, data, output, at),
        29 => write_ids_of::<29>(asked, data, output, at),
        30 => write_ids_of::<30>(asked, data, output, at),
        31 => write_ids_of::<31>(asked, data, output, at),
        _ => write_ids_of::<32>(asked, data, output, at),
    }
}

// Writes the numbers of groups, from `group` on, from place `at` on.
fn read_groups<const W: usize>(
    group: usize,
    data: &[u8],
    output: &mut [u64],
    at: usize,
    groups: usize,
)
    requires width { W ≤ 56 }
    requires fits { group + groups ≤ 2 ^ 32 }
    requires padded { (group + groups) * W + 8 ≤ length «data».now }
    requires room { at + 8 * groups ≤ length output.old }
    ensures { take (at + 8 * groups) output.new ≡ take at output.old
        ++ items «data».now W (8 * group) (8 * groups) }
{
    for g in 0..groups {
        for k in 0..GROUP_LEN {
            output[at + (GROUP_LEN * g + k)] = in_group::<W>(data, group + g, k);
        }
    }
}

// The same for a width that is known when it runs.
pub(crate) fn read_groups_by_width(
    num_bits: u32,
    group: usize,
    data: &[u8],
    output: &mut [u64],
    at: usize,
    groups: usize,
)
    requires width { num_bits ≤ 56 }
    requires fits { group + groups ≤ 2 ^ 32 }
    requires padded { (group + groups) * num_bits + 8 ≤ length «data».now }
    requires room { at + 8 * groups ≤ length output.old }
    ensures { take (at + 8 * groups) output.new ≡ take at output.old
        ++ items «data».now num_bits (8 * group) (8 * groups) }
{
    match num_bits {
        0 => read_groups::<0>(group, data, output, at, groups),
        1 => read_groups::<1>(group, data, output, at, groups),
        2 => read_groups::<2>(group, data, output, at, groups),
        3 => read_groups::<3>(group, data, output, at, groups),
        4 => read_groups::<4>(group, data, output, at, groups),
        5 => read_groups::<5>(group, data, output, at, groups),
        6 => read_groups::<6>(group, data, output, at, groups),
        7 => read_groups::<7>(group, data, output, at, groups),
        8 => read_groups::<8>(group, data, output, at, groups),
        9 => read_groups::<9>(group, data, output, at, groups),
        10 => read_groups::<10>(group, data, output, at, groups),
        11 => read_groups::<11>(group, data, output, at, groups),
        12 => read_groups::<12>(group, data, output, at, groups),
        13 => read_groups::<13>(group, data, output, at, groups),
        14 => read_groups::<14>(group, data, output, at, groups),
        15 => read_groups::<15>(group, data, output, at, groups),
        16 => read_groups::<16>(group, data, output, at, groups),
        17 => read_groups::<17>(group, data, output, at, groups),
        18 => read_groups::<18>(group, data, output, at, groups),
        19 => read_groups::<19>(group, data, output, at, groups),
        20 => read_groups::<20>(group, data, output, at, groups),
        21 => read_groups::<21>(group, data, output, at, groups),
        22 => read_groups::<22>(group, data, output, at, groups),
        23 => read_groups::<23>(group, data, output, at, groups),
        24 => read_groups::<24>(group, data, output, at, groups),
        25 => read_groups::<25>(group, data, output, at, groups),
        26 => read_groups::<26>(group, data, output, at, groups),
        27 => read_groups::<27>(group, data, output, at, groups),
        28 => read_groups::<28>(group, data, output, at, groups),
        29 => read_groups::<29>(group, data, output, at, groups),
        30 => read_groups::<30>(group, data, output, at, groups),
        31 => read_groups::<31>(group, data, output, at, groups),
        32 => read_groups::<32>(group, data, output, at, groups),
        33 => read_groups::<33>(group, data, output, at, groups),
        34 => read_groups::<34>(group, data, output, at, groups),
        35 => read_groups::<35>(group, data, output, at, groups),
        36 => read_groups::<36>(group, data, output, at, groups),
        37 => read_groups::<37>(group, data, output, at, groups),
        38 => read_groups::<38>(group, data, output, at, groups),
        39 => read_groups::<39>(group, data, output, at, groups),
        40 => read_groups::<40>(group, data, output, at, groups),
        41 => read_groups::<41>(group, data, output, at, groups),
        42 => read_groups::<42>(group, data, output, at, groups),
        43 => read_groups::<43>(group, data, output, at, groups),
        44 => read_groups::<44>(group, data, output, at, groups),
        45 => read_groups::<45>(group, data, output, at, groups),
        46 => read_groups::<46>(group, data, output, at, groups),
        47 => read_groups::<47>(group, data, output, at, groups),
        48 => read_groups::<48>(group, data, output, at, groups),
        49 => read_groups::<49>(group, data, output, at, groups),
        50 => read_groups::<50>(group, data, output, at, groups),
        51 => read_groups::<51>(group, data, output, at, groups),
        52 => read_groups::<52>(group, data, output, at, groups),
        53 => read_groups::<53>(group, data, output, at, groups),
        54 => read_groups::<54>(group, data, output, at, groups),
        55 => read_groups::<55>(group, data, output, at, groups),
        _ => read_groups::<56>(group, data, output, at, groups),
    }
}

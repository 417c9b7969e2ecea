//! Reads a list behind codes: its parts, its footer, and its codes in one pass.
ghost use Rattle.std.specs.Prelude.{◌≡◌, ◌≤◌, ◌&&◌, ◌==◌, true, option_map, take, length, IfOk, IfSome};
ghost use Rattle.std.specs.Int.{w64};
ghost use Rattle.col_common.specs.Decoding.{Decodes};
ghost use Rattle.col_common.specs.Reading.{parts_by_second, back};
ghost use Rattle.col_bits.specs.Packed.{items};
ghost use Rattle.col_model.specs.Stats.{least_of, greatest_of};
ghost use Rattle.col_model.specs.AddressList.{code_count};
ghost use Rattle.col_compact.specs.Coded.{are_codes, coded_by, coded_list, coded_in, CodesAreRead, IsFrontOf, NumbersRise};

use crate::codec_params::{IPCodecParams, read_footer};
use crate::compact_space::CompactSpace;
use col_bits::{BitUnpacker, is_packed};
use col_common::ColumnarError;
use std::alloc::Global;

// The bytes of a length.
const LEN_NUM_BYTES: usize = 8;

// How many codes are read at once.
const BLOCK_LEN: usize = 256;

// The parameters behind a list's codes, and how many bytes these take.
pub(crate) fn read_list(
    alloc: Global,
    bytes: &[u8],
) -> Result<(IPCodecParams, usize), ColumnarError>
    ensures list { Decodes (λ r. coded_in r.0 (take r.1 bytes.now)) result (coded_list bytes.now) }
    ensures coded { IfOk result (λ r. CodesAreRead r.0 (take r.1 bytes.now)) }
    ensures within { IfOk result (λ r. r.1 ≤ length bytes.now) }
{
    let Some((codes, footer)) = cut_parts(bytes) else {
        return Err(ColumnarError::InvalidData);
    };
    Ok((read_codes(alloc, codes, footer)?, codes.len()))
}

// The parameters behind codes, which must be theirs.
fn read_codes(alloc: Global, codes: &[u8], footer: &[u8]) -> Result<IPCodecParams, ColumnarError>
    ensures list { Decodes (λ params. coded_in params codes.now) result
        (coded_by codes.now footer.now) }
    ensures coded { IfOk result (λ params. CodesAreRead params codes.now) }
{
    let params = read_footer(alloc, footer)?;
    let num_bits = params.bit_unpacker().bit_width() as usize;
    if !is_packed(codes, params.num_vals() as usize * num_bits) {
        return Err(ColumnarError::InvalidData);
    }
    if !are_codes(&params, codes) {
        return Err(ColumnarError::InvalidData);
    }
    Ok(params)
}

// Whether each is a code, and the parameters' bounds are those of the numbers.
fn are_codes(params: &IPCodecParams, codes: &[u8]) -> bool
    ensures { result ≡
        are_codes params.now (items codes.now params.now.code_width 0 params.now.count) }
{
    let count = params.num_vals();
    if count == 0 {
        return true;
    }
    let (least, greatest) = code_bounds(params.bit_unpacker(), codes, count);
    params.have_bounds(least, greatest)
}

// The least and the greatest code.
fn code_bounds(unpacker: BitUnpacker, codes: &[u8], count: u32) -> (u64, u64)
    requires { 1 ≤ count }
    ensures least { result.0 ≡ least_of (items codes.now unpacker 0 count) }
    ensures greatest { result.1 ≡ greatest_of (items codes.now unpacker 0 count) }
{
    let first = unpacker.get(0, codes);
    let mut least = first;
    let mut greatest = first;
    let mut block = [0; BLOCK_LEN];
    let mut start = 1;
    while (count - start) as usize >= BLOCK_LEN {
        unpacker.get_range(start, codes, &mut block);
        for at in 0..BLOCK_LEN {
            least = least.min(block[at]);
            greatest = greatest.max(block[at]);
        }
        start += BLOCK_LEN as u32;
    }
    for idx in start..count {
        let code = unpacker.get(idx, codes);
        least = least.min(code);
        greatest = greatest.max(code);
    }
    (least, greatest)
}

// The two parts behind which the length of the second stands.
#[tactic(auto, unfolding(col_common::specs::Reading::parts_by_second))]
fn cut_parts(bytes: &[u8]) -> Option<(&[u8], &[u8])>
    ensures parts { option_map (λ r. (r.0.now, r.1.now)) result ≡ parts_by_second w64 bytes.now }
    ensures front { IfSome result (λ r. IsFrontOf r.0.now bytes.now) }
{
    let (both, len) = cut_back(bytes, LEN_NUM_BYTES)?;
    let second = u64::from_le_bytes([
        len[0], len[1], len[2], len[3], len[4], len[5], len[6], len[7],
    ]);
    cut_back(both, second as usize)
}

// The others, and the last bytes, so many.
fn cut_back(bytes: &[u8], count: usize) -> Option<(&[u8], &[u8])>
    ensures parts { option_map (λ r. (r.0.now, r.1.now)) result ≡ back count bytes.now }
    ensures front { IfSome result (λ r. IsFrontOf r.0.now bytes.now) }
{
    if count > bytes.len() {
        return None;
    }
    Some(bytes.split_at(bytes.len() - count))
}

impl CompactSpace {
    ghost use Rattle.std.specs.Prelude.{ℕ, List, map, ◌<◌};
    ghost use Rattle.std.specs.Int.{is_in_range};
    ghost use Rattle.std.specs.List.{list_all};
    ghost use Rattle.col_model.specs.AddressList.{coded_number, first_start, last_end};

    // That codes begin with 1 and end with their count, where their numbers begin and end as the
    // ranges do.
    pub(crate) fn codes_end_as_ranges_do(&self)
        ensures { (codes : List ℕ) → 0 < length codes →
            (list_all (is_in_range 1 (code_count self.now)) codes
            && (least_of (map (coded_number self.now) codes) == first_start self.now)
            && (greatest_of (map (coded_number self.now) codes) == last_end self.now)) ≡ true →
            (least_of codes ≡ 1) × (greatest_of codes ≡ code_count self.now) }
    {
        // That the ranges stand apart, in order, is known of a space.
        let _ranges = &self.ranges_mapping;
    }

    // That a greater code stands for a greater number.
    pub(crate) fn numbers_rise(&self)
        ensures { NumbersRise self.now }
    {
        // That the ranges stand apart, in order, is known of a space.
        let _ranges = &self.ranges_mapping;
    }

    // Whether codes with these bounds are codes of the ranges, and their numbers begin and end
    // where the ranges do.
    pub(crate) fn has_ends(&self, least: u64, greatest: u64) -> bool
        ensures { (codes : List ℕ) → 0 < length codes → least ≡ least_of codes →
            greatest ≡ greatest_of codes → result ≡
            (list_all (is_in_range 1 (code_count self.now)) codes
            && (least_of (map (coded_number self.now) codes) == first_start self.now)
            && (greatest_of (map (coded_number self.now) codes) == last_end self.now)) }
    {
        // That the ranges stand apart, in order, is known of a space.
        let _ranges = &self.ranges_mapping;
        let last = u64::from(self.amplitude_compact_space());
        is_same_pair(least, greatest, 1, last)
    }
}

// Whether both are equal.
fn is_same_pair(first: u64, second: u64, other_first: u64, other_second: u64) -> bool
    ensures { result ≡ ((first == other_first) && (second == other_second)) }
{
    first == other_first && second == other_second
}

//! What stands behind the codes of a list.
ghost use Rattle.std.specs.Prelude.{◌≡◌, ℕ, List, length, ◌^◌, ◌<◌, ◌≤◌, ◌&&◌, ◌==◌, option_map, true, IfSome};
ghost use Rattle.col_common.specs.Decoding.{Decodes, DecodesFront};
ghost use Rattle.col_bits.specs.Packed.{width};
ghost use Rattle.col_model.specs.AddressList.{address_footer_at, address_footer, are_zeros, are_bounds, code_count, coded_number, first_start, last_end};
ghost use Rattle.col_compact.specs.Params.{behind_flags, head_at, footer_of, CountFits};
ghost use Rattle.col_model.specs.Stats.{least_of, greatest_of};
ghost use Rattle.col_compact.specs.Coded.{are_codes, NumbersRise};
ghost use Rattle.col_compact.specs.Hits.{hit_at};
ghost use Rattle.col_compact.specs.Heads.{head_seen};

use crate::compact_space::{CompactHit, CompactSpace};
use crate::counted_codes::CountedCodes;
use crate::reading::read_space;
use col_bits::{BitUnpacker, compute_num_bits};
use col_common::{ColumnarError, read_vint_u128};
use std::alloc::Global;
use std::marker::Model;
use std::sync::ledger::Ledger;

// The bytes of the flags, which are all 0.
const FLAGS_NUM_BYTES: usize = 8;

/// What stands behind the codes of a list: its ranges, and how many numbers it has.
#[derive(Drop)]
pub struct IPCodecParams {
    pub(crate) compact_space: CompactSpace,
    pub(crate) bit_unpacker: BitUnpacker,
    pub(crate) num_vals: u32,
}

impl Model for IPCodecParams {
    ghost use Rattle.std.specs.Prelude.{◌≡◌};
    ghost use Rattle.col_bits.specs.Packed.{width};
    ghost use Rattle.col_model.specs.AddressList.{AddressFooter, code_count};
    ghost use Rattle.col_compact.specs.Params.{footer_of, CountFits};

    ghost Value = { AddressFooter };

    ghost view = { λ s. footer_of s.compact_space s.num_vals s.bit_unpacker };

    ghost invariant = { λ s. (s.bit_unpacker ≡ width (code_count s.compact_space))
        × CountFits s.compact_space s.num_vals };
}

impl IPCodecParams {
    /// The parameters of so many numbers in these ranges.
    pub(crate) fn new(compact_space: CompactSpace, num_vals: u32) -> IPCodecParams
        requires { CountFits compact_space num_vals }
        ensures { result ≡ footer_of compact_space num_vals (width (code_count compact_space)) }
    {
        let num_bits = compute_num_bits(u64::from(compact_space.amplitude_compact_space()));
        IPCodecParams {
            compact_space,
            bit_unpacker: BitUnpacker::new(num_bits),
            num_vals,
        }
    }

    // How many numbers the list has.
    pub(crate) fn num_vals(&self) -> u32
        ensures value { result ≡ self.now.count }
        ensures none { self.now.count ≡ 0 → (self.now.least ≡ 0) × (self.now.greatest ≡ 0) }
    {
        self.num_vals
    }

    // The least number.
    pub(crate) fn min_value(&self) -> u128
        ensures { result ≡ self.now.least }
    {
        self.compact_space.min_value()
    }

    // The greatest number.
    pub(crate) fn max_value(&self) -> u128
        ensures { result ≡ self.now.greatest }
    {
        self.compact_space.max_value()
    }

    // A reader of codes.
    pub(crate) fn bit_unpacker(&self) -> BitUnpacker
        ensures value { result ≡ self.now.code_width }
        ensures width { self.now.code_width ≡ width (code_count self.now.ranges) }
    {
        self.bit_unpacker
    }

    // That codes have the width of their count, how many there are, where they begin and end, and
    // that they rise with their numbers.
    pub(crate) fn codes_have_their_width(&self)
        ensures width { self.now.code_width ≡ width (code_count self.now.ranges) }
        ensures few { code_count self.now.ranges < 2 ^ 32 }
        ensures ends { (codes : List ℕ) → 0 < length codes → are_codes self.now codes ≡ true →
            (least_of codes ≡ 1) × (greatest_of codes ≡ code_count self.now.ranges) }
        ensures rising { NumbersRise self.now.ranges }
    {
        self.compact_space.codes_end_as_ranges_do();
        self.compact_space.numbers_rise();
        // That codes have the width of their count, and that it has 32 bits, is known of both.
        let _width = &self.bit_unpacker;
        let _count = self.compact_space.amplitude_compact_space();
    }

    // The number that a code stands for.
    #[inline(always)]
    pub(crate) fn compact_to_u128(&self, compact: u32) -> u128
        requires first { 1 ≤ compact }
        requires last { compact ≤ code_count self.now.ranges }
        ensures { result ≡ coded_number self.now.ranges compact }
    {
        self.compact_space.compact_to_u128(compact)
    }

    // The codes of the ranges, each turn of which is a step.
    pub(crate) fn counted_codes<L: Ledger>(&self) -> CountedCodes<'_, L>
        ensures { result ≡ self.now.ranges }
    {
        CountedCodes::new(&self.compact_space)
    }

    // The code of a number, else of the next one that a range has.
    pub(crate) fn u128_to_next_compact(&self, value: u128) -> CompactHit
        ensures { result ≡ hit_at self.now.ranges value }
    {
        self.compact_space.u128_to_next_compact(value)
    }

    // The greatest code.
    pub(crate) fn max_code(&self) -> u32
        ensures { result ≡ code_count self.now.ranges }
    {
        self.compact_space.amplitude_compact_space()
    }

    // Whether codes with these bounds are codes of the ranges, and their numbers have the
    // parameters' bounds.
    pub(crate) fn have_bounds(&self, least: u64, greatest: u64) -> bool
        ensures { (codes : List ℕ) → 0 < length codes → least ≡ least_of codes →
            greatest ≡ greatest_of codes → result ≡ are_codes self.now codes }
    {
        self.compact_space.has_ends(least, greatest)
    }

    /// Takes the parameters at the front.
    pub fn deserialize(alloc: Global, data: &mut &[u8]) -> Result<IPCodecParams, ColumnarError>
        ensures { DecodesFront (λ params. params) result
            (address_footer_at «data».old.now) «data».old.now «data».new.now }
    {
        match read_params(alloc, data) {
            Ok((params, rest)) => {
                *data = rest;
                Ok(params)
            }
            Err(refusal) => Err(refusal),
        }
    }
}

// The parameters that all the bytes spell.
pub(crate) fn read_footer(alloc: Global, bytes: &[u8]) -> Result<IPCodecParams, ColumnarError>
    ensures { Decodes (λ params. params) result (address_footer bytes.now) }
{
    match read_params(alloc, bytes) {
        Ok((params, rest)) => {
            if !rest.is_empty() {
                return Err(ColumnarError::InvalidData);
            }
            Ok(params)
        }
        Err(refusal) => Err(refusal),
    }
}

// The parameters at the front, and the bytes behind them.
fn read_params(alloc: Global, bytes: &[u8]) -> Result<(IPCodecParams, &[u8]), ColumnarError>
    ensures { Decodes (λ r. (r.0, r.1.now)) result (address_footer_at bytes.now) }
{
    let Some((head, rest)) = read_head(bytes) else {
        return Err(ColumnarError::InvalidData);
    };
    match read_space(alloc, rest) {
        Ok((space, rest)) => {
            if !is_head_of(&head, &space) {
                return Err(ColumnarError::InvalidData);
            }
            Ok((IPCodecParams::new(space, head.num_vals), rest))
        }
        Err(refusal) => Err(refusal),
    }
}

// What the parameters say before their ranges.
#[derive(Clone, Copy)]
struct Head {
    min_value: u128,
    max_value: u128,
    num_vals: u32,
    num_bits: u8,
}

// Whether that is true of the ranges.
fn is_head_of(head: &Head, space: &CompactSpace) -> bool
    ensures { result ≡ ((head.now.num_bits == width (code_count space.now))
        && (first_start space.now == head.now.min_value)
        && (last_end space.now == head.now.max_value)) }
{
    let num_bits = compute_num_bits(u64::from(space.amplitude_compact_space()));
    head.num_bits == num_bits
        && space.min_value() == head.min_value
        && space.max_value() == head.max_value
}

// It, at the front, and the bytes behind it.
#[tactic(auto, unfolding(crate::specs::Params::head_at))]
fn read_head(bytes: &[u8]) -> Option<(Head, &[u8])>
    ensures head { option_map (λ r. (head_seen r.0, r.1.now)) result ≡ head_at bytes.now }
    ensures bounds { IfSome result (λ r.
        are_bounds r.0.min_value r.0.max_value r.0.num_vals ≡ true) }
{
    let rest = skip_flags(bytes)?;
    let (min_value, rest) = read_vint_u128(rest)?;
    let (max_value, rest) = read_vint_u128(rest)?;
    let (num_vals, rest) = read_vint_u128(rest)?;
    let [num_bits, rest @ ..] = rest else {
        return None;
    };
    if !are_bounds(min_value, max_value, num_vals) {
        return None;
    }
    let head = Head {
        min_value,
        max_value,
        num_vals: num_vals as u32,
        num_bits: *num_bits,
    };
    Some((head, rest))
}

// Whether bounds and count show no fault by themselves.
fn are_bounds(min_value: u128, max_value: u128, num_vals: u128) -> bool
    ensures { result ≡ are_bounds min_value max_value num_vals }
{
    if num_vals > u128::from(u32::MAX) {
        return false;
    }
    if num_vals < 2 && min_value != max_value {
        return false;
    }
    num_vals > 0 || max_value == 0
}

// The bytes behind the flags.
fn skip_flags(bytes: &[u8]) -> Option<&[u8]>
    ensures { option_map (λ r. r.now) result ≡ behind_flags bytes.now }
{
    if bytes.len() < FLAGS_NUM_BYTES {
        return None;
    }
    let (flags, rest) = bytes.split_at(FLAGS_NUM_BYTES);
    if !are_zeros(flags) {
        return None;
    }
    Some(rest)
}

// Whether all bytes are 0.
fn are_zeros(bytes: &[u8]) -> bool
    ensures { result ≡ are_zeros bytes.now }
{
    bytes.iter().all(|byte| *byte == 0)
}

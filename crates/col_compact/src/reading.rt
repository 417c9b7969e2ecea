//! Reads ranges.
ghost use Rattle.std.specs.Prelude.{◌≡◌, ◌+◌, ◌<◌, ◌≤◌, option_map, IfSome, IfOk};
ghost use Rattle.col_common.specs.Decoding.{Decodes, DecodesFront};
ghost use Rattle.col_model.specs.AddressList.{pair_at, ranges_at};
ghost use Rattle.col_compact.specs.Mapped.{range_of, ranges_of, IsSpace};
ghost use Rattle.col_compact.specs.Reading.{range_at, ranges_behind};

use crate::build_compact_space::MIN_BLANK_SIZE;
use crate::compact_space::{CompactSpace, RangeMapping};
use crate::kept_range::KeptRange;
use col_common::{ColumnarError, read_vint, read_vint_u128};
use std::alloc::Global;

// How far a range starts at least above the end of the one before.
const LEAST_DISTANCE: u128 = MIN_BLANK_SIZE + 1;

// Two numbers at the front, and the bytes behind them.
fn read_pair(bytes: &[u8]) -> Option<((u128, u128), &[u8])>
    ensures { option_map (λ r. (r.0, r.1.now)) result ≡ pair_at bytes.now }
{
    let (first, rest) = read_vint_u128(bytes)?;
    let (second, rest) = read_vint_u128(rest)?;
    Some(((first, second), rest))
}

// The range at the front, behind one that ended at `before`, at least `apart` above it, where
// so many codes are taken; and the bytes behind it.
#[tactic(auto, unfolding(crate::specs::Reading::range_at))]
fn read_range(before: u128, apart: u128, codes: u32, bytes: &[u8]) -> Option<(RangeMapping, &[u8])>
    ensures range { option_map (λ r. (range_of r.0, r.1.now)) result
        ≡ range_at before apart codes bytes.now }
    ensures code { IfSome result (λ r. r.0.compact_start ≡ codes + 1) }
{
    let ((distance, len), rest) = read_pair(bytes)?;
    if distance < apart {
        return None;
    }
    let start = before.checked_add(distance)?;
    let end = start.checked_add(len)?;
    if len >= u128::from(u32::MAX - codes) {
        return None;
    }
    Some((
        RangeMapping {
            start,
            end,
            compact_start: codes + 1,
        },
        rest,
    ))
}

// So many ranges at the front, and the bytes behind them.
fn read_ranges(
    alloc: Global,
    count: u64,
    bytes: &[u8],
) -> Result<(Vec<KeptRange>, &[u8]), ColumnarError>
    requires { 1 ≤ count }
    ensures ranges { Decodes (λ r. (ranges_of r.0.items, r.1.now)) result
        (ranges_behind 0 0 0 count bytes.now) }
    ensures space { IfOk result (λ r. IsSpace r.0.items) }
{
    let mut ranges = Vec::new(alloc);
    let mut rest = bytes;
    let mut before = 0;
    let mut apart = 0;
    let mut codes = 0;
    for _done in 0..count {
        let Some((range, behind)) = read_range(before, apart, codes, rest) else {
            return Err(ColumnarError::InvalidData);
        };
        rest = behind;
        before = range.end;
        apart = LEAST_DISTANCE;
        codes = range.compact_start + (range.end - range.start) as u32;
        ranges.push(KeptRange::new(range))?;
    }
    Ok((ranges, rest))
}

impl CompactSpace {
    /// Takes the ranges at the front.
    pub fn deserialize(alloc: Global, data: &mut &[u8]) -> Result<CompactSpace, ColumnarError>
        ensures { DecodesFront (λ space. space) result
            (ranges_at «data».old.now) «data».old.now «data».new.now }
    {
        match read_space(alloc, data) {
            Ok((space, rest)) => {
                *data = rest;
                Ok(space)
            }
            Err(refusal) => Err(refusal),
        }
    }
}

// A number of ranges and the ranges at the front, and the bytes behind them.
pub(crate) fn read_space(
    alloc: Global,
    bytes: &[u8],
) -> Result<(CompactSpace, &[u8]), ColumnarError>
    ensures { Decodes (λ r. (r.0, r.1.now)) result (ranges_at bytes.now) }
{
    let Some((count, rest)) = read_vint(bytes) else {
        return Err(ColumnarError::InvalidData);
    };
    if count == 0 {
        return Err(ColumnarError::InvalidData);
    }
    match read_ranges(alloc, count, rest) {
        Ok((ranges_mapping, rest)) => Ok((CompactSpace::with_hints(alloc, ranges_mapping)?, rest)),
        Err(refusal) => Err(refusal),
    }
}

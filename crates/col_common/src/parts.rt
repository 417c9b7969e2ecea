//! Parts of bytes, each taken exactly or none.
ghost use Rattle.std.specs.Prelude.{◌≡◌, ◌≤◌, ◌-◌, drop, length, option_map};
ghost use Rattle.std.specs.Int.{w32, w64, from_le_bytes};
ghost use Rattle.col_common.specs.Decoding.{Decodes};
ghost use Rattle.col_common.specs.Reading.{front, back, le_number, parts_by_first, parts_by_second};

use crate::ColumnarError;
use bytes::Bytes;

/// How many bytes a u32 takes.
pub const U32_NUM_BYTES: usize = 4;

/// How many bytes a u64 takes.
pub const U64_NUM_BYTES: usize = 8;

/// The first bytes, so many, and the others.
pub fn front_of(count: u64, bytes: &[u8]) -> Option<(&[u8], &[u8])>
    ensures { option_map (λ p. (p.0.now, p.1.now)) result ≡ front count bytes.now }
{
    if count as usize > bytes.len() {
        return None;
    }
    Some(bytes.split_at(count as usize))
}

/// The others, and the last bytes, so many.
pub fn back_of(count: u64, bytes: &[u8]) -> Option<(&[u8], &[u8])>
    ensures { option_map (λ p. (p.0.now, p.1.now)) result ≡ back count bytes.now }
{
    if count as usize > bytes.len() {
        return None;
    }
    Some(bytes.split_at(bytes.len() - count as usize))
}

/// The number in the first four bytes, the lowest first, and the other bytes.
pub fn u32_at(bytes: &[u8]) -> Option<(u32, &[u8])>
    ensures { option_map (λ p. (p.0, p.1.now)) result ≡ le_number w32 bytes.now }
{
    if bytes.len() < U32_NUM_BYTES {
        return None;
    }
    let (number, rest) = bytes.split_at(U32_NUM_BYTES);
    let number = u32::from_le_bytes([number[0], number[1], number[2], number[3]]);
    Some((number, rest))
}

/// The number in the first eight bytes, the lowest first, and the other bytes.
pub fn u64_at(bytes: &[u8]) -> Option<(u64, &[u8])>
    ensures { option_map (λ p. (p.0, p.1.now)) result ≡ le_number w64 bytes.now }
{
    if bytes.len() < U64_NUM_BYTES {
        return None;
    }
    let (number, rest) = bytes.split_at(U64_NUM_BYTES);
    Some((whole_number(number), rest))
}

/// The number that eight bytes spell, the lowest first.
pub fn whole_number(bytes: &[u8]) -> u64
    requires { length bytes.now ≡ U64_NUM_BYTES }
    ensures { result ≡ from_le_bytes w64 bytes.now }
{
    let n = bytes;
    u64::from_le_bytes([n[0], n[1], n[2], n[3], n[4], n[5], n[6], n[7]])
}

/// Two parts, behind which the length of the second stands.
#[tactic(auto, unfolding(crate::specs::Reading::parts_by_second))]
pub fn split_by_second(bytes: &[u8]) -> Option<(&[u8], &[u8])>
    ensures { option_map (λ p. (p.0.now, p.1.now)) result ≡ parts_by_second w64 bytes.now }
{
    let (parts, len) = back_of(U64_NUM_BYTES as u64, bytes)?;
    back_of(whole_number(len), parts)
}

/// Two parts, behind which the length of the first stands, as cuts of the buffer.
#[tactic(auto, unfolding(crate::specs::Reading::parts_by_first))]
pub fn cut_by_first(bytes: Bytes) -> Result<(Bytes, Bytes), ColumnarError>
    ensures { Decodes (λ p. (p.0, p.1)) result (parts_by_first w64 bytes) }
{
    let mut parts = bytes;
    if parts.len() < U64_NUM_BYTES {
        return Err(ColumnarError::InvalidData);
    }
    let first_len = parts.split_off(parts.len() - U64_NUM_BYTES)?;
    let first_len = whole_number(first_len.as_slice()) as usize;
    if first_len > parts.len() {
        return Err(ColumnarError::InvalidData);
    }
    let first = parts.split_to(first_len)?;
    Ok((first, parts))
}

/// The last bytes, as many as a reader of the slice left.
pub fn cut_rest(bytes: Bytes, rest_len: usize) -> Bytes
    requires { rest_len ≤ length bytes }
    ensures { result ≡ drop (length bytes - rest_len) bytes }
{
    let mut rest = bytes;
    rest.advance(rest.len() - rest_len);
    rest
}

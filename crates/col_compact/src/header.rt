//! What stands before the codes of a list: how many numbers it has, and how they are kept.
ghost use Rattle.std.specs.Prelude.{◌≡◌, ◌≤◌, ◌-◌, ◌++◌, ◌∷◌, [], ℕ, List, Some, drop, length, option_map, IfSome};
ghost use Rattle.col_common.specs.Decoding.{TakesFront};
ghost use Rattle.col_common.specs.Serializing.{Serializes};
ghost use Rattle.col_common.specs.VInt.{vint_bytes};
ghost use Rattle.col_model.specs.AddressList.{header_at};
ghost use Rattle.col_compact.specs.Headers.{codec_of, kind_at};

use bytes::Bytes;
use col_common::{ColumnarError, InvalidData, Sink, VInt, cut_rest, read_vint, serialize_bytes};

/// The code of compact spaces.
pub(crate) const COMPACT_SPACE_CODE: u8 = 1;

/// How numbers of 128 bits are kept.
#[derive(Clone, Copy, Debug, PartialEq, Eq, PartialOrd, Ord)]
pub enum U128FastFieldCodecType {
    /// As codes over few ranges.
    CompactSpace,
}

impl U128FastFieldCodecType {
    ghost use Rattle.col_compact.specs.Headers.{codec_of, kind_at};

    /// The codec's code.
    pub fn to_code(self) -> u8
        ensures { result ≡ 1 }
    {
        COMPACT_SPACE_CODE
    }

    /// The codec of a code.
    pub fn from_code(code: u8) -> Option<U128FastFieldCodecType>
        ensures { result ≡ codec_of code }
    {
        if code == COMPACT_SPACE_CODE {
            Some(U128FastFieldCodecType::CompactSpace)
        } else {
            None
        }
    }

    /// Adds the codec's code.
    pub fn serialize<K: Sink>(&self, sink: &mut K) -> Result<(), ColumnarError>
        ensures { Serializes (K.seen sink.old) (K.seen sink.new) result (1 ∷ []) }
    {
        serialize_bytes(sink, &[self.to_code()])
    }

    /// Takes the codec of the code at the front.
    pub fn deserialize(data: &mut &[u8]) -> Result<U128FastFieldCodecType, InvalidData>
        ensures { TakesFront (λ kind. kind) result (kind_at «data».old.now)
            «data».old.now «data».new.now }
    {
        let bytes = *data;
        let [code, rest @ ..] = bytes else {
            return Err(InvalidData);
        };
        let Some(kind) = U128FastFieldCodecType::from_code(*code) else {
            return Err(InvalidData);
        };
        *data = rest;
        Ok(kind)
    }
}

/// What stands before the codes.
#[derive(Clone, Copy, Debug, PartialEq, Eq)]
pub struct U128Header {
    pub num_vals: u32,
    pub codec_type: U128FastFieldCodecType,
}

impl U128Header {
    /// Adds the header's bytes.
    pub fn serialize<K: Sink>(&self, sink: &mut K) -> Result<(), ColumnarError>
        ensures ok { Serializes (K.seen sink.old) (K.seen sink.new) result
            (vint_bytes self.now.num_vals ++ 1 ∷ []) }
        // What was added reads back, whatever follows.
        ensures again { (rest : List ℕ) →
            header_at (vint_bytes self.now.num_vals ++ 1 ∷ rest) ≡ Some (self.now.num_vals, rest) }
    {
        VInt(u64::from(self.num_vals)).serialize(sink)?;
        self.codec_type.serialize(sink)
    }

    /// Takes the header at the front.
    pub fn deserialize(data: &mut &[u8]) -> Result<U128Header, InvalidData>
        ensures { TakesFront (λ header. header.num_vals) result (header_at «data».old.now)
            «data».old.now «data».new.now }
    {
        let Some((num_vals, rest)) = read_header(data) else {
            return Err(InvalidData);
        };
        *data = rest;
        Ok(U128Header {
            num_vals,
            codec_type: U128FastFieldCodecType::CompactSpace,
        })
    }
}

// The count of the header at the front, and the bytes behind it.
pub(crate) fn read_header(bytes: &[u8]) -> Option<(u32, &[u8])>
    ensures { option_map (λ r. (r.0, r.1.now)) result ≡ header_at bytes.now }
{
    let (count, rest) = read_vint(bytes)?;
    let [code, rest @ ..] = rest else {
        return None;
    };
    if count > u64::from(u32::MAX) {
        return None;
    }
    if *code != COMPACT_SPACE_CODE {
        return None;
    }
    Some((count as u32, rest))
}

/// The count of the header at the front, and the bytes behind it.
pub(crate) fn split_header(bytes: Bytes) -> Option<(u32, Bytes)>
    ensures { result ≡ header_at bytes }
{
    let (count, rest_len) = read_count(bytes.as_slice())?;
    Some((count, cut_rest(bytes, rest_len)))
}

// The count of the header at the front, and how many bytes are behind it.
fn read_count(bytes: &[u8]) -> Option<(u32, usize)>
    ensures count { option_map (λ r. (r.0, drop (length bytes.now - r.1) bytes.now)) result
        ≡ header_at bytes.now }
    ensures rest { IfSome result (λ r. r.1 ≤ length bytes.now) }
{
    let (count, rest) = read_header(bytes)?;
    Some((count, rest.len()))
}
